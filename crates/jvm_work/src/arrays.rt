ghost use Rattle.std.specs.Prelude.{◌≡◌, ◌<◌, ◌^◌, ℕ, List, length, replicate, Some, slice_get, IfOk, OnErr, IfSome};
ghost use Rattle.class_form.specs.declared.class_file.ClassFile.{ClassFile as File};
ghost use Rattle.jp_store.specs.declared.value.Value.{Value as Cell};
ghost use Rattle.jp_store.specs.declared.value.ElementKind.TheVariants.{TruthElement};
ghost use Rattle.jp_store.specs.Arith.{on_int};
ghost use Rattle.jp_store.specs.Classes.{Class};
ghost use Rattle.jp_store.specs.Heap.{with_value};
ghost use Rattle.jp_store.specs.Outcome.{then_with, on_some};
ghost use Rattle.jp_store.specs.Store.{Store};
ghost use Rattle.jp_store.specs.Work as work;
ghost use Rattle.jp_store.specs.Work.{answers, array_made, at_index, changed, on_array};
ghost use Rattle.jvm_load.specs.FileClasses.{classes_of};
ghost use Rattle.jvm_link.specs.Links.{class_named};
ghost use Rattle.jvm_step.specs.declared.act.Effect.TheVariants.{MakeNumbers, MakeTruths, GetElement, PutElement, ArrayLength};
ghost use Rattle.jvm_work.specs.Effects as spec;
ghost use Rattle.jvm_work.specs.Effects.{effected, references_made, store, stored_in, left_with, KeptUnlessFine};

use crate::objects::{is_null_or_instance, make_thing};
use jp_store::{Element, ElementKind, Elements, Heap, Kind, Outcome, Thing, TrapKind, Value};
use jvm_link::Linked;
use jvm_step::has_kind;
use std::alloc::{AllocError, Global};

// How many an int counts, if it isn't negative.
fn count_of(n: i32) -> Option<usize>
    ensures count { result ≡ spec.count_of n }
    ensures short { IfSome result (λ count. count < 2 ^ 31) }
{
    if n < 0 { None } else { Some(n as usize) }
}

// What an array's elements start as.
fn first_element(element: Element) -> Value
    ensures { result ≡ work.first_element element }
{
    match element {
        Element::Numbers => Value::Int(0),
        Element::Truths => Value::Int(0),
        Element::References(_) => Value::Null,
    }
}

fn first_elements(alloc: Global, element: Element, count: usize) -> Result<Elements, AllocError>
    requires { count < 2 ^ 31 }
    ensures { IfOk result (λ elements. elements ≡ replicate count (work.first_element element)) }
{
    let items = vec![in alloc; first_element(element); count]?;
    Ok(Elements::new(items))
}

// A new array of so many elements. The error is want of memory.
fn new_array(
    alloc: Global,
    element: Element,
    size: Value,
    heap: &mut Heap,
) -> Result<Outcome<Value>, AllocError>
    ensures made { (classes : List Class) (statics : List (List Cell)) → IfOk result (λ outcome.
        left_with outcome (store classes heap.new statics) ≡ on_int (array_made (store classes heap.old statics) element) size) }
    ensures kept { IfOk result (λ outcome. KeptUnlessFine outcome heap.old heap.new) }
    ensures no_memory { OnErr result (heap.new ≡ heap.old) }
{
    match size {
        Value::Int(size) => sized_array(alloc, element, size, heap),
        _ => Ok(Outcome::Wrong),
    }
}

fn sized_array(
    alloc: Global,
    element: Element,
    size: i32,
    heap: &mut Heap,
) -> Result<Outcome<Value>, AllocError>
    ensures made { (classes : List Class) (statics : List (List Cell)) → IfOk result (λ outcome.
        left_with outcome (store classes heap.new statics) ≡ array_made (store classes heap.old statics) element size) }
    ensures kept { IfOk result (λ outcome. KeptUnlessFine outcome heap.old heap.new) }
    ensures no_memory { OnErr result (heap.new ≡ heap.old) }
{
    let Some(count) = count_of(size) else {
        return Ok(Outcome::Trap(TrapKind::NegativeSize));
    };
    let elements = first_elements(alloc, element, count)?;
    make_thing(heap, Thing::Array(element, elements))
}

// `newarray` of `int` (JVM specification, second edition, chapter 6). The error is want of memory.
pub(crate) fn make_numbers(
    alloc: Global,
    size: Value,
    heap: &mut Heap,
) -> Result<Outcome<Value>, AllocError>
    ensures worked { (file : File) (classes : List Class) (statics : List (List Cell)) → IfOk result (λ outcome.
        left_with outcome (store classes heap.new statics) ≡ effected file (MakeNumbers size) (store classes heap.old statics)) }
    ensures kept { IfOk result (λ outcome. KeptUnlessFine outcome heap.old heap.new) }
    ensures no_memory { OnErr result (heap.new ≡ heap.old) }
{
    new_array(alloc, Element::Numbers, size, heap)
}

// `newarray` of `boolean`. The error is want of memory.
pub(crate) fn make_truths(
    alloc: Global,
    size: Value,
    heap: &mut Heap,
) -> Result<Outcome<Value>, AllocError>
    ensures worked { (file : File) (classes : List Class) (statics : List (List Cell)) → IfOk result (λ outcome.
        left_with outcome (store classes heap.new statics) ≡ effected file (MakeTruths size) (store classes heap.old statics)) }
    ensures kept { IfOk result (λ outcome. KeptUnlessFine outcome heap.old heap.new) }
    ensures no_memory { OnErr result (heap.new ≡ heap.old) }
{
    new_array(alloc, Element::Truths, size, heap)
}

// `anewarray`. The error is want of memory.
pub(crate) fn make_references(
    alloc: Global,
    linked: &Linked,
    at: u32,
    index: u16,
    size: Value,
    heap: &mut Heap,
) -> Result<Outcome<Value>, AllocError>
    ensures worked { (file : File) (statics : List (List Cell)) → slice_get linked.now at ≡ Some file → IfOk result (λ outcome.
        left_with outcome (store (classes_of linked.now) heap.new statics)
        ≡ references_made (class_named linked.now file index) size (store (classes_of linked.now) heap.old statics)) }
    ensures kept { IfOk result (λ outcome. KeptUnlessFine outcome heap.old heap.new) }
    ensures no_memory { OnErr result (heap.new ≡ heap.old) }
{
    let Some(class) = linked.class(at, index) else {
        return Ok(Outcome::Wrong);
    };
    new_array(alloc, Element::References(class), size, heap)
}

// Whether an array's elements are of a kind.
fn is_element(kind: ElementKind, element: Element) -> bool
    ensures { result ≡ work.is_element kind element }
{
    match kind {
        ElementKind::NumberElement => match element {
            Element::Numbers => true,
            _ => false,
        },
        ElementKind::TruthElement => match element {
            Element::Truths => true,
            _ => false,
        },
        ElementKind::ReferenceElement => match element {
            Element::References(_) => true,
            _ => false,
        },
    }
}

fn is_truth(value: Value) -> bool
    ensures { result ≡ work.can_store TruthElement value }
{
    match value {
        Value::Int(n) => n == 0 || n == 1,
        _ => false,
    }
}

// Whether a value may be stored in an element of a kind; a boolean is 0 or 1.
fn can_store(kind: ElementKind, value: Value) -> bool
    ensures { result ≡ work.can_store kind value }
{
    match kind {
        ElementKind::NumberElement => has_kind(Kind::Number, value),
        ElementKind::TruthElement => is_truth(value),
        ElementKind::ReferenceElement => has_kind(Kind::Reference, value),
    }
}

// The element at an index, with the index, if there is one.
fn element_at(elements: &Elements, index: i32) -> Option<(usize, Value)>
    ensures { result ≡ spec.element_at elements.now index }
{
    let index = count_of(index)?;
    let value = elements.get(index)?;
    Some((index, value))
}

fn read_element(kind: ElementKind, thing: &Thing, index: i32) -> Outcome<Value>
    ensures { (s : Store) → left_with result s
        ≡ on_array kind thing.now (λ element values. at_index values index (λ n v. answers s v)) }
{
    match thing {
        Thing::Object(_, _) => Outcome::Wrong,
        Thing::Array(element, elements) => {
            if !is_element(kind, *element) {
                return Outcome::Wrong;
            }
            match element_at(elements, index) {
                Some((_, value)) => Outcome::Fine(value),
                None => Outcome::Trap(TrapKind::OutOfBounds),
            }
        }
    }
}

// `iaload`, `baload` and `aaload`.
pub(crate) fn get_element(
    kind: ElementKind,
    array: Value,
    index: Value,
    heap: &Heap,
) -> Outcome<Value>
    ensures { (file : File) (classes : List Class) (statics : List (List Cell)) →
        left_with result (store classes heap.now statics) ≡ effected file (GetElement kind array index) (store classes heap.now statics) }
{
    let Value::Int(index) = index else {
        return Outcome::Wrong;
    };
    match array {
        Value::Ref(number) => match heap.thing(number) {
            Some(thing) => read_element(kind, thing, index),
            None => Outcome::Wrong,
        },
        Value::Null => Outcome::Trap(TrapKind::NullReference),
        _ => Outcome::Wrong,
    }
}

// Whether a reference that is stored fits an array's elements.
fn fits_element(linked: &Linked, heap: &Heap, element: Element, value: Value) -> Outcome<bool>
    ensures { (statics : List (List Cell)) → result ≡ work.fits_element (store (classes_of linked.now) heap.now statics) element value }
{
    match element {
        Element::Numbers => Outcome::Fine(true),
        Element::Truths => Outcome::Fine(true),
        Element::References(class) => is_null_or_instance(linked.program(), class, heap, value),
    }
}

// Where a value is stored in an array.
fn cell_in(
    linked: &Linked,
    heap: &Heap,
    kind: ElementKind,
    thing: &Thing,
    index: i32,
    value: Value,
) -> Outcome<usize>
    ensures { (statics : List (List Cell)) (o : ℕ) →
        then_with result (λ n. changed (store (classes_of linked.now) heap.now statics) o (with_value thing.now n value))
        ≡ stored_in (store (classes_of linked.now) heap.now statics) kind index value o thing.now }
{
    match thing {
        Thing::Object(_, _) => Outcome::Wrong,
        Thing::Array(element, elements) => {
            if !is_element(kind, *element) {
                return Outcome::Wrong;
            }
            let Some((at, _)) = element_at(elements, index) else {
                return Outcome::Trap(TrapKind::OutOfBounds);
            };
            match fits_element(linked, heap, *element, value) {
                Outcome::Fine(fits) => {
                    if fits {
                        Outcome::Fine(at)
                    } else {
                        Outcome::Wrong
                    }
                }
                Outcome::Trap(kind) => Outcome::Trap(kind),
                Outcome::Wrong => Outcome::Wrong,
            }
        }
    }
}

fn write_element(
    linked: &Linked,
    kind: ElementKind,
    number: usize,
    index: i32,
    value: Value,
    heap: &mut Heap,
) -> Outcome<Value>
    ensures worked { (statics : List (List Cell)) → left_with result (store (classes_of linked.now) heap.new statics)
        ≡ on_some (slice_get heap.old number) (stored_in (store (classes_of linked.now) heap.old statics) kind index value number) }
    ensures kept { KeptUnlessFine result heap.old heap.new }
{
    let Some(thing) = heap.thing(number) else {
        return Outcome::Wrong;
    };
    match cell_in(linked, heap, kind, thing, index, value) {
        Outcome::Fine(at) => {
            heap.set(number, at, value);
            Outcome::Fine(Value::Null)
        }
        Outcome::Trap(kind) => Outcome::Trap(kind),
        Outcome::Wrong => Outcome::Wrong,
    }
}

// `iastore`, `bastore` and `aastore`.
pub(crate) fn put_element(
    linked: &Linked,
    kind: ElementKind,
    array: Value,
    index: Value,
    value: Value,
    heap: &mut Heap,
) -> Outcome<Value>
    ensures worked { (file : File) (statics : List (List Cell)) → left_with result (store (classes_of linked.now) heap.new statics)
        ≡ effected file (PutElement kind array index value) (store (classes_of linked.now) heap.old statics) }
    ensures kept { KeptUnlessFine result heap.old heap.new }
{
    let Value::Int(index) = index else {
        return Outcome::Wrong;
    };
    if !can_store(kind, value) {
        return Outcome::Wrong;
    }
    match array {
        Value::Ref(number) => write_element(linked, kind, number, index, value, heap),
        Value::Null => Outcome::Trap(TrapKind::NullReference),
        _ => Outcome::Wrong,
    }
}

fn size_of(thing: &Thing) -> Outcome<Value>
    ensures { (s : Store) → left_with result s ≡ work.size_of s thing.now }
{
    match thing {
        Thing::Object(_, _) => Outcome::Wrong,
        Thing::Array(_, elements) => Outcome::Fine(Value::Int(elements.size())),
    }
}

// `arraylength`.
pub(crate) fn array_length(array: Value, heap: &Heap) -> Outcome<Value>
    ensures { (file : File) (classes : List Class) (statics : List (List Cell)) →
        left_with result (store classes heap.now statics) ≡ effected file (ArrayLength array) (store classes heap.now statics) }
{
    match array {
        Value::Ref(number) => match heap.thing(number) {
            Some(thing) => size_of(thing),
            None => Outcome::Wrong,
        },
        Value::Null => Outcome::Trap(TrapKind::NullReference),
        _ => Outcome::Wrong,
    }
}
