ghost use Rattle.std.specs.Prelude.{◌≡◌, ◌||◌, not, List, length, Some, IfOk, OnErr, slice_get};
ghost use Rattle.class_form.specs.declared.class_file.ClassFile.{ClassFile as File};
ghost use Rattle.jp_store.specs.Arith as arith;
ghost use Rattle.jp_store.specs.declared.value.Value.{Value as Cell};
ghost use Rattle.jp_store.specs.declared.heap.Thing.TheVariants.{Object};
ghost use Rattle.jp_store.specs.Classes.{Class, first_values};
ghost use Rattle.jp_store.specs.Outcome.{then_with};
ghost use Rattle.jp_store.specs.Work as work;
ghost use Rattle.jp_store.specs.Work.{answers, made};
ghost use Rattle.jvm_load.specs.FileClasses.{class_of, classes_of};
ghost use Rattle.jvm_load.specs.Fields.{IsAmongFirst};
ghost use Rattle.jvm_link.specs.Links.{class_named};
ghost use Rattle.jvm_work.specs.Effects.{object_made, instance_tested, casted, store, left_with, KeptUnlessFine};

use class_form::ClassFile;
use jp_store::{ClassAt, Heap, Outcome, Thing, TrapKind, Value};
use jvm_link::Linked;
use jvm_load::{Program, has_flag};
use std::alloc::{AllocError, Global};

// The access flags of interfaces and of abstract classes (JVM specification, second edition, 4.1).
const INTERFACE: u16 = 0x0200;

const ABSTRACT: u16 = 0x0400;

fn is_concrete_file(file: &ClassFile) -> bool
    ensures { result ≡ not ((class_of file.now).is_interface || (class_of file.now).is_abstract) }
{
    !(has_flag(INTERFACE, file.flags) || has_flag(ABSTRACT, file.flags))
}

// Whether an object of the class can be made.
fn is_concrete(program: &Program, class: ClassAt) -> bool
    ensures { result ≡ work.is_concrete (classes_of program.now) class }
{
    match class {
        ClassAt::Root => true,
        ClassAt::Listed(at) => match program.file(at) {
            Some(file) => is_concrete_file(file),
            None => false,
        },
    }
}

// A new object or array. The error is want of memory.
pub(crate) fn make_thing(heap: &mut Heap, thing: Thing) -> Result<Outcome<Value>, AllocError>
    ensures made { (classes : List Class) (statics : List (List Cell)) → IfOk result (λ outcome.
        left_with outcome (store classes heap.new statics) ≡ made (store classes heap.old statics) thing) }
    ensures kept { IfOk result (λ outcome. KeptUnlessFine outcome heap.old heap.new) }
    ensures no_memory { OnErr result (heap.new ≡ heap.old) }
{
    let number = heap.make(thing)?;
    Ok(Outcome::Fine(Value::Ref(number)))
}

fn new_object(
    alloc: Global,
    program: &Program,
    class: ClassAt,
    heap: &mut Heap,
) -> Result<Outcome<Value>, AllocError>
    requires { IsAmongFirst (length program.now) class }
    ensures made { (statics : List (List Cell)) → IfOk result (λ outcome.
        left_with outcome (store (classes_of program.now) heap.new statics)
        ≡ made (store (classes_of program.now) heap.old statics) (Object class (first_values (classes_of program.now) class))) }
    ensures kept { IfOk result (λ outcome. KeptUnlessFine outcome heap.old heap.new) }
    ensures no_memory { OnErr result (heap.new ≡ heap.old) }
{
    let fields = program.first_values(alloc, class)?;
    make_thing(heap, Thing::Object(class, fields))
}

fn make_concrete(
    alloc: Global,
    program: &Program,
    class: ClassAt,
    heap: &mut Heap,
) -> Result<Outcome<Value>, AllocError>
    requires { IsAmongFirst (length program.now) class }
    ensures worked { (statics : List (List Cell)) → IfOk result (λ outcome.
        left_with outcome (store (classes_of program.now) heap.new statics)
        ≡ object_made (Some class) (store (classes_of program.now) heap.old statics)) }
    ensures kept { IfOk result (λ outcome. KeptUnlessFine outcome heap.old heap.new) }
    ensures no_memory { OnErr result (heap.new ≡ heap.old) }
{
    if !is_concrete(program, class) {
        return Ok(Outcome::Wrong);
    }
    new_object(alloc, program, class, heap)
}

// `new` (JVM specification, second edition, chapter 6). The error is want of memory.
pub(crate) fn make_object(
    alloc: Global,
    linked: &Linked,
    at: u32,
    index: u16,
    heap: &mut Heap,
) -> Result<Outcome<Value>, AllocError>
    ensures worked { (file : File) (statics : List (List Cell)) → slice_get linked.now at ≡ Some file → IfOk result (λ outcome.
        left_with outcome (store (classes_of linked.now) heap.new statics)
        ≡ object_made (class_named linked.now file index) (store (classes_of linked.now) heap.old statics)) }
    ensures kept { IfOk result (λ outcome. KeptUnlessFine outcome heap.old heap.new) }
    ensures no_memory { OnErr result (heap.new ≡ heap.old) }
{
    let Some(class) = linked.class(at, index) else {
        return Ok(Outcome::Wrong);
    };
    make_concrete(alloc, linked.program(), class, heap)
}

// Whether an object or array is one of the class or of one below it. Arrays are objects.
fn is_instance(program: &Program, up: ClassAt, thing: &Thing) -> bool
    ensures { result ≡ work.is_instance (classes_of program.now) up thing.now }
{
    match thing {
        Thing::Object(class, _) => program.is_below(*class, up),
        Thing::Array(_, _) => program.is_below(ClassAt::Root, up),
    }
}

// Whether a reference is null or names an instance of the class.
pub(crate) fn is_null_or_instance(
    program: &Program,
    up: ClassAt,
    heap: &Heap,
    value: Value,
) -> Outcome<bool>
    ensures { result ≡ work.is_null_or (work.is_instance (classes_of program.now) up) heap.now value }
{
    match value {
        Value::Null => Outcome::Fine(true),
        Value::Ref(number) => match heap.thing(number) {
            Some(thing) => Outcome::Fine(is_instance(program, up, thing)),
            None => Outcome::Wrong,
        },
        _ => Outcome::Wrong,
    }
}

// A truth as the number that stands for it.
fn of_truth(truth: bool) -> Value
    ensures { result ≡ arith.of_truth truth }
{
    if truth { Value::Int(1) } else { Value::Int(0) }
}

// Whether a reference names an instance of the class; null doesn't.
fn instance_truth(program: &Program, up: ClassAt, heap: &Heap, value: Value) -> Outcome<Value>
    ensures { (statics : List (List Cell)) → result ≡ work.instance_truth (store (classes_of program.now) heap.now statics) up value }
{
    match value {
        Value::Null => Outcome::Fine(of_truth(false)),
        Value::Ref(number) => match heap.thing(number) {
            Some(thing) => Outcome::Fine(of_truth(is_instance(program, up, thing))),
            None => Outcome::Wrong,
        },
        _ => Outcome::Wrong,
    }
}

// `instanceof`.
pub(crate) fn instance_of(
    linked: &Linked,
    at: u32,
    index: u16,
    value: Value,
    heap: &Heap,
) -> Outcome<Value>
    ensures { (file : File) (statics : List (List Cell)) → slice_get linked.now at ≡ Some file
        → left_with result (store (classes_of linked.now) heap.now statics)
        ≡ instance_tested (class_named linked.now file index) value (store (classes_of linked.now) heap.now statics) }
{
    let Some(up) = linked.class(at, index) else {
        return Outcome::Wrong;
    };
    instance_truth(linked.program(), up, heap, value)
}

fn cast_to(program: &Program, up: ClassAt, value: Value, heap: &Heap) -> Outcome<Value>
    ensures { (statics : List (List Cell)) → left_with result (store (classes_of program.now) heap.now statics)
        ≡ casted (Some up) value (store (classes_of program.now) heap.now statics) }
{
    match is_null_or_instance(program, up, heap, value) {
        Outcome::Fine(true) => Outcome::Fine(value),
        Outcome::Fine(false) => Outcome::Trap(TrapKind::BadCast),
        Outcome::Trap(kind) => Outcome::Trap(kind),
        Outcome::Wrong => Outcome::Wrong,
    }
}

// `checkcast`.
pub(crate) fn check_cast(
    linked: &Linked,
    at: u32,
    index: u16,
    value: Value,
    heap: &Heap,
) -> Outcome<Value>
    ensures { (file : File) (statics : List (List Cell)) → slice_get linked.now at ≡ Some file
        → left_with result (store (classes_of linked.now) heap.now statics)
        ≡ casted (class_named linked.now file index) value (store (classes_of linked.now) heap.now statics) }
{
    let Some(up) = linked.class(at, index) else {
        return Outcome::Wrong;
    };
    cast_to(linked.program(), up, value, heap)
}
