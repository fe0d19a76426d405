ghost use Rattle.std.specs.Prelude.{◌≡◌, ◌<◌, true, false, List, length, Some, slice_get};
ghost use Rattle.class_form.specs.declared.class_file.ClassFile.{ClassFile as File};
ghost use Rattle.jp_store.specs.Classes.{Class};
ghost use Rattle.jvm_link.specs.Links.{field_named};
ghost use Rattle.std.specs.Option.{option_map};
ghost use Rattle.jp_store.specs.declared.value.Value.{Value as Cell};
ghost use Rattle.jp_store.specs.declared.heap.Thing.{Thing as Made};
ghost use Rattle.jp_store.specs.Heap.{with_value};
ghost use Rattle.jp_store.specs.Outcome.{on_some};
ghost use Rattle.jp_store.specs.declared.outcome.Outcome.TheVariants.{Fine};
ghost use Rattle.jp_store.specs.Work as work;
ghost use Rattle.jp_store.specs.Work.{answers, changed, on_thing};
ghost use Rattle.jvm_load.specs.FileClasses.{classes_of};
ghost use Rattle.jvm_load.specs.Fields.{found_at};
ghost use Rattle.jvm_work.specs.Effects.{field_read, field_written, static_read, static_written, store, left_with, KeptUnlessFine};

use jp_store::{Heap, Outcome, Thing, TrapKind, Value};
use jvm_link::Linked;
use jvm_load::{FieldPlace, Program};
use jvm_step::{Statics, has_kind};

fn or_wrong(value: Option<Value>) -> Outcome<Value>
    ensures { result ≡ on_some value Fine }
{
    match value {
        Some(value) => Outcome::Fine(value),
        None => Outcome::Wrong,
    }
}

// The value of a field of an object.
fn field_in(program: &Program, place: FieldPlace, thing: &Thing) -> Option<Value>
    requires { place.class < length program.now }
    ensures { result ≡ work.field_in (classes_of program.now) (found_at place) thing.now }
{
    match thing {
        Thing::Object(class, fields) => fields.get(program.slot(*class, place)?),
        Thing::Array(_, _) => None,
    }
}

// Where a thing holds a field, if it is an object that has it.
fn slot_in(program: &Program, place: FieldPlace, thing: &Thing) -> Option<usize>
    requires { place.class < length program.now }
    ensures { (v : Cell) → option_map (λ slot. with_value thing.now slot v) result
        ≡ work.with_field (classes_of program.now) (found_at place) v thing.now }
{
    match thing {
        Thing::Object(class, _) => program.slot(*class, place),
        Thing::Array(_, _) => None,
    }
}

fn read_field(program: &Program, place: FieldPlace, object: Value, heap: &Heap) -> Outcome<Value>
    requires { place.class < length program.now }
    ensures { (statics : List (List Cell)) → left_with result (store (classes_of program.now) heap.now statics)
        ≡ on_thing heap.now object (λ o thing. on_some (work.field_in (classes_of program.now) (found_at place) thing)
        (answers (store (classes_of program.now) heap.now statics))) }
{
    match object {
        Value::Ref(number) => match heap.thing(number) {
            Some(thing) => or_wrong(field_in(program, place, thing)),
            None => Outcome::Wrong,
        },
        Value::Null => Outcome::Trap(TrapKind::NullReference),
        _ => Outcome::Wrong,
    }
}

// `getfield` (JVM specification, second edition, chapter 6).
pub(crate) fn get_field(
    linked: &Linked,
    at: u32,
    index: u16,
    object: Value,
    heap: &Heap,
) -> Outcome<Value>
    ensures { (file : File) (statics : List (List Cell)) → slice_get linked.now at ≡ Some file
        → left_with result (store (classes_of linked.now) heap.now statics)
        ≡ field_read (field_named false linked.now file index) object (store (classes_of linked.now) heap.now statics) }
{
    let Some(place) = linked.field(at, index) else {
        return Outcome::Wrong;
    };
    read_field(linked.program(), place, object, heap)
}

fn write_field(
    program: &Program,
    place: FieldPlace,
    object: Value,
    value: Value,
    heap: &mut Heap,
) -> Outcome<Value>
    requires { place.class < length program.now }
    ensures worked { (statics : List (List Cell)) → left_with result (store (classes_of program.now) heap.new statics)
        ≡ on_thing heap.old object (λ o thing. on_some (work.with_field (classes_of program.now) (found_at place) value thing)
        (changed (store (classes_of program.now) heap.old statics) o)) }
    ensures kept { KeptUnlessFine result heap.old heap.new }
{
    match object {
        Value::Ref(number) => {
            let Some(thing) = heap.thing(number) else {
                return Outcome::Wrong;
            };
            let Some(slot) = slot_in(program, place, thing) else {
                return Outcome::Wrong;
            };
            heap.set(number, slot, value);
            Outcome::Fine(Value::Null)
        }
        Value::Null => Outcome::Trap(TrapKind::NullReference),
        _ => Outcome::Wrong,
    }
}

fn write_fitting(
    program: &Program,
    place: FieldPlace,
    object: Value,
    value: Value,
    heap: &mut Heap,
) -> Outcome<Value>
    requires { place.class < length program.now }
    ensures worked { (statics : List (List Cell)) → left_with result (store (classes_of program.now) heap.new statics)
        ≡ field_written (Some (found_at place)) object value (store (classes_of program.now) heap.old statics) }
    ensures kept { KeptUnlessFine result heap.old heap.new }
{
    if !has_kind(place.kind, value) {
        return Outcome::Wrong;
    }
    write_field(program, place, object, value, heap)
}

// `putfield`.
pub(crate) fn put_field(
    linked: &Linked,
    at: u32,
    index: u16,
    object: Value,
    value: Value,
    heap: &mut Heap,
) -> Outcome<Value>
    ensures worked { (file : File) (statics : List (List Cell)) → slice_get linked.now at ≡ Some file
        → left_with result (store (classes_of linked.now) heap.new statics)
        ≡ field_written (field_named false linked.now file index) object value (store (classes_of linked.now) heap.old statics) }
    ensures kept { KeptUnlessFine result heap.old heap.new }
{
    let Some(place) = linked.field(at, index) else {
        return Outcome::Wrong;
    };
    write_fitting(linked.program(), place, object, value, heap)
}

// `getstatic`.
pub(crate) fn get_static(linked: &Linked, at: u32, index: u16, statics: &Statics) -> Outcome<Value>
    ensures { (file : File) (heap : List Made) → slice_get linked.now at ≡ Some file
        → left_with result (store (classes_of linked.now) heap statics.now)
        ≡ static_read (field_named true linked.now file index) (store (classes_of linked.now) heap statics.now) }
{
    let Some(place) = linked.static_field(at, index) else {
        return Outcome::Wrong;
    };
    or_wrong(statics.get(place.class, place.slot))
}

fn write_static(place: FieldPlace, value: Value, statics: &mut Statics) -> Outcome<Value>
    ensures worked { (classes : List Class) (heap : List Made) → left_with result (store classes heap statics.new)
        ≡ static_written (Some (found_at place)) value (store classes heap statics.old) }
    ensures kept { KeptUnlessFine result statics.old statics.new }
{
    if !has_kind(place.kind, value) {
        return Outcome::Wrong;
    }
    if statics.set(place.class, place.slot, value) {
        Outcome::Fine(Value::Null)
    } else {
        Outcome::Wrong
    }
}

// `putstatic`.
pub(crate) fn put_static(
    linked: &Linked,
    at: u32,
    index: u16,
    value: Value,
    statics: &mut Statics,
) -> Outcome<Value>
    ensures worked { (file : File) (heap : List Made) → slice_get linked.now at ≡ Some file
        → left_with result (store (classes_of linked.now) heap statics.new)
        ≡ static_written (field_named true linked.now file index) value (store (classes_of linked.now) heap statics.old) }
    ensures kept { KeptUnlessFine result statics.old statics.new }
{
    let Some(place) = linked.static_field(at, index) else {
        return Outcome::Wrong;
    };
    write_static(place, value, statics)
}
