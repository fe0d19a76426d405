ghost use Rattle.std.specs.Prelude.{◌≡◌, Some, IfOk, OnErr, slice_get};
ghost use Rattle.class_form.specs.declared.class_file.ClassFile.{ClassFile as File};
ghost use Rattle.jvm_load.specs.FileClasses.{classes_of};
ghost use Rattle.jvm_work.specs.Effects.{effected, store, left_with, KeptUnlessFine, Allocates};

use crate::arrays::{
    array_length, get_element, make_numbers, make_references, make_truths, put_element,
};
use crate::fields::{get_field, get_static, put_field, put_static};
use crate::objects::{check_cast, instance_of, make_object};
use jp_store::{Heap, Outcome, Value};
use jvm_link::Linked;
use jvm_step::{Effect, Statics};
use std::alloc::{AllocError, Global};

/// Does to the heap and the static fields what an instruction of a method of the file at a position left to be done, and
/// answers the value that it comes to (null where it has none), a trap, or `Wrong` where the table has no row for it; then the heap
/// and the static fields are as they were. The error is want of memory, which leaves them so too, and comes at a new
/// object or array alone (JVM specification, second edition, chapter 6).
pub fn carry_out(
    alloc: Global,
    linked: &Linked,
    at: u32,
    effect: Effect,
    heap: &mut Heap,
    statics: &mut Statics,
) -> Result<Outcome<Value>, AllocError>
    ensures worked { (file : File) → slice_get linked.now at ≡ Some file
        → IfOk result (λ outcome. left_with outcome (store (classes_of linked.now) heap.new statics.new)
        ≡ effected file effect (store (classes_of linked.now) heap.old statics.old)) }
    ensures heap_kept { IfOk result (λ outcome. KeptUnlessFine outcome heap.old heap.new) }
    ensures statics_kept { IfOk result (λ outcome. KeptUnlessFine outcome statics.old statics.new) }
    ensures no_memory_heap { OnErr result (heap.new ≡ heap.old) }
    ensures no_memory_statics { OnErr result (statics.new ≡ statics.old) }
    ensures no_memory_cause { OnErr result (Allocates effect) }
{
    match effect {
        Effect::GetField(object, index) => Ok(get_field(linked, at, index, object, heap)),
        Effect::PutField(object, index, value) => Ok(put_field(
            linked, at, index, object, value, heap,
        )),
        Effect::GetStatic(index) => Ok(get_static(linked, at, index, statics)),
        Effect::PutStatic(index, value) => Ok(put_static(linked, at, index, value, statics)),
        Effect::MakeObject(index) => make_object(alloc, linked, at, index, heap),
        Effect::MakeNumbers(size) => make_numbers(alloc, size, heap),
        Effect::MakeTruths(size) => make_truths(alloc, size, heap),
        Effect::MakeReferences(index, size) => make_references(
            alloc, linked, at, index, size, heap,
        ),
        Effect::GetElement(kind, array, index) => Ok(get_element(kind, array, index, heap)),
        Effect::PutElement(kind, array, index, value) => {
            Ok(put_element(linked, kind, array, index, value, heap))
        }
        Effect::ArrayLength(array) => Ok(array_length(array, heap)),
        Effect::CheckCast(index, value) => Ok(check_cast(linked, at, index, value, heap)),
        Effect::InstanceOf(index, value) => Ok(instance_of(linked, at, index, value, heap)),
    }
}
