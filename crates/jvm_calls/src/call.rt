ghost use Rattle.std.specs.Prelude.{◌≡◌, ℕ, List, Some, IfOk, option_and_then, slice_get};
ghost use Rattle.jvm_table.specs.Descriptors.{signature_of};
ghost use Rattle.jvm_table.specs.Act as table;
ghost use Rattle.jvm_step.specs.Act.{left_to_do};
ghost use Rattle.jvm_step.specs.Names.{named};
ghost use Rattle.jvm_step.specs.Turn as turn;
ghost use Rattle.jvm_step.specs.declared.act.Left.TheVariants.{CallVirtual, CallInterface, CallSpecial, CallStatic};
ghost use Rattle.jvm_calls.specs.Passing.{as_turn, at_place};
ghost use Rattle.jvm_calls.specs.Passing as passing;
ghost use Rattle.class_form.specs.declared.class_file.ClassFile.{ClassFile as Files};

use crate::args::{Args, take_args, take_places};
use crate::enter::enter;
use crate::find::find_virtual;
use jp_store::{Kind, TrapKind, Value};
use jvm_link::Linked;
use jvm_load::Signature;
use jvm_step::{
    MemberName, State, has_kind, interface_method_name, method_name, names_object_init, pop,
};
use std::alloc::{AllocError, Global};
use std::mem::replace;

/// What a call or a return comes to.
#[derive(Clone, Copy)]
pub enum Passed {
    /// The run goes on in another method.
    On,
    /// `main` has returned.
    Done,
    Trap(TrapKind),
}

// Calls the method at these positions; the one that runs waits. At a null receiver it traps, if there is a method.
fn pass(
    alloc: Global,
    linked: &Linked,
    is_static: bool,
    on_null: bool,
    args: Args,
    found: Option<(u32, u32)>,
    state: &mut State,
) -> Result<Option<Passed>, AllocError>
    ensures { IfOk result (λ passed. (place : ℕ) → as_turn (at_place place state.old) passed state.new
        ≡ turn.called (at_place place state.old) on_null state.old.current.frame (option_and_then (turn.entry linked.now is_static args) found)) }
{
    let Some(at) = found else {
        return Ok(None);
    };
    let Some(running) = enter(alloc, linked.program(), is_static, args, at)? else {
        return Ok(None);
    };
    if on_null {
        return Ok(Some(Passed::Trap(TrapKind::NullReference)));
    }
    let caller = replace(&mut state.current, running);
    state.callers.push(caller)?;
    Ok(Some(Passed::On))
}

/// Calls the static method that a constant of the running method's file names. `None` where the table has no row for it;
/// the error is want of memory.
pub fn call_static(
    alloc: Global,
    linked: &Linked,
    index: u16,
    state: &mut State,
) -> Result<Option<Passed>, AllocError>
    ensures { (file : Files) → slice_get linked.now state.old.current.file ≡ Some file
        → IfOk result (λ passed. (place : ℕ) → as_turn (at_place place state.old) passed state.new
        ≡ turn.turn linked.now (at_place place state.old) (left_to_do file (CallStatic index) state.old.current.frame)) }
{
    let at = state.current.file;
    let Some(signature) = linked.signature(at, index) else {
        return Ok(None);
    };
    let Some(args) = take_args(alloc, signature.parameters(), &mut state.current.frame)? else {
        return Ok(None);
    };
    let found = linked.static_method(at, index);
    pass(alloc, linked, true, false, args, found, state)
}

// Calls the method that is found upwards from the receiver's class.
fn call_by_receiver(
    alloc: Global,
    linked: &Linked,
    member: &MemberName,
    signature: &Signature,
    state: &mut State,
) -> Result<Option<Passed>, AllocError>
    requires { Some signature.now ≡ signature_of member.now.descriptor.now }
    ensures { IfOk result (λ passed. (place : ℕ) → as_turn (at_place place state.old) passed state.new
        ≡ turn.turn linked.now (at_place place state.old) (table.calls_virtual (named member.now) state.old.current.frame)) }
{
    let Some(mut args) = take_args(alloc, signature.parameters(), &mut state.current.frame)? else {
        return Ok(None);
    };
    let Some(receiver) = pop(&mut state.current.frame) else {
        return Ok(None);
    };
    match receiver {
        Value::Ref(number) => {
            let found = find_virtual(linked.program(), &state.heap, number, member);
            args.push_front(receiver)?;
            pass(alloc, linked, false, false, args, found, state)
        }
        Value::Null => Ok(Some(Passed::Trap(TrapKind::NullReference))),
        _ => Ok(None),
    }
}

/// Calls the method of a class that a constant of the running method's file names, as it is found from the receiver's
/// class. `None` where the table has no row for it; the error is want of memory.
pub fn call_virtual(
    alloc: Global,
    linked: &Linked,
    index: u16,
    state: &mut State,
) -> Result<Option<Passed>, AllocError>
    ensures { (file : Files) → slice_get linked.now state.old.current.file ≡ Some file
        → IfOk result (λ passed. (place : ℕ) → as_turn (at_place place state.old) passed state.new
        ≡ turn.turn linked.now (at_place place state.old) (left_to_do file (CallVirtual index) state.old.current.frame)) }
{
    let at = state.current.file;
    let Some(file) = linked.program().file(at) else {
        return Ok(None);
    };
    let Some(member) = method_name(file, index) else {
        return Ok(None);
    };
    let Some(signature) = linked.signature(at, index) else {
        return Ok(None);
    };
    call_by_receiver(alloc, linked, &member, signature, state)
}

/// Calls the method of an interface that a constant of the running method's file names, whose receiver and arguments take
/// `count` places, as it is found from the receiver's class. `None` where the table has no row for it; the error is want
/// of memory.
pub fn call_interface(
    alloc: Global,
    linked: &Linked,
    index: u16,
    count: u8,
    state: &mut State,
) -> Result<Option<Passed>, AllocError>
    ensures { (file : Files) → slice_get linked.now state.old.current.file ≡ Some file
        → IfOk result (λ passed. (place : ℕ) → as_turn (at_place place state.old) passed state.new
        ≡ turn.turn linked.now (at_place place state.old) (left_to_do file (CallInterface index count) state.old.current.frame)) }
{
    let at = state.current.file;
    let Some(file) = linked.program().file(at) else {
        return Ok(None);
    };
    let Some(member) = interface_method_name(file, index) else {
        return Ok(None);
    };
    let Some(signature) = linked.interface_signature(at, index) else {
        return Ok(None);
    };
    if !take_places(signature.parameters(), count) {
        return Ok(None);
    }
    call_by_receiver(alloc, linked, &member, signature, state)
}

// The built-in constructor of Object: its receiver is taken.
fn init_object(state: &mut State) -> Option<Passed>
    ensures { (files : List Files) (place : ℕ) → as_turn (at_place place state.old) result state.new
        ≡ turn.turn files (at_place place state.old) (table.on_pop state.old.current.frame (λ r g. table.on_receiver r (table.Moves g))) }
{
    match pop(&mut state.current.frame)? {
        Value::Ref(_) => Some(Passed::On),
        Value::Null => Some(Passed::Trap(TrapKind::NullReference)),
        _ => None,
    }
}

fn is_null(value: Value) -> bool
    ensures { result ≡ passing.is_null value }
{
    match value {
        Value::Null => true,
        _ => false,
    }
}

/// Calls the constructor that a constant of the running method's file names, or the method of this name above the class
/// whose code this is. `None` where the table has no row for it; the error is want of memory.
pub fn call_special(
    alloc: Global,
    linked: &Linked,
    index: u16,
    state: &mut State,
) -> Result<Option<Passed>, AllocError>
    ensures { (file : Files) → slice_get linked.now state.old.current.file ≡ Some file
        → IfOk result (λ passed. (place : ℕ) → as_turn (at_place place state.old) passed state.new
        ≡ turn.turn linked.now (at_place place state.old) (left_to_do file (CallSpecial index) state.old.current.frame)) }
{
    let at = state.current.file;
    let Some(file) = linked.program().file(at) else {
        return Ok(None);
    };
    let Some(member) = method_name(file, index) else {
        return Ok(None);
    };
    if names_object_init(&member) {
        return Ok(init_object(state));
    }
    let Some(signature) = linked.signature(at, index) else {
        return Ok(None);
    };
    let Some(mut args) = take_args(alloc, signature.parameters(), &mut state.current.frame)? else {
        return Ok(None);
    };
    let Some(receiver) = pop(&mut state.current.frame) else {
        return Ok(None);
    };
    if !has_kind(Kind::Reference, receiver) {
        return Ok(None);
    }
    let found = linked.special_method(at, index);
    args.push_front(receiver)?;
    pass(alloc, linked, false, is_null(receiver), args, found, state)
}
