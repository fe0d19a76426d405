ghost use Rattle.std.specs.Prelude.{◌≡◌, ℕ, List, None, Some, IfOk, MatchOption, slice_get};
ghost use Rattle.jvm_table.specs.Constants.{literal_at};
ghost use Rattle.jvm_table.specs.Act.{answered};
ghost use Rattle.jvm_calls.specs.Passing.{at_place};
ghost use Rattle.jvm_calls.specs.Passing as calls;
ghost use Rattle.jvm_step.specs.Act.{done, left_to_do};
ghost use Rattle.jvm_step.specs.declared.state.State.{State as Now};
ghost use Rattle.jvm_step.specs.Turn as turn;
ghost use Rattle.jvm_work.specs.Laws.{pushes};
ghost use Rattle.mini_jvm.specs.Steps.{as_turn, row_turn};

use class_form::ClassFile;
use jp_store::{Outcome, Value};
use jvm_calls::{Passed, call_interface, call_special, call_static, call_virtual, leave};
use jvm_link::Linked;
use jvm_step::{Effect, Halt, Left, State, hold, literal, one_instr};
use jvm_table::Frame;
use jvm_work::carry_out;
use jvm_work::laws::effects_are_turns;
use std::alloc::{AllocError, Global};

// What is left to do after a step.
#[derive(Clone, Copy)]
pub(crate) enum Step<'a> {
    Move,
    PrintInt(i32),
    PrintText(&'a [u8]),
    Read,
    Stop(Halt),
}

// There is no row for the instruction that runs.
pub(crate) fn no_row_at<'a>(state: &State) -> Step<'a>
    ensures { (now : Now) → as_turn result now ≡ turn.no_row state.now }
{
    Step::Stop(Halt::NoRow {
        file: state.current.file,
        method: state.current.method,
        place: state.current.frame.place,
    })
}

// Runs one instruction, with the store, calls and returns. The error is want of memory.
pub(crate) fn one_step<'a>(
    alloc: Global,
    linked: &Linked<'a>,
    state: &mut State,
) -> Result<Step<'a>, AllocError>
    ensures { IfOk result (λ step. as_turn step state.new ≡ turn.turn_of linked.now state.old) }
{
    let no_row = no_row_at(state);
    match row_step(alloc, linked, state)? {
        Some(step) => Ok(step),
        None => Ok(no_row),
    }
}

// The same, if the table has a row for the instruction.
fn row_step<'a>(
    alloc: Global,
    linked: &Linked<'a>,
    state: &mut State,
) -> Result<Option<Step<'a>>, AllocError>
    ensures { IfOk result (λ step. row_turn state.old step state.new ≡ turn.turn_of linked.now state.old) }
{
    let Some(file) = linked.program().file(state.current.file) else {
        return Ok(None);
    };
    let Some(method) = file.methods.get(state.current.method as usize) else {
        return Ok(None);
    };
    let Some(left) = one_instr(file, method, &mut state.current.frame) else {
        return Ok(None);
    };
    finish(alloc, linked, file, left, state)
}

// What is left to do after an instruction has done what it does on its own frame.
fn finish<'a>(
    alloc: Global,
    linked: &Linked<'a>,
    file: &'a ClassFile,
    left: Left,
    state: &mut State,
) -> Result<Option<Step<'a>>, AllocError>
    requires { slice_get linked.now state.old.current.file ≡ Some file.now }
    ensures { IfOk result (λ step. (place : ℕ) → row_turn (at_place place state.old) step state.new
        ≡ turn.turn linked.now (at_place place state.old) (left_to_do file.now left state.old.current.frame)) }
{
    match left {
        Left::Next => Ok(Some(Step::Move)),
        Left::PrintInt(n) => Ok(Some(Step::PrintInt(n))),
        Left::PrintText(index) => Ok(print_text(file, index)),
        Left::ReadByte => Ok(Some(Step::Read)),
        Left::Do(effect) => work(alloc, linked, file, effect, state),
        Left::CallVirtual(index) => Ok(pass(call_virtual(alloc, linked, index, state)?)),
        Left::CallInterface(index, count) => Ok(pass(call_interface(
            alloc, linked, index, count, state,
        )?)),
        Left::CallSpecial(index) => Ok(pass(call_special(alloc, linked, index, state)?)),
        Left::CallStatic(index) => Ok(pass(call_static(alloc, linked, index, state)?)),
        Left::Leave(value) => Ok(pass(leave(value, state))),
        Left::Trap(kind) => Ok(Some(Step::Stop(Halt::Trapped(kind)))),
    }
}

// The bytes of a string literal, to be written.
fn print_text(file: &ClassFile, index: u16) -> Option<Step<'_>>
    ensures { MatchOption result
        (literal_at file.now index ≡ None)
        (λ step. (bytes : List ℕ) × (literal_at file.now index ≡ Some bytes) × ((state : Now) → as_turn step state ≡ turn.Shows bytes state)) }
{
    let bytes = literal(file, index)?;
    Some(Step::PrintText(bytes))
}

// What a call or a return comes to.
fn pass<'a>(passed: Option<Passed>) -> Option<Step<'a>>
    ensures { (before now : Now) → row_turn before result now ≡ calls.as_turn before passed now }
{
    match passed? {
        Passed::On => Some(Step::Move),
        Passed::Done => Some(Step::Stop(Halt::Done)),
        Passed::Trap(kind) => Some(Step::Stop(Halt::Trapped(kind))),
    }
}

// Whether the value that an effect comes to is pushed.
fn has_answer(effect: Effect) -> bool
    ensures { result ≡ pushes effect }
{
    match effect {
        Effect::PutField(_, _, _) => false,
        Effect::PutStatic(_, _) => false,
        Effect::PutElement(_, _, _, _) => false,
        _ => true,
    }
}

// Pushes the value that an effect comes to, where it has an answer.
fn push_answer(effect: Effect, value: Value, frame: &mut Frame) -> Option<()>
    ensures { MatchOption result
        (answered (pushes effect) value frame.old ≡ None)
        (λ _. answered (pushes effect) value frame.old ≡ Some frame.new) }
{
    if has_answer(effect) {
        hold(frame, value)
    } else {
        Some(())
    }
}

// Does what is left to be done on the store, and goes on with what it comes to.
fn work<'a>(
    alloc: Global,
    linked: &Linked<'a>,
    file: &'a ClassFile,
    effect: Effect,
    state: &mut State,
) -> Result<Option<Step<'a>>, AllocError>
    requires { slice_get linked.now state.old.current.file ≡ Some file.now }
    ensures { IfOk result (λ step. (place : ℕ) → row_turn (at_place place state.old) step state.new
        ≡ turn.turn linked.now (at_place place state.old) (done file.now effect state.old.current.frame)) }
{
    effects_are_turns();
    let at = state.current.file;
    match carry_out(
        alloc,
        linked,
        at,
        effect,
        &mut state.heap,
        &mut state.statics,
    )? {
        Outcome::Fine(value) => match push_answer(effect, value, &mut state.current.frame) {
            Some(()) => Ok(Some(Step::Move)),
            None => Ok(None),
        },
        Outcome::Trap(kind) => Ok(Some(Step::Stop(Halt::Trapped(kind)))),
        Outcome::Wrong => Ok(None),
    }
}
