ghost use Rattle.std.specs.Prelude.{◌≡◌, ℕ};
ghost use Rattle.jvm_step.specs.Turn as turn;
ghost use Rattle.jvm_calls.specs.Passing.{as_turn, at_place};

use crate::Passed;
use jp_store::Value;
use jvm_step::{State, hold};

/// Leaves the method that runs, with its result if it has one: the caller goes on with it, or `main` is done. `None`
/// where the caller's stack has no room for the result.
pub fn leave(value: Option<Value>, state: &mut State) -> Option<Passed>
    ensures { (place : ℕ) → as_turn (at_place place state.old) result state.new
        ≡ turn.left (at_place place state.old) value state.old.callers }
{
    let Some(caller) = state.callers.pop() else {
        return Some(Passed::Done);
    };
    state.current = caller;
    if let Some(value) = value {
        hold(&mut state.current.frame, value)?;
    }
    Some(Passed::On)
}
