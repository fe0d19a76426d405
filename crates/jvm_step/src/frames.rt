ghost use Rattle.std.specs.Prelude.{◌≡◌, None, Some, true, MatchOption, nat_le};
ghost use Rattle.std.specs.Bool.{OnTrue, OnFalse};
ghost use Rattle.jvm_table.specs.Act.{popped, answered};

use jp_store::Value;
use jvm_table::Frame;

/// Takes the value on top, or answers `None` where there is none.
pub fn pop(frame: &mut Frame) -> Option<Value>
    ensures { MatchOption result
        (popped frame.old.stack.values frame.old ≡ None)
        (λ v. popped frame.old.stack.values frame.old ≡ Some (v, frame.new)) }
{
    frame.stack.pop()
}

/// Puts a value on top, or answers `None` where there is no room for it.
pub fn hold(frame: &mut Frame, value: Value) -> Option<()>
    ensures { MatchOption result
        (answered true value frame.old ≡ None)
        (λ _. answered true value frame.old ≡ Some frame.new) }
{
    if frame.stack.push(value) {
        Some(())
    } else {
        None
    }
}
