ghost use Rattle.std.specs.Prelude.{◌≡◌, true, false, Some, None, MatchOption, if◌then◌else◌};
ghost use Rattle.jvm_table.specs.Act as table;
ghost use Rattle.class_form.specs.declared.class_file.ClassFile.{ClassFile};
ghost use Rattle.class_form.specs.declared.member.MemberInfo.{MemberInfo};
ghost use Rattle.jvm_table.specs.declared.instr.Instr.TheVariants.{Load, Store, Increase, Binary, JumpTo};
ghost use Rattle.jvm_table.specs.declared.instr.Jump.TheVariants.{IfZero, IfInts, IfSame, IfNull};
ghost use Rattle.jvm_quick.specs.Stretches.{went_act};

use jp_store::{BinaryOp, Kind, Outcome, Test, TrapKind, Value, binary, compares, sames};
use jvm_step::{has_kind, hold, pop};
use jvm_table::{Frame, Instr, Jump};

// What an instruction comes to that stays in its frame.
#[derive(Clone, Copy)]
pub(crate) enum Went {
    On,
    Trap(TrapKind),
}

// A condition without which there is no row.
fn require(condition: bool) -> Option<()>
    ensures { result ≡ (if condition then Some tt else None) }
{
    if condition { Some(()) } else { None }
}

// Goes on with a value more, if there is room for it.
fn push(frame: &mut Frame, value: Value) -> Option<Went>
    ensures { went_act result frame.new ≡ table.pushed value frame.old }
{
    hold(frame, value)?;
    Some(Went::On)
}

// Goes on with what an operation on values comes to.
fn push_outcome(frame: &mut Frame, outcome: Outcome<Value>) -> Option<Went>
    ensures { went_act result frame.new ≡ table.acted outcome (λ v. table.pushed v frame.old) }
{
    match outcome {
        Outcome::Fine(value) => push(frame, value),
        Outcome::Trap(kind) => Some(Went::Trap(kind)),
        Outcome::Wrong => None,
    }
}

fn load(kind: Kind, index: u16, frame: &mut Frame) -> Option<Went>
    ensures { (file : ClassFile) (method : MemberInfo) →
        went_act result frame.new ≡ table.act file method (Load kind index) frame.old }
{
    let value = frame.locals.get(index as usize)?;
    require(has_kind(kind, value))?;
    push(frame, value)
}

fn store(kind: Kind, index: u16, frame: &mut Frame) -> Option<Went>
    ensures { (file : ClassFile) (method : MemberInfo) →
        went_act result frame.new ≡ table.act file method (Store kind index) frame.old }
{
    let value = pop(frame)?;
    require(has_kind(kind, value))?;
    store_in(frame, index, value)
}

fn store_in(frame: &mut Frame, index: u16, value: Value) -> Option<Went>
    ensures { went_act result frame.new ≡ table.stored index value frame.old }
{
    if frame.locals.set(index as usize, value) {
        Some(Went::On)
    } else {
        None
    }
}

fn increase(index: u16, by: i32, frame: &mut Frame) -> Option<Went>
    ensures { (file : ClassFile) (method : MemberInfo) →
        went_act result frame.new ≡ table.act file method (Increase index by) frame.old }
{
    let value = frame.locals.get(index as usize)?;
    match binary(BinaryOp::Add, value, Value::Int(by)) {
        Outcome::Fine(sum) => store_in(frame, index, sum),
        Outcome::Trap(kind) => Some(Went::Trap(kind)),
        Outcome::Wrong => None,
    }
}

fn apply_binary(op: BinaryOp, frame: &mut Frame) -> Option<Went>
    ensures { (file : ClassFile) (method : MemberInfo) →
        went_act result frame.new ≡ table.act file method (Binary op) frame.old }
{
    let y = pop(frame)?;
    let x = pop(frame)?;
    push_outcome(frame, binary(op, x, y))
}

// Jumps where a test's answer is the wanted one.
fn land(frame: &mut Frame, wanted: bool, to: u32, answer: Outcome<bool>) -> Option<Went>
    ensures { went_act result frame.new ≡ table.acted answer (table.landed wanted to frame.old) }
{
    match answer {
        Outcome::Fine(answer) => {
            if answer == wanted {
                frame.place = to;
            }
            Some(Went::On)
        }
        Outcome::Trap(kind) => Some(Went::Trap(kind)),
        Outcome::Wrong => None,
    }
}

fn jump(condition: Jump, to: u32, frame: &mut Frame) -> Option<Went>
    ensures { (file : ClassFile) (method : MemberInfo) →
        went_act result frame.new ≡ table.act file method (JumpTo condition to) frame.old }
{
    match condition {
        Jump::Always => {
            frame.place = to;
            Some(Went::On)
        }
        Jump::IfZero(test) => jump_if_zero(test, to, frame),
        Jump::IfInts(test) => jump_if_ints(test, to, frame),
        Jump::IfSame(wanted) => jump_if_same(wanted, to, frame),
        Jump::IfNull(wanted) => jump_if_null(wanted, to, frame),
    }
}

fn jump_if_zero(test: Test, to: u32, frame: &mut Frame) -> Option<Went>
    ensures { (file : ClassFile) (method : MemberInfo) →
        went_act result frame.new ≡ table.act file method (JumpTo (IfZero test) to) frame.old }
{
    let x = pop(frame)?;
    land(frame, true, to, compares(test, x, Value::Int(0)))
}

fn jump_if_ints(test: Test, to: u32, frame: &mut Frame) -> Option<Went>
    ensures { (file : ClassFile) (method : MemberInfo) →
        went_act result frame.new ≡ table.act file method (JumpTo (IfInts test) to) frame.old }
{
    let y = pop(frame)?;
    let x = pop(frame)?;
    land(frame, true, to, compares(test, x, y))
}

fn jump_if_same(wanted: bool, to: u32, frame: &mut Frame) -> Option<Went>
    ensures { (file : ClassFile) (method : MemberInfo) →
        went_act result frame.new ≡ table.act file method (JumpTo (IfSame wanted) to) frame.old }
{
    let y = pop(frame)?;
    let x = pop(frame)?;
    land(frame, wanted, to, sames(x, y))
}

fn jump_if_null(wanted: bool, to: u32, frame: &mut Frame) -> Option<Went>
    ensures { (file : ClassFile) (method : MemberInfo) →
        went_act result frame.new ≡ table.act file method (JumpTo (IfNull wanted) to) frame.old }
{
    let x = pop(frame)?;
    land(frame, wanted, to, sames(x, Value::Null))
}

// An instruction that stays in its frame, the place already behind it. `None` for others, which leave the frame as it is.
pub(crate) fn quick(instr: Instr, frame: &mut Frame) -> Option<Option<Went>>
    ensures { MatchOption result
        (frame.new ≡ frame.old)
        (λ went. (file : ClassFile) (method : MemberInfo) → went_act went frame.new ≡ table.act file method instr frame.old) }
{
    match instr {
        Instr::PushInt(n) => Some(push(frame, Value::Int(n))),
        Instr::Load(kind, index) => Some(load(kind, index, frame)),
        Instr::Store(kind, index) => Some(store(kind, index, frame)),
        Instr::Increase(index, by) => Some(increase(index, by, frame)),
        Instr::Binary(op) => Some(apply_binary(op, frame)),
        Instr::JumpTo(condition, to) => Some(jump(condition, to, frame)),
        _ => None,
    }
}
