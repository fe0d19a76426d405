ghost use Rattle.std.specs.Prelude.{◌≡◌, true, false, Some, None, if◌then◌else◌};
ghost use Rattle.jvm_table.specs.Act as table;
ghost use Rattle.class_form.specs.declared.class_file.ClassFile.{ClassFile};
ghost use Rattle.class_form.specs.declared.member.MemberInfo.{MemberInfo};
ghost use Rattle.jvm_table.specs.declared.instr.Instr.TheVariants.{Load, Store, Increase, LoadElement, StoreElement, MakeNumbers, MakeTruths, ArrayLength, PopTop, Dup, DupBelow, DupTwo, Binary, Negate, Widen, AddLongs, MultiplyLongs, CompareLongs, JumpTo};
ghost use Rattle.jvm_table.specs.declared.instr.Jump.TheVariants.{IfZero, IfInts, IfSame, IfNull};
ghost use Rattle.jp_store.specs.Arith.{is_kind};
ghost use Rattle.jvm_step.specs.Act.{as_act};

use crate::frames::{hold, pop};
use jp_store::{
    BinaryOp, ElementKind, Kind, Outcome, Test, TrapKind, Value, binary, compares, long_orders,
    long_products, long_sums, negated, sames, widened,
};
use jvm_table::{Frame, Jump};

/// What is done to objects, arrays and static fields, named by the indices of constants.
#[derive(Clone, Copy)]
pub enum Effect {
    GetField(Value, u16),
    PutField(Value, u16, Value),
    GetStatic(u16),
    PutStatic(u16, Value),
    MakeObject(u16),
    MakeNumbers(Value),
    MakeTruths(Value),
    MakeReferences(u16, Value),
    GetElement(ElementKind, Value, Value),
    PutElement(ElementKind, Value, Value, Value),
    ArrayLength(Value),
    CheckCast(u16, Value),
    InstanceOf(u16, Value),
}

/// What is left to do after an instruction has done what it does on its own frame.
#[derive(Clone, Copy)]
pub enum Left {
    Next,
    PrintInt(i32),
    PrintText(u16),
    ReadByte,
    Do(Effect),
    CallVirtual(u16),
    CallInterface(u16, u8),
    CallSpecial(u16),
    CallStatic(u16),
    Leave(Option<Value>),
    Trap(TrapKind),
}

// A condition without which there is no row.
pub(crate) fn require(condition: bool) -> Option<()>
    ensures { result ≡ (if condition then Some tt else None) }
{
    if condition { Some(()) } else { None }
}

/// Whether a value is of a kind.
pub fn has_kind(kind: Kind, value: Value) -> bool
    ensures { result ≡ is_kind kind value }
{
    match kind {
        Kind::Number => match value {
            Value::Int(_) => true,
            _ => false,
        },
        Kind::LongNumber => match value {
            Value::Long(_) => true,
            _ => false,
        },
        Kind::Reference => match value {
            Value::Null => true,
            Value::Ref(_) => true,
            _ => false,
        },
    }
}

fn takes_one_place(value: Value) -> bool
    ensures { result ≡ table.is_single value }
{
    match value {
        Value::Long(_) => false,
        _ => true,
    }
}

// Goes on with a value more, if there is room for it.
pub(crate) fn push(frame: &mut Frame, value: Value) -> Option<Left>
    ensures { (file : ClassFile) → as_act file result frame.new ≡ table.pushed value frame.old }
{
    hold(frame, value)?;
    Some(Left::Next)
}

// Goes on with what an operation on values comes to.
fn push_outcome(frame: &mut Frame, outcome: Outcome<Value>) -> Option<Left>
    ensures { (file : ClassFile) → as_act file result frame.new ≡ table.acted outcome (λ v. table.pushed v frame.old) }
{
    match outcome {
        Outcome::Fine(value) => push(frame, value),
        Outcome::Trap(kind) => Some(Left::Trap(kind)),
        Outcome::Wrong => None,
    }
}

pub(crate) fn load(kind: Kind, index: u16, frame: &mut Frame) -> Option<Left>
    ensures { (file : ClassFile) (method : MemberInfo) →
        as_act file result frame.new ≡ table.act file method (Load kind index) frame.old }
{
    let value = frame.locals.get(index as usize)?;
    require(has_kind(kind, value))?;
    push(frame, value)
}

pub(crate) fn store(kind: Kind, index: u16, frame: &mut Frame) -> Option<Left>
    ensures { (file : ClassFile) (method : MemberInfo) →
        as_act file result frame.new ≡ table.act file method (Store kind index) frame.old }
{
    let value = pop(frame)?;
    require(has_kind(kind, value))?;
    store_in(frame, index, value)
}

fn store_in(frame: &mut Frame, index: u16, value: Value) -> Option<Left>
    ensures { (file : ClassFile) → as_act file result frame.new ≡ table.stored index value frame.old }
{
    if frame.locals.set(index as usize, value) {
        Some(Left::Next)
    } else {
        None
    }
}

pub(crate) fn increase(index: u16, by: i32, frame: &mut Frame) -> Option<Left>
    ensures { (file : ClassFile) (method : MemberInfo) →
        as_act file result frame.new ≡ table.act file method (Increase index by) frame.old }
{
    let value = frame.locals.get(index as usize)?;
    match binary(BinaryOp::Add, value, Value::Int(by)) {
        Outcome::Fine(sum) => store_in(frame, index, sum),
        Outcome::Trap(kind) => Some(Left::Trap(kind)),
        Outcome::Wrong => None,
    }
}

pub(crate) fn load_element(kind: ElementKind, frame: &mut Frame) -> Option<Left>
    ensures { (file : ClassFile) (method : MemberInfo) →
        as_act file result frame.new ≡ table.act file method (LoadElement kind) frame.old }
{
    let index = pop(frame)?;
    let array = pop(frame)?;
    Some(Left::Do(Effect::GetElement(kind, array, index)))
}

pub(crate) fn store_element(kind: ElementKind, frame: &mut Frame) -> Option<Left>
    ensures { (file : ClassFile) (method : MemberInfo) →
        as_act file result frame.new ≡ table.act file method (StoreElement kind) frame.old }
{
    let value = pop(frame)?;
    let index = pop(frame)?;
    let array = pop(frame)?;
    Some(Left::Do(Effect::PutElement(kind, array, index, value)))
}

pub(crate) fn make_numbers(frame: &mut Frame) -> Option<Left>
    ensures { (file : ClassFile) (method : MemberInfo) →
        as_act file result frame.new ≡ table.act file method MakeNumbers frame.old }
{
    let value = pop(frame)?;
    Some(Left::Do(Effect::MakeNumbers(value)))
}

pub(crate) fn make_truths(frame: &mut Frame) -> Option<Left>
    ensures { (file : ClassFile) (method : MemberInfo) →
        as_act file result frame.new ≡ table.act file method MakeTruths frame.old }
{
    let value = pop(frame)?;
    Some(Left::Do(Effect::MakeTruths(value)))
}

pub(crate) fn array_length(frame: &mut Frame) -> Option<Left>
    ensures { (file : ClassFile) (method : MemberInfo) →
        as_act file result frame.new ≡ table.act file method ArrayLength frame.old }
{
    let value = pop(frame)?;
    Some(Left::Do(Effect::ArrayLength(value)))
}

pub(crate) fn pop_top(frame: &mut Frame) -> Option<Left>
    ensures { (file : ClassFile) (method : MemberInfo) →
        as_act file result frame.new ≡ table.act file method PopTop frame.old }
{
    let value = pop(frame)?;
    require(takes_one_place(value))?;
    Some(Left::Next)
}

pub(crate) fn dup(frame: &mut Frame) -> Option<Left>
    ensures { (file : ClassFile) (method : MemberInfo) →
        as_act file result frame.new ≡ table.act file method Dup frame.old }
{
    let value = pop(frame)?;
    require(takes_one_place(value))?;
    hold(frame, value)?;
    push(frame, value)
}

pub(crate) fn dup_below(frame: &mut Frame) -> Option<Left>
    ensures { (file : ClassFile) (method : MemberInfo) →
        as_act file result frame.new ≡ table.act file method DupBelow frame.old }
{
    let y = pop(frame)?;
    let x = pop(frame)?;
    require(takes_one_place(x) && takes_one_place(y))?;
    hold(frame, y)?;
    hold(frame, x)?;
    push(frame, y)
}

pub(crate) fn dup_two(frame: &mut Frame) -> Option<Left>
    ensures { (file : ClassFile) (method : MemberInfo) →
        as_act file result frame.new ≡ table.act file method DupTwo frame.old }
{
    let y = pop(frame)?;
    let x = pop(frame)?;
    require(takes_one_place(x) && takes_one_place(y))?;
    hold(frame, x)?;
    hold(frame, y)?;
    hold(frame, x)?;
    push(frame, y)
}

pub(crate) fn apply_binary(op: BinaryOp, frame: &mut Frame) -> Option<Left>
    ensures { (file : ClassFile) (method : MemberInfo) →
        as_act file result frame.new ≡ table.act file method (Binary op) frame.old }
{
    let y = pop(frame)?;
    let x = pop(frame)?;
    push_outcome(frame, binary(op, x, y))
}

pub(crate) fn negate(frame: &mut Frame) -> Option<Left>
    ensures { (file : ClassFile) (method : MemberInfo) →
        as_act file result frame.new ≡ table.act file method Negate frame.old }
{
    let x = pop(frame)?;
    push_outcome(frame, negated(x))
}

pub(crate) fn widen(frame: &mut Frame) -> Option<Left>
    ensures { (file : ClassFile) (method : MemberInfo) →
        as_act file result frame.new ≡ table.act file method Widen frame.old }
{
    let x = pop(frame)?;
    push_outcome(frame, widened(x))
}

pub(crate) fn add_longs(frame: &mut Frame) -> Option<Left>
    ensures { (file : ClassFile) (method : MemberInfo) →
        as_act file result frame.new ≡ table.act file method AddLongs frame.old }
{
    let y = pop(frame)?;
    let x = pop(frame)?;
    push_outcome(frame, long_sums(x, y))
}

pub(crate) fn multiply_longs(frame: &mut Frame) -> Option<Left>
    ensures { (file : ClassFile) (method : MemberInfo) →
        as_act file result frame.new ≡ table.act file method MultiplyLongs frame.old }
{
    let y = pop(frame)?;
    let x = pop(frame)?;
    push_outcome(frame, long_products(x, y))
}

pub(crate) fn compare_longs(frame: &mut Frame) -> Option<Left>
    ensures { (file : ClassFile) (method : MemberInfo) →
        as_act file result frame.new ≡ table.act file method CompareLongs frame.old }
{
    let y = pop(frame)?;
    let x = pop(frame)?;
    push_outcome(frame, long_orders(x, y))
}

// Jumps where a test's answer is the wanted one.
fn land(frame: &mut Frame, wanted: bool, to: u32, answer: Outcome<bool>) -> Option<Left>
    ensures { (file : ClassFile) → as_act file result frame.new ≡ table.acted answer (table.landed wanted to frame.old) }
{
    match answer {
        Outcome::Fine(answer) => {
            if answer == wanted {
                frame.place = to;
            }
            Some(Left::Next)
        }
        Outcome::Trap(kind) => Some(Left::Trap(kind)),
        Outcome::Wrong => None,
    }
}

pub(crate) fn jump(condition: Jump, to: u32, frame: &mut Frame) -> Option<Left>
    ensures { (file : ClassFile) (method : MemberInfo) →
        as_act file result frame.new ≡ table.act file method (JumpTo condition to) frame.old }
{
    match condition {
        Jump::Always => {
            frame.place = to;
            Some(Left::Next)
        }
        Jump::IfZero(test) => jump_if_zero(test, to, frame),
        Jump::IfInts(test) => jump_if_ints(test, to, frame),
        Jump::IfSame(wanted) => jump_if_same(wanted, to, frame),
        Jump::IfNull(wanted) => jump_if_null(wanted, to, frame),
    }
}

fn jump_if_zero(test: Test, to: u32, frame: &mut Frame) -> Option<Left>
    ensures { (file : ClassFile) (method : MemberInfo) →
        as_act file result frame.new ≡ table.act file method (JumpTo (IfZero test) to) frame.old }
{
    let x = pop(frame)?;
    land(frame, true, to, compares(test, x, Value::Int(0)))
}

fn jump_if_ints(test: Test, to: u32, frame: &mut Frame) -> Option<Left>
    ensures { (file : ClassFile) (method : MemberInfo) →
        as_act file result frame.new ≡ table.act file method (JumpTo (IfInts test) to) frame.old }
{
    let y = pop(frame)?;
    let x = pop(frame)?;
    land(frame, true, to, compares(test, x, y))
}

fn jump_if_same(wanted: bool, to: u32, frame: &mut Frame) -> Option<Left>
    ensures { (file : ClassFile) (method : MemberInfo) →
        as_act file result frame.new ≡ table.act file method (JumpTo (IfSame wanted) to) frame.old }
{
    let y = pop(frame)?;
    let x = pop(frame)?;
    land(frame, wanted, to, sames(x, y))
}

fn jump_if_null(wanted: bool, to: u32, frame: &mut Frame) -> Option<Left>
    ensures { (file : ClassFile) (method : MemberInfo) →
        as_act file result frame.new ≡ table.act file method (JumpTo (IfNull wanted) to) frame.old }
{
    let x = pop(frame)?;
    land(frame, wanted, to, sames(x, Value::Null))
}
