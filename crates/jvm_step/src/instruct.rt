ghost use Rattle.std.specs.Prelude.{◌≡◌, ℕ, slice_get, option_and_then};
ghost use Rattle.jp_store.specs.Arith.{is_kind};
ghost use Rattle.jvm_load.specs.Loadable.{HasShortCode};
ghost use Rattle.jvm_table.specs.Decode.{row_at};
ghost use Rattle.jvm_table.specs.Act as table;
ghost use Rattle.jvm_table.specs.Act.{result_kind};
ghost use Rattle.jvm_table.specs.declared.instr.Instr.TheVariants.{ReturnValue, ReturnVoid};
ghost use Rattle.class_form.specs.declared.class_file.ClassFile.{ClassFile};
ghost use Rattle.jvm_table.specs.declared.instr.ConstantUse.TheVariants.{PushConstant, PushLongConstant, PutStatic, GetField, PutField, InvokeStatic, InvokeSpecial, MakeReferences, CheckCast, InstanceOf};
ghost use Rattle.jvm_step.specs.Act.{as_act};

use crate::act::{
    add_longs, apply_binary, array_length, compare_longs, dup, dup_below, dup_two, has_kind,
    increase, jump, load, load_element, make_numbers, make_truths, multiply_longs, negate, pop_top,
    push, require, store, store_element, widen,
};
use crate::constants::{method_name, names_object_init, names_print, names_read, names_text};
use crate::frames::pop;
use crate::{Effect, Left};
use class_form::{ClassFile, Const, MemberInfo, class_name, utf8};
use jp_store::{Kind, TrapKind, Value};
use jvm_load::result_of;
use jvm_table::{ConstantUse, Frame, Instr, Row, fetch_row};

fn same_kind(a: Kind, b: Kind) -> bool
    ensures { result ≡ table.is_same_kind a b }
{
    match a {
        Kind::Number => match b {
            Kind::Number => true,
            _ => false,
        },
        Kind::LongNumber => match b {
            Kind::LongNumber => true,
            _ => false,
        },
        Kind::Reference => match b {
            Kind::Reference => true,
            _ => false,
        },
    }
}

// What a method's own descriptor says of its result.
fn wanted_result(file: &ClassFile, method: &MemberInfo) -> Option<Option<Kind>>
    ensures { result ≡ result_kind file.now method.now }
{
    result_of(utf8(file, method.descriptor)?)
}

fn leave_with(wanted: Option<Option<Kind>>, kind: Kind, frame: &mut Frame) -> Option<Left>
    ensures { (file : ClassFile) → as_act file result frame.new ≡ table.on_pop frame.old (λ v g. table.leaves_with wanted kind v) }
{
    let value = pop(frame)?;
    match wanted {
        Some(Some(wanted)) => {
            require(same_kind(kind, wanted) && has_kind(kind, value))?;
            Some(Left::Leave(Some(value)))
        }
        _ => None,
    }
}

fn leave_void(wanted: Option<Option<Kind>>, frame: &mut Frame) -> Option<Left>
    ensures { (file : ClassFile) → as_act file result frame.new ≡ table.leaves_void wanted }
{
    match wanted {
        Some(None) => Some(Left::Leave(None)),
        _ => None,
    }
}

// The value of a constant that `ldc` names.
fn constant_value(file: &ClassFile, index: u16, constant: &Const) -> Option<Value>
    ensures { result ≡ table.constant_value file.now index constant.now }
{
    match constant {
        Const::Integer(n) => Some(Value::Int(*n)),
        Const::Text(text) => {
            utf8(file, *text)?;
            Some(Value::Text(index))
        }
        _ => None,
    }
}

fn push_constant(file: &ClassFile, index: u16, frame: &mut Frame) -> Option<Left>
    ensures { as_act file.now result frame.new ≡ table.on_constant file.now PushConstant index frame.old }
{
    let value = constant_value(file, index, file.constants.get(index as usize)?)?;
    push(frame, value)
}

// The value of a constant that `ldc2_w` names.
fn long_value(constant: &Const) -> Option<Value>
    ensures { result ≡ table.long_value constant.now }
{
    match constant {
        Const::Long(n) => Some(Value::Long(*n)),
        _ => None,
    }
}

fn push_long_constant(file: &ClassFile, index: u16, frame: &mut Frame) -> Option<Left>
    ensures { as_act file.now result frame.new ≡ table.on_constant file.now PushLongConstant index frame.old }
{
    let value = long_value(file.constants.get(index as usize)?)?;
    push(frame, value)
}

fn print_int(frame: &mut Frame) -> Option<Left>
    ensures { (file : ClassFile) → as_act file result frame.new ≡ table.on_pop frame.old table.shows_int }
{
    match pop(frame)? {
        Value::Int(n) => Some(Left::PrintInt(n)),
        _ => None,
    }
}

fn print_text(frame: &mut Frame) -> Option<Left>
    ensures { (file : ClassFile) → as_act file result frame.new ≡ table.on_pop frame.old (table.shows_text file) }
{
    match pop(frame)? {
        Value::Text(index) => Some(Left::PrintText(index)),
        _ => None,
    }
}

fn call_static(file: &ClassFile, index: u16, frame: &mut Frame) -> Option<Left>
    ensures { as_act file.now result frame.new ≡ table.on_constant file.now InvokeStatic index frame.old }
{
    let member = method_name(file, index)?;
    if names_print(&member) {
        print_int(frame)
    } else if names_text(&member) {
        print_text(frame)
    } else if names_read(&member) {
        require(frame.stack.has_room(Value::Int(0)))?;
        Some(Left::ReadByte)
    } else {
        Some(Left::CallStatic(index))
    }
}

fn init_object(frame: &mut Frame) -> Option<Left>
    ensures { (file : ClassFile) → as_act file result frame.new ≡ table.on_pop frame.old (λ r g. table.on_receiver r (table.Moves g)) }
{
    match pop(frame)? {
        Value::Ref(_) => Some(Left::Next),
        Value::Null => Some(Left::Trap(TrapKind::NullReference)),
        _ => None,
    }
}

fn call_special(file: &ClassFile, index: u16, frame: &mut Frame) -> Option<Left>
    ensures { as_act file.now result frame.new ≡ table.on_constant file.now InvokeSpecial index frame.old }
{
    let member = method_name(file, index)?;
    if names_object_init(&member) {
        init_object(frame)
    } else {
        Some(Left::CallSpecial(index))
    }
}

fn put_static(index: u16, frame: &mut Frame) -> Option<Left>
    ensures { (file : ClassFile) → as_act file result frame.new ≡ table.on_constant file PutStatic index frame.old }
{
    let value = pop(frame)?;
    Some(Left::Do(Effect::PutStatic(index, value)))
}

fn get_field(index: u16, frame: &mut Frame) -> Option<Left>
    ensures { (file : ClassFile) → as_act file result frame.new ≡ table.on_constant file GetField index frame.old }
{
    let object = pop(frame)?;
    Some(Left::Do(Effect::GetField(object, index)))
}

fn put_field(index: u16, frame: &mut Frame) -> Option<Left>
    ensures { (file : ClassFile) → as_act file result frame.new ≡ table.on_constant file PutField index frame.old }
{
    let value = pop(frame)?;
    let object = pop(frame)?;
    Some(Left::Do(Effect::PutField(object, index, value)))
}

fn make_references(index: u16, frame: &mut Frame) -> Option<Left>
    ensures { (file : ClassFile) → as_act file result frame.new ≡ table.on_constant file MakeReferences index frame.old }
{
    let count = pop(frame)?;
    Some(Left::Do(Effect::MakeReferences(index, count)))
}

fn check_cast(index: u16, frame: &mut Frame) -> Option<Left>
    ensures { (file : ClassFile) → as_act file result frame.new ≡ table.on_constant file CheckCast index frame.old }
{
    let value = pop(frame)?;
    Some(Left::Do(Effect::CheckCast(index, value)))
}

fn test_instance(index: u16, frame: &mut Frame) -> Option<Left>
    ensures { (file : ClassFile) → as_act file result frame.new ≡ table.on_constant file InstanceOf index frame.old }
{
    let value = pop(frame)?;
    Some(Left::Do(Effect::InstanceOf(index, value)))
}

// An instruction with the constant at an index.
fn on_constant(
    file: &ClassFile,
    constant_use: ConstantUse,
    index: u16,
    frame: &mut Frame,
) -> Option<Left>
    ensures { as_act file.now result frame.new ≡ table.on_constant file.now constant_use index frame.old }
{
    match constant_use {
        ConstantUse::PushConstant => push_constant(file, index, frame),
        ConstantUse::PushLongConstant => push_long_constant(file, index, frame),
        ConstantUse::GetStatic => Some(Left::Do(Effect::GetStatic(index))),
        ConstantUse::PutStatic => put_static(index, frame),
        ConstantUse::GetField => get_field(index, frame),
        ConstantUse::PutField => put_field(index, frame),
        ConstantUse::InvokeVirtual => Some(Left::CallVirtual(index)),
        ConstantUse::InvokeSpecial => call_special(file, index, frame),
        ConstantUse::InvokeStatic => call_static(file, index, frame),
        ConstantUse::MakeObject => Some(Left::Do(Effect::MakeObject(index))),
        ConstantUse::MakeReferences => make_references(index, frame),
        ConstantUse::CheckCast => check_cast(index, frame),
        ConstantUse::InstanceOf => test_instance(index, frame),
    }
}

// One instruction of a method of a file, the place already behind it.
fn carry_out(file: &ClassFile, method: &MemberInfo, instr: Instr, frame: &mut Frame) -> Option<Left>
    ensures { as_act file.now result frame.new ≡ table.act file.now method.now instr frame.old }
{
    match instr {
        Instr::PushNull => push(frame, Value::Null),
        Instr::PushInt(n) => push(frame, Value::Int(n)),
        Instr::PushLong(n) => push(frame, Value::Long(n)),
        Instr::Load(kind, index) => load(kind, index, frame),
        Instr::Store(kind, index) => store(kind, index, frame),
        Instr::Increase(index, by) => increase(index, by, frame),
        Instr::LoadElement(kind) => load_element(kind, frame),
        Instr::StoreElement(kind) => store_element(kind, frame),
        Instr::MakeNumbers => make_numbers(frame),
        Instr::MakeTruths => make_truths(frame),
        Instr::ArrayLength => array_length(frame),
        Instr::PopTop => pop_top(frame),
        Instr::Dup => dup(frame),
        Instr::DupBelow => dup_below(frame),
        Instr::DupTwo => dup_two(frame),
        Instr::Binary(op) => apply_binary(op, frame),
        Instr::Negate => negate(frame),
        Instr::Widen => widen(frame),
        Instr::AddLongs => add_longs(frame),
        Instr::MultiplyLongs => multiply_longs(frame),
        Instr::CompareLongs => compare_longs(frame),
        Instr::JumpTo(condition, to) => jump(condition, to, frame),
        Instr::ReturnValue(kind) => leave_with(wanted_result(file, method), kind, frame),
        Instr::ReturnVoid => leave_void(wanted_result(file, method), frame),
        Instr::OnConstant(constant_use, index) => on_constant(file, constant_use, index, frame),
        Instr::InvokeInterface(index, count) => Some(Left::CallInterface(index, count)),
    }
}

/// Runs the instruction at the frame's place in a method of a file as far as the frame goes, and answers what is left
/// to do; `None` where the table has no row for it.
pub fn one_instr(file: &ClassFile, method: &MemberInfo, frame: &mut Frame) -> Option<Left>
    requires { HasShortCode method.now }
    ensures { as_act file.now result frame.new ≡ table.acts file.now method.now frame.old }
{
    let row = fetch(method, frame)?;
    frame.place = row.next;
    carry_out(file, method, row.instr, frame)
}

fn fetch(method: &MemberInfo, frame: &Frame) -> Option<Row>
    requires { HasShortCode method.now }
    ensures { result ≡ option_and_then (λ code. row_at code.bytes frame.now.place) method.now.code }
{
    let code = method.code.as_ref()?;
    fetch_row(code.bytes.bytes(), frame.place)
}
