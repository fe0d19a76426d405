ghost use Rattle.std.specs.Prelude.{◌≡◌, ◌<◌, ◌∷◌};
ghost use Rattle.std.specs.Int.{w16, cast_unsigned};
ghost use Rattle.class_form.specs.Layout.{u2};
ghost use Rattle.std.specs.Option.{option_map};
ghost use Rattle.code_asm.specs.Encoding.{bytes_of, int_bytes, long_bytes, local_bytes, with_local, load_bytes, store_bytes, increase_bytes, load_element_opcode, store_element_opcode, binary_opcode, return_bytes, jump_opcode, zero_opcode, ints_opcode, use_opcode};
ghost use Rattle.code_asm.specs.Encoded.{spelled};

use jp_store::{BinaryOp, ElementKind, Kind, Test};
use jvm_table::{ConstantUse, Instr, Jump};

/// An opcode with its operands, a byte each.
#[derive(Clone, Copy)]
pub(crate) enum Encoded {
    Bare(u8),
    WithOne(u8, u8),
    WithTwo(u8, u8, u8),
}

/// An instruction that names nothing, by its shortest opcode, if there is one for it.
pub(crate) fn encode(instr: Instr) -> Option<Encoded>
    ensures { option_map spelled result ≡ bytes_of instr }
{
    match instr {
        Instr::PushNull => Some(Encoded::Bare(0x01)),
        Instr::PushInt(n) => encode_int(n),
        Instr::PushLong(n) => encode_long(n),
        Instr::Load(kind, slot) => encode_load(kind, slot),
        Instr::Store(kind, slot) => encode_store(kind, slot),
        Instr::Increase(slot, by) => encode_increase(slot, by),
        Instr::LoadElement(kind) => Some(Encoded::Bare(load_element_opcode(kind))),
        Instr::StoreElement(kind) => Some(Encoded::Bare(store_element_opcode(kind))),
        Instr::MakeNumbers => Some(Encoded::WithOne(0xbc, 10)),
        Instr::MakeTruths => Some(Encoded::WithOne(0xbc, 4)),
        Instr::ArrayLength => Some(Encoded::Bare(0xbe)),
        Instr::PopTop => Some(Encoded::Bare(0x57)),
        Instr::Dup => Some(Encoded::Bare(0x59)),
        Instr::DupBelow => Some(Encoded::Bare(0x5a)),
        Instr::DupTwo => Some(Encoded::Bare(0x5c)),
        Instr::Binary(op) => Some(Encoded::Bare(binary_opcode(op))),
        Instr::Negate => Some(Encoded::Bare(0x74)),
        Instr::Widen => Some(Encoded::Bare(0x85)),
        Instr::AddLongs => Some(Encoded::Bare(0x61)),
        Instr::MultiplyLongs => Some(Encoded::Bare(0x69)),
        Instr::CompareLongs => Some(Encoded::Bare(0x94)),
        Instr::ReturnValue(kind) => encode_return(kind),
        Instr::ReturnVoid => Some(Encoded::Bare(0xb1)),
        Instr::JumpTo(_, _) | Instr::OnConstant(_, _) | Instr::InvokeInterface(_, _) => None,
    }
}

// A push: of -1 to 5 by an opcode of its own, else in one byte or in two.
fn encode_int(n: i32) -> Option<Encoded>
    ensures { option_map spelled result ≡ int_bytes n }
{
    match n {
        -1..=5 => Some(Encoded::Bare((n + 3) as u8)),
        -128..=127 => Some(Encoded::WithOne(0x10, (n as i8).cast_unsigned())),
        -32768..=32767 => Some(encode_short(n as i16)),
        _ => None,
    }
}

#[tactic(auto, unfolding(class_form::specs::Layout::u2))]
fn encode_short(n: i16) -> Encoded
    ensures { spelled result ≡ 0x11 ∷ u2 (cast_unsigned w16 n) }
{
    let [high, low] = n.cast_unsigned().to_be_bytes();
    Encoded::WithTwo(0x11, high, low)
}

fn encode_long(n: i64) -> Option<Encoded>
    ensures { option_map spelled result ≡ long_bytes n }
{
    match n {
        0 => Some(Encoded::Bare(0x09)),
        1 => Some(Encoded::Bare(0x0a)),
        _ => None,
    }
}

fn encode_load(kind: Kind, slot: u16) -> Option<Encoded>
    ensures { option_map spelled result ≡ load_bytes kind slot }
{
    match kind {
        Kind::Number => encode_local(0x1a, 0x15, slot),
        Kind::LongNumber => None,
        Kind::Reference => encode_local(0x2a, 0x19, slot),
    }
}

// The first four locals have opcodes of their own.
fn encode_local(first: u8, opcode: u8, slot: u16) -> Option<Encoded>
    requires { first < 252 }
    ensures { option_map spelled result ≡ local_bytes first opcode slot }
{
    if slot < 4 {
        Some(Encoded::Bare(first + slot as u8))
    } else {
        with_local(opcode, slot)
    }
}

fn with_local(opcode: u8, slot: u16) -> Option<Encoded>
    ensures { option_map spelled result ≡ with_local opcode slot }
{
    if slot < 256 {
        Some(Encoded::WithOne(opcode, slot as u8))
    } else {
        None
    }
}

fn encode_store(kind: Kind, slot: u16) -> Option<Encoded>
    ensures { option_map spelled result ≡ store_bytes kind slot }
{
    match kind {
        Kind::Number => with_local(0x36, slot),
        Kind::LongNumber => None,
        Kind::Reference => with_local(0x3a, slot),
    }
}

fn encode_increase(slot: u16, by: i32) -> Option<Encoded>
    ensures { option_map spelled result ≡ increase_bytes slot by }
{
    if slot < 256 && -128 <= by && by < 128 {
        Some(Encoded::WithTwo(0x84, slot as u8, (by as i8).cast_unsigned()))
    } else {
        None
    }
}

fn encode_return(kind: Kind) -> Option<Encoded>
    ensures { option_map spelled result ≡ return_bytes kind }
{
    match kind {
        Kind::Number => Some(Encoded::Bare(0xac)),
        Kind::LongNumber => None,
        Kind::Reference => Some(Encoded::Bare(0xb0)),
    }
}

fn load_element_opcode(kind: ElementKind) -> u8
    ensures { result ≡ load_element_opcode kind }
{
    match kind {
        ElementKind::NumberElement => 0x2e,
        ElementKind::ReferenceElement => 0x32,
        ElementKind::TruthElement => 0x33,
    }
}

fn store_element_opcode(kind: ElementKind) -> u8
    ensures { result ≡ store_element_opcode kind }
{
    match kind {
        ElementKind::NumberElement => 0x4f,
        ElementKind::ReferenceElement => 0x53,
        ElementKind::TruthElement => 0x54,
    }
}

fn binary_opcode(op: BinaryOp) -> u8
    ensures { result ≡ binary_opcode op }
{
    match op {
        BinaryOp::Add => 0x60,
        BinaryOp::Subtract => 0x64,
        BinaryOp::Multiply => 0x68,
        BinaryOp::Divide => 0x6c,
        BinaryOp::Remainder => 0x70,
        BinaryOp::ShiftLeft => 0x78,
        BinaryOp::ShiftRight => 0x7a,
        BinaryOp::ShiftRightUnsigned => 0x7c,
        BinaryOp::And => 0x7e,
        BinaryOp::Or => 0x80,
        BinaryOp::Xor => 0x82,
    }
}

/// The opcode of a jump whose distance has two bytes.
pub(crate) fn jump_opcode(jump: Jump) -> u8
    ensures { result ≡ jump_opcode jump }
{
    match jump {
        Jump::Always => 0xa7,
        Jump::IfZero(test) => zero_opcode(test),
        Jump::IfInts(test) => ints_opcode(test),
        Jump::IfSame(true) => 0xa5,
        Jump::IfSame(false) => 0xa6,
        Jump::IfNull(true) => 0xc6,
        Jump::IfNull(false) => 0xc7,
    }
}

fn zero_opcode(test: Test) -> u8
    ensures { result ≡ zero_opcode test }
{
    match test {
        Test::Equal => 0x99,
        Test::NotEqual => 0x9a,
        Test::Less => 0x9b,
        Test::GreaterOrEqual => 0x9c,
        Test::Greater => 0x9d,
        Test::LessOrEqual => 0x9e,
    }
}

fn ints_opcode(test: Test) -> u8
    ensures { result ≡ ints_opcode test }
{
    match test {
        Test::Equal => 0x9f,
        Test::NotEqual => 0xa0,
        Test::Less => 0xa1,
        Test::GreaterOrEqual => 0xa2,
        Test::Greater => 0xa3,
        Test::LessOrEqual => 0xa4,
    }
}

/// The opcode of a use of a constant whose index has two bytes.
pub(crate) fn use_opcode(constant_use: ConstantUse) -> u8
    ensures { result ≡ use_opcode constant_use }
{
    match constant_use {
        ConstantUse::PushConstant => 0x13,
        ConstantUse::PushLongConstant => 0x14,
        ConstantUse::GetStatic => 0xb2,
        ConstantUse::PutStatic => 0xb3,
        ConstantUse::GetField => 0xb4,
        ConstantUse::PutField => 0xb5,
        ConstantUse::InvokeVirtual => 0xb6,
        ConstantUse::InvokeSpecial => 0xb7,
        ConstantUse::InvokeStatic => 0xb8,
        ConstantUse::MakeObject => 0xbb,
        ConstantUse::MakeReferences => 0xbd,
        ConstantUse::CheckCast => 0xc0,
        ConstantUse::InstanceOf => 0xc1,
    }
}
