use class_form::Bytes;
use jvm_table::{ConstantUse, Instr, Jump};

/// A field or a method, by its class, its name and its descriptor.
#[derive(Drop)]
pub struct MemberName {
    pub class: Bytes,
    pub name: Bytes,
    pub descriptor: Bytes,
}

/// What an instruction names by a constant.
#[derive(Drop)]
pub enum Named {
    Int(i32),
    /// A string literal.
    Text(Bytes),
    Class(Bytes),
    Field(MemberName),
    Method(MemberName),
}

/// A line of code. Labels are numbers.
#[derive(Drop)]
pub enum Line {
    /// An instruction that names nothing.
    Plain(Instr),
    Uses(ConstantUse, Named),
    /// A call of an interface's method, with how many places the arguments take.
    CallsInterface(MemberName, usize),
    Branch(Jump, usize),
    Mark(usize),
}
