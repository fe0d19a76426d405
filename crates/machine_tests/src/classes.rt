// The classes of the tests: `Main`, `Sub` below it, and the interface `Face` that `Sub` implements. All have the same constants.
ghost use Rattle.std.specs.Prelude.{◌^◌, ◌<◌, ◌≤◌, length, IfOk};
ghost use Rattle.jvm_load.specs.Loadable.{HasShortCode, IsLoadableFile};

use crate::opcodes::*;
use class_form::{Bytes, ClassFile, Code, Const, MemberInfo};
use jp_outside::{MemSink, MemSource};
use jp_pred::Name;
use jp_store::TrapKind;
use jvm_load::load;
use jvm_step::End;
use mini_jvm::run;
use sqlite_items::Items;
use std::alloc::{AllocError, Global};

// Indices of constants.
pub(crate) const MAIN_CLASS: u8 = 2;

pub(crate) const SEVEN: u8 = 5;

pub(crate) const LEAST: u8 = 6;

pub(crate) const PRINT: u8 = 12;

pub(crate) const READ: u8 = 16;

pub(crate) const SHOW: u8 = 20;

pub(crate) const TEXT: u8 = 22;

pub(crate) const LONG: u8 = 23;

pub(crate) const STATIC_FIELD: u8 = 28;

pub(crate) const FIELD: u8 = 31;

pub(crate) const OBJECT: u8 = 35;

pub(crate) const OBJECT_INIT: u8 = 36;

pub(crate) const SUB_CLASS: u8 = 38;

pub(crate) const MAIN_ID: u8 = 41;

pub(crate) const SUB_ID: u8 = 42;

pub(crate) const FACE: u8 = 44;

pub(crate) const FACE_ID: u8 = 45;

pub(crate) const TWICE: u8 = 49;

pub(crate) const NO_CLASS: u8 = 51;

pub(crate) const MAIN_INIT: u8 = 52;

pub(crate) const SAME: u8 = 56;

pub(crate) const FLOAT: u8 = 57;

pub(crate) const STATIC_REFERENCE: u8 = 61;

pub(crate) const WIDE: u8 = 65;

pub(crate) const NO_METHOD: u8 = 68;

const ACC_PUBLIC: u16 = 0x0001;

const ACC_STATIC: u16 = 0x0008;

const ACC_INTERFACE: u16 = 0x0200;

const ACC_ABSTRACT: u16 = 0x0400;

fn push_text(alloc: Global, constants: &mut Items<Const>, text: &[u8]) -> Result<(), AllocError> {
    constants.push(Const::Utf8(Bytes::from_bytes(alloc, text)?))
}

// The first 24 constants: Main, the numbers and `Io`.
fn first_constants(alloc: Global) -> Result<Items<Const>, AllocError> {
    let mut constants = Items::new(alloc);
    constants.push(Const::Unused)?;
    push_text(alloc, &mut constants, b"Main")?;
    constants.push(Const::Class(1))?;
    push_text(alloc, &mut constants, b"main")?;
    push_text(alloc, &mut constants, b"()V")?;
    constants.push(Const::Integer(7))?;
    constants.push(Const::Integer(-2147483648))?;
    push_text(alloc, &mut constants, b"Io")?;
    constants.push(Const::Class(7))?;
    push_text(alloc, &mut constants, b"print")?;
    push_text(alloc, &mut constants, b"(I)V")?;
    constants.push(Const::NameAndType(9, 10))?;
    constants.push(Const::Methodref(8, 11))?;
    push_text(alloc, &mut constants, b"read")?;
    push_text(alloc, &mut constants, b"()I")?;
    constants.push(Const::NameAndType(13, 14))?;
    constants.push(Const::Methodref(8, 15))?;
    push_text(alloc, &mut constants, b"text")?;
    push_text(alloc, &mut constants, b"(Ljava/lang/String;)V")?;
    constants.push(Const::NameAndType(17, 18))?;
    constants.push(Const::Methodref(8, 19))?;
    push_text(alloc, &mut constants, b"hi")?;
    constants.push(Const::Text(21))?;
    constants.push(Const::Long(4294967303))?;
    constants.push(Const::Unused)?;
    Ok(constants)
}

// Those from 25 on: fields, `Object` and `Sub`.
fn push_members(alloc: Global, constants: &mut Items<Const>) -> Result<(), AllocError> {
    push_text(alloc, constants, b"s")?;
    push_text(alloc, constants, b"I")?;
    constants.push(Const::NameAndType(25, 26))?;
    constants.push(Const::Fieldref(2, 27))?;
    push_text(alloc, constants, b"f")?;
    constants.push(Const::NameAndType(29, 26))?;
    constants.push(Const::Fieldref(2, 30))?;
    push_text(alloc, constants, b"<init>")?;
    constants.push(Const::NameAndType(32, 4))?;
    push_text(alloc, constants, b"java/lang/Object")?;
    constants.push(Const::Class(34))?;
    constants.push(Const::Methodref(35, 33))?;
    push_text(alloc, constants, b"Sub")?;
    constants.push(Const::Class(37))?;
    push_text(alloc, constants, b"id")?;
    constants.push(Const::NameAndType(39, 14))?;
    constants.push(Const::Methodref(2, 40))?;
    constants.push(Const::Methodref(38, 40))?;
    Ok(())
}

// Those from 43 on: `Face`, and what else is called.
fn push_calls(alloc: Global, constants: &mut Items<Const>) -> Result<(), AllocError> {
    push_text(alloc, constants, b"Face")?;
    constants.push(Const::Class(43))?;
    constants.push(Const::InterfaceMethodref(44, 40))?;
    push_text(alloc, constants, b"twice")?;
    push_text(alloc, constants, b"(I)I")?;
    constants.push(Const::NameAndType(46, 47))?;
    constants.push(Const::Methodref(2, 48))?;
    push_text(alloc, constants, b"Nowhere")?;
    constants.push(Const::Class(50))?;
    constants.push(Const::Methodref(2, 33))?;
    push_text(alloc, constants, b"same")?;
    push_text(alloc, constants, b"(LMain;)LMain;")?;
    constants.push(Const::NameAndType(53, 54))?;
    constants.push(Const::Methodref(2, 55))?;
    constants.push(Const::Float(0))?;
    push_text(alloc, constants, b"r")?;
    push_text(alloc, constants, b"LMain;")?;
    constants.push(Const::NameAndType(58, 59))?;
    constants.push(Const::Fieldref(2, 60))?;
    push_text(alloc, constants, b"wide")?;
    push_text(alloc, constants, b"(JI)I")?;
    constants.push(Const::NameAndType(62, 63))?;
    constants.push(Const::Methodref(2, 64))?;
    push_text(alloc, constants, b"none")?;
    constants.push(Const::NameAndType(66, 4))?;
    constants.push(Const::Methodref(2, 67))?;
    Ok(())
}

fn constants(alloc: Global) -> Result<Items<Const>, AllocError> {
    let mut constants = first_constants(alloc)?;
    push_members(alloc, &mut constants)?;
    push_calls(alloc, &mut constants)?;
    Ok(constants)
}

fn method(
    alloc: Global,
    flags: u16,
    name: u16,
    descriptor: u16,
    code: &[u8],
) -> Result<MemberInfo, AllocError>
    requires { length code.now < 2 ^ 32 }
    ensures { IfOk result (λ method. HasShortCode method) }
{
    Ok(MemberInfo {
        flags,
        name,
        descriptor,
        code: Some(Code {
            max_stack: 4,
            max_locals: 4,
            bytes: Bytes::from_bytes(alloc, code)?,
            attributes: Items::new(alloc),
        }),
        attributes: Items::new(alloc),
    })
}

fn field(alloc: Global, flags: u16, name: u16, descriptor: u16) -> MemberInfo
    ensures { HasShortCode result }
{
    MemberInfo {
        flags,
        name,
        descriptor,
        code: None,
        attributes: Items::new(alloc),
    }
}

// `class Main { static int s; int f; static Main r; .. }`
fn class_main(alloc: Global, code: &[u8]) -> Result<ClassFile, AllocError>
    requires { length code.now < 2 ^ 32 }
    ensures { IfOk result (λ file. IsLoadableFile file) }
{
    let mut fields = Items::new(alloc);
    fields.push(field(alloc, ACC_STATIC, 25, 26))?;
    fields.push(field(alloc, 0, 29, 26))?;
    fields.push(field(alloc, ACC_STATIC, 58, 59))?;
    let mut methods = Items::new(alloc);
    methods.push(method(alloc, ACC_STATIC, 3, 4, code)?)?;
    methods.push(method(
        alloc,
        0,
        32,
        4,
        &[ALOAD_0, INVOKESPECIAL, 0, OBJECT_INIT, RETURN],
    )?)?;
    methods.push(method(alloc, 0, 39, 14, &[ICONST_1, IRETURN])?)?;
    methods.push(method(
        alloc,
        ACC_STATIC,
        46,
        47,
        &[ILOAD_0, ILOAD_0, IADD, IRETURN],
    )?)?;
    methods.push(method(alloc, ACC_STATIC, 53, 54, &[ALOAD_0, ARETURN])?)?;
    methods.push(method(alloc, ACC_STATIC, 62, 63, &[ILOAD_2, IRETURN])?)?;
    Ok(ClassFile {
        constants: constants(alloc)?,
        flags: ACC_PUBLIC,
        this_class: 2,
        super_class: 35,
        interfaces: Items::new(alloc),
        fields,
        methods,
        attributes: Items::new(alloc),
    })
}

// `class Sub extends Main implements Face { int id() { return super.id() + 1; } }`
fn class_sub(alloc: Global) -> Result<ClassFile, AllocError>
    ensures { IfOk result (λ file. IsLoadableFile file) }
{
    let mut interfaces = Items::new(alloc);
    interfaces.push(44u16)?;
    let mut methods = Items::new(alloc);
    methods.push(method(
        alloc,
        0,
        39,
        14,
        &[ALOAD_0, INVOKESPECIAL, 0, MAIN_ID, ICONST_1, IADD, IRETURN],
    )?)?;
    Ok(ClassFile {
        constants: constants(alloc)?,
        flags: ACC_PUBLIC,
        this_class: 38,
        super_class: 2,
        interfaces,
        fields: Items::new(alloc),
        methods,
        attributes: Items::new(alloc),
    })
}

// `interface Face { int id(); }`
fn class_face(alloc: Global) -> Result<ClassFile, AllocError>
    ensures { IfOk result (λ file. IsLoadableFile file) }
{
    let mut methods = Items::new(alloc);
    methods.push(field(alloc, ACC_ABSTRACT, 39, 14))?;
    Ok(ClassFile {
        constants: constants(alloc)?,
        flags: ACC_INTERFACE | ACC_ABSTRACT,
        this_class: 44,
        super_class: 35,
        interfaces: Items::new(alloc),
        fields: Items::new(alloc),
        methods,
        attributes: Items::new(alloc),
    })
}

// The end in a word, without where it is.
fn word(end: &End) -> &'static str {
    match end {
        End::Done => "done",
        End::Trap(TrapKind::NullReference) => "null",
        End::Trap(TrapKind::DivideByZero) => "zero",
        End::Trap(TrapKind::OutOfBounds) => "bounds",
        End::Trap(TrapKind::NegativeSize) => "size",
        End::Trap(TrapKind::BadCast) => "cast",
        End::Cut => "cut",
        End::ReadFault => "read",
        End::WriteFault => "write",
        End::BadCode { .. } => "no row",
    }
}

// Runs the code as `main`: how it ends, and what it writes. The input is the byte `A`.
pub(crate) fn outcome(alloc: Global, code: &[u8]) -> Result<(&'static str, Vec<u8>), AllocError> {
    if code.len() > 100 {
        return Ok(("too long", Vec::new(alloc)));
    }
    let files = [
        class_main(alloc, code)?,
        class_sub(alloc)?,
        class_face(alloc)?,
    ];
    let program = load(alloc, &files)?;
    let main = Name::from_bytes(alloc, b"Main")?;
    let mut source = MemSource::new(Vec::from_slice(alloc, b"A")?, Vec::new(alloc));
    let mut sink = MemSink::new(alloc, 100, Vec::new(alloc))?;
    let end = run(alloc, &program, &main, 1000, &mut source, &mut sink)?;
    Ok((word(&end), Vec::from_slice(alloc, sink.taken())?))
}
