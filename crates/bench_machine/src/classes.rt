// The classes: `Main` with the loop, `Counter`, `Step` below it, and others below `Counter` with the same methods.
ghost use Rattle.std.specs.Prelude.{◌^◌, ◌<◌, length, IfOk};
ghost use Rattle.jvm_load.specs.Loadable.{HasShortCode, IsLoadableFile};

use crate::loops::{Loop, main_code};
use crate::opcodes::*;
use class_form::{Bytes, ClassFile, Code, Const, MemberInfo};
use itoa::Buffer;
use sqlite_items::Items;
use std::alloc::{AllocError, Global};

// Indices of constants.
const MAIN_CLASS: u16 = 2;

const OBJECT: u16 = 4;

const MAIN: u16 = 5;

const NO_ARGUMENTS: u16 = 6;

pub(crate) const PRINT: u8 = 13;

pub(crate) const TURNS: u8 = 14;

const ADD_NAME: u16 = 15;

const TWO_INTS: u16 = 16;

pub(crate) const ADD: u8 = 18;

pub(crate) const COUNTER_CLASS: u8 = 20;

pub(crate) const STEP_CLASS: u8 = 22;

const NEXT_NAME: u16 = 23;

const ONE_INT: u16 = 24;

pub(crate) const NEXT: u8 = 26;

const COUNT_NAME: u16 = 27;

const INT: u16 = 28;

pub(crate) const COUNT: u8 = 30;

const INIT_NAME: u16 = 31;

const OBJECT_INIT: u8 = 33;

const COUNTER_INIT: u8 = 34;

pub(crate) const STEP_INIT: u8 = 35;

const OTHER_CLASS: u16 = 37;

const ACC_PUBLIC: u16 = 0x0001;

const ACC_STATIC: u16 = 0x0008;

const ACC_SUPER: u16 = 0x0020;

fn push_text(alloc: Global, constants: &mut Items<Const>, text: &[u8]) -> Result<(), AllocError> {
    constants.push(Const::Utf8(Bytes::from_bytes(alloc, text)?))
}

// The first 19 constants: `Main`, `Io` and the number of turns.
fn first_constants(alloc: Global, turns: i32) -> Result<Items<Const>, AllocError> {
    let mut constants = Items::new(alloc);
    constants.push(Const::Unused)?;
    push_text(alloc, &mut constants, b"Main")?;
    constants.push(Const::Class(1))?;
    push_text(alloc, &mut constants, b"java/lang/Object")?;
    constants.push(Const::Class(3))?;
    push_text(alloc, &mut constants, b"main")?;
    push_text(alloc, &mut constants, b"()V")?;
    push_text(alloc, &mut constants, b"Code")?;
    push_text(alloc, &mut constants, b"Io")?;
    constants.push(Const::Class(8))?;
    push_text(alloc, &mut constants, b"print")?;
    push_text(alloc, &mut constants, b"(I)V")?;
    constants.push(Const::NameAndType(10, 11))?;
    constants.push(Const::Methodref(9, 12))?;
    constants.push(Const::Integer(turns))?;
    push_text(alloc, &mut constants, b"add")?;
    push_text(alloc, &mut constants, b"(II)I")?;
    constants.push(Const::NameAndType(15, 16))?;
    constants.push(Const::Methodref(2, 17))?;
    Ok(constants)
}

// Those from 19 on: `Counter`, `Step`, and the class of this name.
fn constants(alloc: Global, turns: i32, name: &[u8]) -> Result<Items<Const>, AllocError> {
    let mut constants = first_constants(alloc, turns)?;
    push_text(alloc, &mut constants, b"Counter")?;
    constants.push(Const::Class(19))?;
    push_text(alloc, &mut constants, b"Step")?;
    constants.push(Const::Class(21))?;
    push_text(alloc, &mut constants, b"next")?;
    push_text(alloc, &mut constants, b"(I)I")?;
    constants.push(Const::NameAndType(23, 24))?;
    constants.push(Const::Methodref(20, 25))?;
    push_text(alloc, &mut constants, b"count")?;
    push_text(alloc, &mut constants, b"I")?;
    constants.push(Const::NameAndType(27, 28))?;
    constants.push(Const::Fieldref(20, 29))?;
    push_text(alloc, &mut constants, b"<init>")?;
    constants.push(Const::NameAndType(31, 6))?;
    constants.push(Const::Methodref(4, 32))?;
    constants.push(Const::Methodref(20, 32))?;
    constants.push(Const::Methodref(22, 32))?;
    push_text(alloc, &mut constants, name)?;
    constants.push(Const::Class(36))?;
    Ok(constants)
}

fn method(
    alloc: Global,
    flags: u16,
    name: u16,
    descriptor: u16,
    code: &[u8],
) -> Result<MemberInfo, AllocError>
    requires { length code.now < 2 ^ 32 }
    ensures { IfOk result (λ method. HasShortCode method) }
{
    Ok(MemberInfo {
        flags: flags | ACC_PUBLIC,
        name,
        descriptor,
        code: Some(Code {
            max_stack: 4,
            max_locals: 4,
            bytes: Bytes::from_bytes(alloc, code)?,
            attributes: Items::new(alloc),
        }),
        attributes: Items::new(alloc),
    })
}

/// `class Main { static void main() { .. } static int add(int a, int b) { return a + b; } }`
pub(crate) fn class_main(alloc: Global, wanted: Loop, turns: i32) -> Result<ClassFile, AllocError>
    ensures { IfOk result (λ file. IsLoadableFile file) }
{
    let code = main_code(alloc, wanted)?;
    let (code, _) = code.as_slice().split_at(code.len().min(200));
    let mut methods = Items::new(alloc);
    methods.push(method(alloc, ACC_STATIC, MAIN, NO_ARGUMENTS, code)?)?;
    methods.push(method(
        alloc,
        ACC_STATIC,
        ADD_NAME,
        TWO_INTS,
        &[ILOAD_0, ILOAD_1, IADD, IRETURN],
    )?)?;
    Ok(ClassFile {
        constants: constants(alloc, turns, b"Main")?,
        flags: ACC_PUBLIC | ACC_SUPER,
        this_class: MAIN_CLASS,
        super_class: OBJECT,
        interfaces: Items::new(alloc),
        fields: Items::new(alloc),
        methods,
        attributes: Items::new(alloc),
    })
}

/// `class Counter { int count; int next(int n) { return n + 1; } }`
pub(crate) fn class_counter(alloc: Global) -> Result<ClassFile, AllocError>
    ensures { IfOk result (λ file. IsLoadableFile file) }
{
    let mut fields = Items::new(alloc);
    fields.push(MemberInfo {
        flags: ACC_PUBLIC,
        name: COUNT_NAME,
        descriptor: INT,
        code: None,
        attributes: Items::new(alloc),
    })?;
    let mut methods = Items::new(alloc);
    methods.push(method(
        alloc,
        0,
        INIT_NAME,
        NO_ARGUMENTS,
        &[ALOAD_0, INVOKESPECIAL, 0, OBJECT_INIT, RETURN],
    )?)?;
    methods.push(next_method(alloc)?)?;
    Ok(ClassFile {
        constants: constants(alloc, 0, b"Counter")?,
        flags: ACC_PUBLIC | ACC_SUPER,
        this_class: u16::from(COUNTER_CLASS),
        super_class: OBJECT,
        interfaces: Items::new(alloc),
        fields,
        methods,
        attributes: Items::new(alloc),
    })
}

// `int next(int n) { return n + 1; }`
fn next_method(alloc: Global) -> Result<MemberInfo, AllocError>
    ensures { IfOk result (λ method. HasShortCode method) }
{
    method(
        alloc,
        0,
        NEXT_NAME,
        ONE_INT,
        &[ILOAD_1, ICONST_1, IADD, IRETURN],
    )
}

// A class below `Counter`, with a constructor and `next`.
fn class_below(alloc: Global, name: &[u8], this_class: u16) -> Result<ClassFile, AllocError>
    ensures { IfOk result (λ file. IsLoadableFile file) }
{
    let mut methods = Items::new(alloc);
    methods.push(method(
        alloc,
        0,
        INIT_NAME,
        NO_ARGUMENTS,
        &[ALOAD_0, INVOKESPECIAL, 0, COUNTER_INIT, RETURN],
    )?)?;
    methods.push(next_method(alloc)?)?;
    Ok(ClassFile {
        constants: constants(alloc, 0, name)?,
        flags: ACC_PUBLIC | ACC_SUPER,
        this_class,
        super_class: u16::from(COUNTER_CLASS),
        interfaces: Items::new(alloc),
        fields: Items::new(alloc),
        methods,
        attributes: Items::new(alloc),
    })
}

/// `class Step extends Counter { int next(int n) { return n + 1; } }`
pub(crate) fn class_step(alloc: Global) -> Result<ClassFile, AllocError>
    ensures { IfOk result (λ file. IsLoadableFile file) }
{
    class_below(alloc, b"Step", u16::from(STEP_CLASS))
}

/// The same under another name, for each number.
pub(crate) fn class_other(alloc: Global, number: u16) -> Result<ClassFile, AllocError>
    ensures { IfOk result (λ file. IsLoadableFile file) }
{
    let mut name = Vec::from_slice(alloc, b"Other")?;
    let mut digits = Buffer::new();
    name.extend_from_slice(digits.format(number).as_bytes())?;
    class_below(alloc, name.as_slice(), OTHER_CLASS)
}
