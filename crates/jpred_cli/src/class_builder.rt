ghost use Rattle.std.specs.Prelude.{◌≡◌, ◌≤◌, ◌++◌, length, map, IfOk};
ghost use Rattle.class_form.specs.declared.constant.Const.TheVariants.{Integer};
ghost use Rattle.jpred_cli.specs.Built.{fixed_constants, code_from, main_method, class_of};

use class_form::{Bytes, ClassFile, Code, Const, MemberInfo};
use sqlite_items::Items;
use std::alloc::{AllocError, Global};

const LDC: u8 = 0x12;

const INVOKESTATIC: u8 = 0xb8;

const RETURN: u8 = 0xb1;

/// The class with a `main` that prints the numbers in order.
pub fn class_with_prints(
    alloc: Global,
    main: &[u8],
    numbers: &[i32],
) -> Result<ClassFile, AllocError>
    requires { length numbers.now ≤ 200 }
    ensures { IfOk result (λ file. file ≡ class_of main.now numbers.now) }
{
    let constants = constants_of(alloc, main, numbers)?;
    let mut methods = Items::new(alloc);
    methods.push(main_of(alloc, numbers)?)?;
    Ok(ClassFile {
        constants,
        flags: 0x21,
        this_class: 2,
        super_class: 4,
        interfaces: Items::new(alloc),
        fields: Items::new(alloc),
        methods,
        attributes: Items::new(alloc),
    })
}

fn utf8(alloc: Global, text: &[u8]) -> Result<Const, AllocError>
    ensures { IfOk result (λ constant. constant ≡ Const.Utf8 text.now) }
{
    Ok(Const::Utf8(Bytes::from_bytes(alloc, text)?))
}

fn constants_of(alloc: Global, main: &[u8], numbers: &[i32]) -> Result<Items<Const>, AllocError>
    ensures { IfOk result (λ constants. constants ≡ fixed_constants main.now ++ map Integer numbers.now) }
{
    let mut constants = fixed_constants_of(alloc, main)?;
    for n in numbers {
        constants.push(Const::Integer(*n))?;
    }
    Ok(constants)
}

fn fixed_constants_of(alloc: Global, main: &[u8]) -> Result<Items<Const>, AllocError>
    ensures { IfOk result (λ constants. constants ≡ fixed_constants main.now) }
{
    let constants = vec![in alloc;
        Const::Unused,
        utf8(alloc, main)?,
        Const::Class(1),
        utf8(alloc, b"java/lang/Object")?,
        Const::Class(3),
        utf8(alloc, b"main")?,
        utf8(alloc, b"()V")?,
        utf8(alloc, b"Code")?,
        utf8(alloc, b"Io")?,
        Const::Class(8),
        utf8(alloc, b"print")?,
        utf8(alloc, b"(I)V")?,
        Const::NameAndType(10, 11),
        Const::Methodref(9, 12),
    ]?;
    Ok(Items::from_vec(constants))
}

fn main_of(alloc: Global, numbers: &[i32]) -> Result<MemberInfo, AllocError>
    requires { length numbers.now ≤ 200 }
    ensures { IfOk result (λ method. method ≡ main_method numbers.now) }
{
    let code = Code {
        max_stack: 1,
        max_locals: 0,
        bytes: Bytes::from_vec(code_of(alloc, numbers)?),
        attributes: Items::new(alloc),
    };
    Ok(MemberInfo {
        flags: 9,
        name: 5,
        descriptor: 6,
        code: Some(code),
        attributes: Items::new(alloc),
    })
}

fn code_of(alloc: Global, numbers: &[i32]) -> Result<Vec<u8>, AllocError>
    requires { length numbers.now ≤ 200 }
    ensures { IfOk result (λ code. code.items ≡ code_from 14 numbers.now) }
{
    let mut code = Vec::new(alloc);
    for i in 0..numbers.len() {
        let constant = 14 + i as u8;
        code.extend_from_slice(&[LDC, constant, INVOKESTATIC, 0, 13])?;
    }
    code.push(RETURN)?;
    Ok(code)
}
