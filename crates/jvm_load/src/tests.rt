ghost use Rattle.std.specs.Prelude.{◌≡◌, [], None, IfOk};
ghost use Rattle.jvm_load.specs.Loadable.{IsLoadableFile};

use super::*;
use class_form::{Bytes, ClassFile, Const, MemberInfo};
use jp_store::Kind;
use sqlite_items::Items;
use std::alloc::{AllocError, Global};
use std::test::*;

#[test]
fn what_a_descriptor_says(rt: HostRuntime) -> Result<(), Fail> {
    let signature = read_signature(rt.alloc(), b"(IJ[[ZLA;)[I".as_slice())
        .ok()
        .ok_or("there is memory")?
        .ok_or("the descriptor is one of a method")?;
    let parameters = [
        Kind::Number,
        Kind::LongNumber,
        Kind::Reference,
        Kind::Reference,
    ];
    assert_eq!(rt; signature.parameters(), parameters.as_slice());
    assert_eq!(rt; signature.result(), Some(Kind::Reference));
    Ok(())
}

#[test]
fn no_descriptors(rt: HostRuntime) -> Result<(), Fail> {
    for text in ["", "I", "(I", "(V)V", "(LA)V", "()VV", "([)V"] {
        let found = read_signature(rt.alloc(), text.as_bytes())
            .ok()
            .ok_or("there is memory")?;
        assert_eq!(rt; found.is_none(), true);
    }
    Ok(())
}

#[test]
fn no_files_are_a_program(rt: HostRuntime) -> Result<(), Fail> {
    let program = load(rt.alloc(), &[]).ok().ok_or("there is memory")?;
    assert_eq!(rt; program.class(b"A".as_slice()), None);
    Ok(())
}

fn push_text(alloc: Global, constants: &mut Items<Const>, text: &[u8]) -> Result<(), AllocError> {
    constants.push(Const::Utf8(Bytes::from_bytes(alloc, text)?))
}

// The names of the classes A and B, of their methods f and g, and the descriptor of both.
fn constants(alloc: Global) -> Result<Items<Const>, AllocError> {
    let mut constants = Items::new(alloc);
    constants.push(Const::Unused)?;
    push_text(alloc, &mut constants, b"A")?;
    constants.push(Const::Class(1))?;
    push_text(alloc, &mut constants, b"B")?;
    constants.push(Const::Class(3))?;
    push_text(alloc, &mut constants, b"f")?;
    push_text(alloc, &mut constants, b"g")?;
    push_text(alloc, &mut constants, b"()V")?;
    Ok(constants)
}

fn method(alloc: Global, name: u16) -> MemberInfo
    ensures { result.code ≡ None }
{
    MemberInfo {
        flags: 0,
        name,
        descriptor: 7,
        code: None,
        attributes: Items::new(alloc),
    }
}

// The class of these indices, with these methods.
fn class(
    alloc: Global,
    this_class: u16,
    super_class: u16,
    methods: Items<MemberInfo>,
) -> Result<ClassFile, AllocError>
    ensures { IfOk result (λ file. (file.fields ≡ []) × (file.methods ≡ methods)) }
{
    Ok(ClassFile {
        constants: constants(alloc)?,
        flags: 0,
        this_class,
        super_class,
        interfaces: Items::new(alloc),
        fields: Items::new(alloc),
        methods,
        attributes: Items::new(alloc),
    })
}

fn class_a(alloc: Global) -> Result<ClassFile, AllocError>
    ensures { IfOk result (λ file. IsLoadableFile file) }
{
    let mut methods = Items::new(alloc);
    methods.push(method(alloc, 5))?;
    methods.push(method(alloc, 6))?;
    class(alloc, 2, 0, methods)
}

fn class_b(alloc: Global) -> Result<ClassFile, AllocError>
    ensures { IfOk result (λ file. IsLoadableFile file) }
{
    let mut methods = Items::new(alloc);
    methods.push(method(alloc, 6))?;
    class(alloc, 4, 2, methods)
}

#[test]
fn tables_of_a_class_below(rt: HostRuntime) -> Result<(), Fail> {
    let alloc = rt.alloc();
    let program = load(alloc, &[class_a(alloc)?, class_b(alloc)?])?;
    let wanted = [
        TableEntry { file: 0, member: 0 },
        TableEntry { file: 1, member: 0 },
    ];
    assert_eq!(rt; program.method_table(1), wanted.as_slice());
    assert_eq!(rt; program.field_table(1).is_empty(), true);
    Ok(())
}
