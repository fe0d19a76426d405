use super::*;
use class_form::{Attribute, Bytes, ClassFile, Code, Const, MemberInfo, well_formed};
use class_reader::{ClassErr, ClassFault, ClassKind, read_class};
use class_writer::write_class;
use sqlite_items::Items;
use std::alloc::{AllocError, Global};
use std::test::*;

fn text(alloc: Global, text: &[u8]) -> Result<Const, AllocError> {
    Ok(Const::Utf8(Bytes::from_bytes(alloc, text)?))
}

// A constant of each tag.
fn each_constant(alloc: Global) -> Result<Items<Const>, AllocError> {
    let constants = vec![in alloc;
        Const::Unused,
        text(alloc, b"A")?,
        Const::Class(1),
        text(alloc, b"java/lang/Object")?,
        Const::Class(3),
        text(alloc, b"Code")?,
        text(alloc, b"()V")?,
        Const::Integer(-2),
        Const::Float(0x3f80_0000),
        Const::Long(-3),
        Const::Unused,
        Const::Double(0x4000_0000_0000_0000),
        Const::Unused,
        Const::Text(1),
        Const::NameAndType(1, 6),
        Const::Fieldref(2, 14),
        Const::Methodref(2, 14),
        Const::InterfaceMethodref(4, 14),
    ]?;
    Ok(Items::from_vec(constants))
}

fn attribute(alloc: Global, name: u16, content: &[u8]) -> Result<Items<Attribute>, AllocError> {
    let mut attributes = Items::new(alloc);
    attributes.push(Attribute {
        name,
        content: Bytes::from_bytes(alloc, content)?,
    })?;
    Ok(attributes)
}

// A field or a method, whose attributes are these.
fn member(flags: u16, code: Option<Code>, attributes: Items<Attribute>) -> MemberInfo {
    MemberInfo {
        flags,
        name: 1,
        descriptor: 6,
        code,
        attributes,
    }
}

fn code(alloc: Global, attributes: Items<Attribute>) -> Result<Code, AllocError> {
    Ok(Code {
        max_stack: 1,
        max_locals: 258,
        bytes: Bytes::from_bytes(alloc, &[0x12, 7, 0xb1])?,
        attributes,
    })
}

// One with an attribute and one without; the code of the second has an attribute named `Code`.
fn methods(alloc: Global) -> Result<Items<MemberInfo>, AllocError> {
    let kept = attribute(alloc, 5, b"kept")?;
    let plain = code(alloc, Items::new(alloc))?;
    let other = code(alloc, kept)?;
    let methods = vec![in alloc;
        member(0x400, None, Items::new(alloc)),
        member(9, Some(plain), Items::new(alloc)),
        member(1, Some(other), attribute(alloc, 3, b"")?),
    ]?;
    Ok(Items::from_vec(methods))
}

// A class file with each kind of constant and of member.
fn each_kind(alloc: Global) -> Result<ClassFile, AllocError> {
    let fields = vec![in alloc;
        member(2, None, Items::new(alloc)),
        member(0x8008, None, attribute(alloc, 1, &[0, 255])?),
    ]?;
    Ok(ClassFile {
        constants: each_constant(alloc)?,
        flags: 0x21,
        this_class: 2,
        super_class: 4,
        interfaces: Items::from_slice(alloc, &[4, 2])?,
        fields: Items::from_vec(fields),
        methods: methods(alloc)?,
        attributes: attribute(alloc, 5, b"of the class")?,
    })
}

fn written(alloc: Global, file: &ClassFile) -> Option<Vec<u8>> {
    if well_formed(file) {
        write_class(alloc, file).ok()
    } else {
        None
    }
}

fn again(alloc: Global, file: &ClassFile) -> Option<ClassFile> {
    if well_formed(file) {
        written_and_read(alloc, file).ok()
    } else {
        None
    }
}

fn fault_of(alloc: Global, bytes: &[u8]) -> Option<ClassFault> {
    match read_class(alloc, bytes) {
        Err(ClassErr::Fault(fault)) => Some(fault),
        _ => None,
    }
}

#[test]
fn each_kind_is_read_back(rt: HostRuntime) -> Result<(), Fail> {
    let alloc = rt.alloc();
    let file = each_kind(alloc).ok().ok_or("there is memory")?;
    let bytes = written(alloc, &file).ok_or("the file is well formed")?;
    let same = again(alloc, &file).ok_or("it is read back")?;
    let more = written(alloc, &same).ok_or("it is written again")?;
    assert_eq!(rt; bytes.len(), 245);
    assert_eq!(rt; more.as_slice(), bytes.as_slice());
    assert_eq!(rt; same.constants.len(), 18);
    assert_eq!(rt; same.fields.len(), 2);
    assert_eq!(rt; same.methods.len(), 3);
    assert_eq!(rt; same.attributes.len(), 1);
    Ok(())
}

#[test]
fn each_cut_is_truncated(rt: HostRuntime) -> Result<(), Fail> {
    let alloc = rt.alloc();
    let file = each_kind(alloc).ok().ok_or("there is memory")?;
    let bytes = written(alloc, &file).ok_or("the file is well formed")?;
    for len in 0..bytes.len() {
        let found = fault_of(alloc, &bytes[..len]);
        let fault = ClassFault {
            offset: len as u64,
            kind: ClassKind::Truncated,
        };
        assert_eq!(rt; found, Some(fault));
    }
    Ok(())
}
