use super::*;
use class_form::{Bytes, ClassFile, Const, well_formed};
use sqlite_items::Items;
use std::alloc::{AllocError, Global};
use std::test::*;

// The class `A` without members, as another compiler writes it.
const CLASS_A: [u8; 53] = [
    0xca, 0xfe, 0xba, 0xbe, 0, 0, 0, 48, 0, 5, 1, 0, 1, 0x41, 7, 0, 1, 1, 0, 16, 0x6a, 0x61, 0x76,
    0x61, 0x2f, 0x6c, 0x61, 0x6e, 0x67, 0x2f, 0x4f, 0x62, 0x6a, 0x65, 0x63, 0x74, 7, 0, 3, 0, 0x21,
    0, 2, 0, 4, 0, 0, 0, 0, 0, 0, 0, 0,
];

fn class_a(alloc: Global) -> Result<ClassFile, AllocError> {
    let mut constants = Items::new(alloc);
    constants.push(Const::Unused)?;
    constants.push(Const::Utf8(Bytes::from_bytes(alloc, b"A".as_slice())?))?;
    constants.push(Const::Class(1))?;
    constants.push(Const::Utf8(Bytes::from_bytes(alloc, b"java/lang/Object".as_slice())?))?;
    constants.push(Const::Class(3))?;
    Ok(ClassFile {
        constants,
        flags: 0x21,
        this_class: 2,
        super_class: 4,
        interfaces: Items::new(alloc),
        fields: Items::new(alloc),
        methods: Items::new(alloc),
        attributes: Items::new(alloc),
    })
}

fn written(alloc: Global, file: &ClassFile) -> Option<Vec<u8>> {
    if well_formed(file) {
        write_class(alloc, file).ok()
    } else {
        None
    }
}

#[test]
fn class_without_members(rt: HostRuntime) -> Result<(), Fail> {
    let file = class_a(rt.alloc()).ok().ok_or("there is memory")?;
    let bytes = written(rt.alloc(), &file).ok_or("the class is well formed")?;
    assert_eq!(rt; bytes.as_slice(), CLASS_A.as_slice());
    Ok(())
}
