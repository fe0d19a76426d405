use super::*;
use std::alloc::{AllocError, Global};
use std::test::*;

// The class `A` without members, as another compiler writes it.
const CLASS_A: [u8; 53] = [
    0xca, 0xfe, 0xba, 0xbe, 0, 0, 0, 48, 0, 5, 1, 0, 1, 0x41, 7, 0, 1, 1, 0, 16, 0x6a, 0x61, 0x76,
    0x61, 0x2f, 0x6c, 0x61, 0x6e, 0x67, 0x2f, 0x4f, 0x62, 0x6a, 0x65, 0x63, 0x74, 7, 0, 3, 0, 0x21,
    0, 2, 0, 4, 0, 0, 0, 0, 0, 0, 0, 0,
];

// Constants `A`, the class of that name, `Code`; flags 0, this class 2, no super class, no interfaces or fields.
const FRONT: [u8; 38] = [
    0xca, 0xfe, 0xba, 0xbe, 0, 0, 0, 48, 0, 4, 1, 0, 1, 0x41, 7, 0, 1, 1, 0, 4, 0x43, 0x6f, 0x64,
    0x65, 0, 0, 0, 2, 0, 0, 0, 0, 0, 0, 0, 1, 0, 9,
];

fn fault_of(alloc: Global, bytes: &[u8]) -> Option<ClassFault> {
    match read_class(alloc, bytes) {
        Err(ClassErr::Fault(fault)) => Some(fault),
        _ => None,
    }
}

// The fault of the class `A` with one byte changed.
fn changed(alloc: Global, at: usize, byte: u8) -> Option<ClassFault> {
    let mut bytes = CLASS_A;
    if let Some(place) = bytes.get_mut(at) {
        *place = byte;
    }
    fault_of(alloc, &bytes)
}

// The fault of a class with one method, whose name, descriptor and attributes these bytes are, cut to a length.
fn with_method(alloc: Global, method: &[u8], len: usize) -> Result<Option<ClassFault>, AllocError> {
    let mut bytes = Vec::from_slice(alloc, &FRONT)?;
    bytes.extend_from_slice(method)?;
    bytes.truncate(len);
    Ok(fault_of(alloc, bytes.as_slice()))
}

const fn at(offset: u64, kind: ClassKind) -> Option<ClassFault> {
    Some(ClassFault { offset, kind })
}

#[test]
fn class_without_members(rt: HostRuntime) -> Result<(), Fail> {
    let file = read_class(rt.alloc(), &CLASS_A)
        .ok()
        .ok_or("the bytes are a class")?;
    assert_eq!(rt; file.constants.len(), 5);
    assert_eq!(rt; file.this_class, 2);
    assert_eq!(rt; file.super_class, 4);
    assert_eq!(rt; fault_of(rt.alloc(), &CLASS_A), None);
    Ok(())
}

#[test]
fn each_cut_is_truncated(rt: HostRuntime) {
    for len in 0..CLASS_A.len() {
        let found = fault_of(rt.alloc(), &CLASS_A[..len]);
        assert_eq!(rt; found, at(len as u64, ClassKind::Truncated));
    }
}

#[test]
fn damaged_heads_and_pools(rt: HostRuntime) {
    let cases = [
        (3, 0xbf, at(0, ClassKind::Magic)),
        (5, 1, at(4, ClassKind::Version)),
        (7, 49, at(4, ClassKind::Version)),
        (9, 0, at(12, ClassKind::Index)),
        (10, 2, at(10, ClassKind::Tag)),
        (13, 0, at(13, ClassKind::Utf8)),
        (13, 0xf0, at(13, ClassKind::Utf8)),
        (16, 2, at(15, ClassKind::Index)),
        (36, 5, at(36, ClassKind::Tag)),
        (42, 0, at(41, ClassKind::Index)),
        (44, 0, None),
        (44, 3, at(43, ClassKind::Index)),
        (52, 1, at(53, ClassKind::Truncated)),
    ];
    for (place, byte, fault) in cases {
        let found = changed(rt.alloc(), place, byte);
        assert_eq!(rt; found, fault);
    }
}

// The fault of the class `A`, cut behind two bytes that claim 65,535 entries.
fn claimed(alloc: Global, len: usize) -> Option<ClassFault> {
    let mut bytes = CLASS_A;
    for place in len.saturating_sub(2)..len {
        if let Some(byte) = bytes.get_mut(place) {
            *byte = 0xff;
        }
    }
    fault_of(alloc, &bytes[..len.min(bytes.len())])
}

#[test]
fn counts_of_what_is_not_there(rt: HostRuntime) {
    let constants_interfaces_fields_methods_attributes = [10, 47, 49, 51, 53];
    for len in constants_interfaces_fields_methods_attributes {
        let found = claimed(rt.alloc(), len);
        assert_eq!(rt; found, at(len as u64, ClassKind::Truncated));
    }
}

#[test]
fn a_byte_behind_the_end(rt: HostRuntime) -> Result<(), Fail> {
    let mut longer = Vec::from_slice(rt.alloc(), &CLASS_A)
        .ok()
        .ok_or("there is memory")?;
    longer.push(0).ok().ok_or("there is memory")?;
    let found = fault_of(rt.alloc(), longer.as_slice());
    assert_eq!(rt; found, at(53, ClassKind::Trailing));
    Ok(())
}

// Name and descriptor `A`, one attribute `Code`: no stack, no locals, the one byte of code, no handlers.
const METHOD: [u8; 27] = [
    0, 1, 0, 1, 0, 1, 0, 3, 0, 0, 0, 13, 0, 0, 0, 0, 0, 0, 0, 1, 0xb1, 0, 0, 0, 0, 0, 0,
];

// The fault of the class with that method, where one of its bytes is changed, cut to a length.
fn method_changed(
    alloc: Global,
    at: usize,
    byte: u8,
    len: usize,
) -> Result<Option<ClassFault>, AllocError> {
    let mut method = METHOD;
    if let Some(place) = method.get_mut(at) {
        *place = byte;
    }
    with_method(alloc, &method, len)
}

#[test]
fn damaged_code(rt: HostRuntime) -> Result<(), Fail> {
    let cases = [
        (0, 0, 65, None),
        (7, 4, 65, at(44, ClassKind::Index)),
        (11, 12, 65, at(46, ClassKind::Length)),
        (11, 12, 62, at(46, ClassKind::Length)),
        (11, 12, 61, at(61, ClassKind::Truncated)),
        (11, 14, 65, at(46, ClassKind::Length)),
        (11, 14, 63, at(46, ClassKind::Length)),
        (11, 16, 65, at(46, ClassKind::Length)),
        (19, 0, 65, at(54, ClassKind::Length)),
        (17, 1, 65, at(54, ClassKind::Length)),
        (22, 1, 65, at(59, ClassKind::Handlers)),
        (26, 1, 65, at(65, ClassKind::Truncated)),
    ];
    for (place, byte, len, fault) in cases {
        let found = method_changed(rt.alloc(), place, byte, len)
            .ok()
            .ok_or("there is memory")?;
        assert_eq!(rt; found, fault);
    }
    Ok(())
}

// Name and descriptor `A`, two attributes `Code`, each as above; no attributes of the class.
const TWO_CODES: [u8; 46] = [
    0, 1, 0, 1, 0, 2, 0, 3, 0, 0, 0, 13, 0, 0, 0, 0, 0, 0, 0, 1, 0xb1, 0, 0, 0, 0, 0, 3, 0, 0, 0,
    13, 0, 0, 0, 0, 0, 0, 0, 1, 0xb1, 0, 0, 0, 0, 0, 0,
];

#[test]
fn a_second_code(rt: HostRuntime) -> Result<(), Fail> {
    let cases = [
        (84, at(63, ClassKind::Twice)),
        (65, at(63, ClassKind::Twice)),
        (64, at(64, ClassKind::Truncated)),
    ];
    for (len, fault) in cases {
        let found = with_method(rt.alloc(), &TWO_CODES, len)
            .ok()
            .ok_or("there is memory")?;
        assert_eq!(rt; found, fault);
    }
    Ok(())
}
