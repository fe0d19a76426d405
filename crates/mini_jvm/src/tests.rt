ghost use Rattle.std.specs.Prelude.{◌^◌, ◌<◌, ◌≤◌, length, IfOk};
ghost use Rattle.jvm_load.specs.Loadable.{HasShortCode, IsLoadableFile};

use crate::run;
use class_form::{Bytes, ClassFile, Code, Const, MemberInfo};
use jp_outside::{MemSink, MemSource};
use jp_pred::Name;
use jp_store::TrapKind;
use jvm_load::load;
use jvm_step::End;
use sqlite_items::Items;
use std::alloc::{AllocError, Global};
use std::test::Fail;

const PUBLIC: u16 = 0x0001;

const STATIC: u16 = 0x0008;

// Prints the constants 5 and 6.
const PRINTS: [u8; 11] = [0x12, 5, 0xb8, 0, 12, 0x12, 6, 0xb8, 0, 12, 0xb1];

// Prints two numbers that are read.
const ECHOES: [u8; 13] = [0xb8, 0, 16, 0xb8, 0, 12, 0xb8, 0, 16, 0xb8, 0, 12, 0xb1];

// Calls the method that calls itself.
const DIVES: [u8; 4] = [0xb8, 0, 19, 0xb1];

// Prints what the method with a long and an int answers.
const PASSES_LONG: [u8; 10] = [0x0a, 0x12, 5, 0xb8, 0, 23, 0xb8, 0, 12, 0xb1];

// Calls a method of null.
const CALLS_NULL: [u8; 5] = [0x01, 0xb6, 0, 19, 0xb1];

fn push_text(alloc: Global, constants: &mut Items<Const>, text: &[u8]) -> Result<(), AllocError> {
    constants.push(Const::Utf8(Bytes::from_bytes(alloc, text)?))
}

fn constants(alloc: Global) -> Result<Items<Const>, AllocError> {
    let mut constants = Items::new(alloc);
    constants.push(Const::Unused)?;
    push_text(alloc, &mut constants, b"Main")?;
    constants.push(Const::Class(1))?;
    push_text(alloc, &mut constants, b"main")?;
    push_text(alloc, &mut constants, b"()V")?;
    constants.push(Const::Integer(7))?;
    constants.push(Const::Integer(-2147483648))?;
    push_text(alloc, &mut constants, b"Io")?;
    constants.push(Const::Class(7))?;
    push_text(alloc, &mut constants, b"print")?;
    push_text(alloc, &mut constants, b"(I)V")?;
    constants.push(Const::NameAndType(9, 10))?;
    constants.push(Const::Methodref(8, 11))?;
    push_text(alloc, &mut constants, b"read")?;
    push_text(alloc, &mut constants, b"()I")?;
    constants.push(Const::NameAndType(13, 14))?;
    constants.push(Const::Methodref(8, 15))?;
    push_text(alloc, &mut constants, b"down")?;
    constants.push(Const::NameAndType(17, 4))?;
    constants.push(Const::Methodref(2, 18))?;
    push_text(alloc, &mut constants, b"wide")?;
    push_text(alloc, &mut constants, b"(JI)I")?;
    constants.push(Const::NameAndType(20, 21))?;
    constants.push(Const::Methodref(2, 22))?;
    Ok(constants)
}

fn method(
    alloc: Global,
    name: u16,
    descriptor: u16,
    max_locals: u16,
    code: &[u8],
) -> Result<MemberInfo, AllocError>
    requires { length code.now < 2 ^ 32 }
    ensures { IfOk result (λ method. HasShortCode method) }
{
    Ok(MemberInfo {
        flags: STATIC,
        name,
        descriptor,
        code: Some(Code {
            max_stack: 3,
            max_locals,
            bytes: Bytes::from_bytes(alloc, code)?,
            attributes: Items::new(alloc),
        }),
        attributes: Items::new(alloc),
    })
}

// The class `Main`: `main()`, `down()`, which calls itself, and `wide(long, int)`, which answers the int.
fn class_main(alloc: Global, code: &[u8]) -> Result<ClassFile, AllocError>
    requires { length code.now < 2 ^ 32 }
    ensures { IfOk result (λ file. IsLoadableFile file) }
{
    let mut methods = Items::new(alloc);
    methods.push(method(alloc, 3, 4, 0, code)?)?;
    methods.push(method(alloc, 17, 4, 0, &DIVES)?)?;
    methods.push(method(alloc, 20, 21, 3, &[0x1c, 0xac])?)?;
    Ok(ClassFile {
        constants: constants(alloc)?,
        flags: PUBLIC,
        this_class: 2,
        super_class: 0,
        interfaces: Items::new(alloc),
        fields: Items::new(alloc),
        methods,
        attributes: Items::new(alloc),
    })
}

fn word(end: &End) -> &'static str {
    match end {
        End::Done => "done",
        End::Trap(TrapKind::NullReference) => "null",
        End::Trap(_) => "trap",
        End::Cut => "cut",
        End::ReadFault => "read",
        End::WriteFault => "write",
        End::BadCode { .. } => "bad",
    }
}

// Runs a class of a program of one file, with the reads and writes of these numbers failing.
fn run_code(
    alloc: Global,
    code: &[u8],
    limit: u64,
    input: &[u8],
    fail_read: u64,
    fail_write: u64,
) -> Result<(End, Vec<u8>), AllocError>
    requires code { length code.now < 2 ^ 32 }
    requires limit { 1 ≤ limit }
{
    let program = load(alloc, &[class_main(alloc, code)?])?;
    let main = Name::from_bytes(alloc, b"Main")?;
    let mut source = MemSource::new(
        Vec::from_slice(alloc, input)?,
        Vec::from_slice(alloc, &[fail_read])?,
    );
    let mut sink = MemSink::new(alloc, 100, Vec::from_slice(alloc, &[fail_write])?)?;
    let end = run(alloc, &program, &main, limit, &mut source, &mut sink)?;
    Ok((end, Vec::from_slice(alloc, sink.taken())?))
}

#[test]
fn how_runs_end(rt: HostRuntime) -> Result<(), Fail> {
    let cases: [(&[u8], u64, &str, &[u8]); 8] = [
        // The limit behind, at and before the last instruction.
        (&PRINTS, 6, "done", b"7-2147483648"),
        (&PRINTS, 5, "done", b"7-2147483648"),
        (&PRINTS, 4, "cut", b"7-2147483648"),
        (&PRINTS, 1, "cut", b""),
        (&DIVES, 5000, "cut", b""),
        (&PASSES_LONG, 100, "done", b"7"),
        (&CALLS_NULL, 100, "null", b""),
        (&[0x00], 100, "bad", b""),
    ];
    for (code, limit, wanted, written) in cases {
        let (end, taken) = run_code(rt.alloc(), code, limit, &[], 0, 0)?;
        assert_eq!(rt; word(&end), wanted);
        assert_eq!(rt; taken.as_slice(), written);
    }
    Ok(())
}

#[test]
fn faults_of_devices(rt: HostRuntime) -> Result<(), Fail> {
    let cases: [(&[u8], u64, u64, &str, &[u8]); 6] = [
        (b"AB", 0, 0, "done", b"6566"),
        (b"A", 0, 0, "done", b"65-1"),
        (b"AB", 1, 0, "read", b""),
        (b"AB", 2, 0, "read", b"65"),
        (b"AB", 0, 1, "write", b""),
        (b"AB", 0, 2, "write", b"65"),
    ];
    for (input, fail_read, fail_write, wanted, written) in cases {
        let (end, taken) = run_code(rt.alloc(), &ECHOES, 100, input, fail_read, fail_write)?;
        assert_eq!(rt; word(&end), wanted);
        assert_eq!(rt; taken.as_slice(), written);
    }
    Ok(())
}
