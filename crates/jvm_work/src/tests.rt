ghost use Rattle.std.specs.Prelude.{◌<◌, ◌^◌, IfOk, length};
ghost use Rattle.jvm_load.specs.Loadable.{IsLoadableFile};

use crate::carry_out;
use class_form::{Bytes, ClassFile, Const, MemberInfo};
use jp_store::{ElementKind, Heap, Outcome, TrapKind, Value};
use jvm_link::link;
use jvm_load::{Program, load};
use jvm_step::{Effect, Statics};
use sqlite_items::Items;
use std::alloc::{AllocError, Global};
use std::test::*;

const PUBLIC: u16 = 0x0001;

const STATIC: u16 = 0x0008;

const ABSTRACT: u16 = 0x0400;

// The constants that name the classes `A`, `B` and Object.
const A: u16 = 2;

const B: u16 = 4;

const OBJECT: u16 = 6;

// Those that name the fields `A.n` and `A.s` of type int, and `A.n` of type long.
const N: u16 = 11;

const S: u16 = 14;

const LONG_N: u16 = 17;

fn constants(alloc: Global) -> Result<Items<Const>, AllocError> {
    let mut constants = Items::new(alloc);
    constants.push(Const::Unused)?;
    constants.push(Const::Utf8(Bytes::from_bytes(alloc, b"A")?))?;
    constants.push(Const::Class(1))?;
    constants.push(Const::Utf8(Bytes::from_bytes(alloc, b"B")?))?;
    constants.push(Const::Class(3))?;
    constants.push(Const::Utf8(Bytes::from_bytes(alloc, b"java/lang/Object")?))?;
    constants.push(Const::Class(5))?;
    add_fields(alloc, &mut constants)?;
    Ok(constants)
}

fn add_fields(alloc: Global, constants: &mut Items<Const>) -> Result<(), AllocError> {
    constants.push(Const::Utf8(Bytes::from_bytes(alloc, b"I")?))?;
    constants.push(Const::Utf8(Bytes::from_bytes(alloc, b"J")?))?;
    constants.push(Const::Utf8(Bytes::from_bytes(alloc, b"n")?))?;
    constants.push(Const::NameAndType(9, 7))?;
    constants.push(Const::Fieldref(A, 10))?;
    constants.push(Const::Utf8(Bytes::from_bytes(alloc, b"s")?))?;
    constants.push(Const::NameAndType(12, 7))?;
    constants.push(Const::Fieldref(A, 13))?;
    constants.push(Const::NameAndType(9, 8))?;
    constants.push(Const::Unused)?;
    constants.push(Const::Fieldref(A, 15))?;
    Ok(())
}

fn field(alloc: Global, flags: u16, name: u16) -> MemberInfo {
    MemberInfo {
        flags,
        name,
        descriptor: 7,
        code: None,
        attributes: Items::new(alloc),
    }
}

// A class without methods.
fn class_file(
    alloc: Global,
    flags: u16,
    this_class: u16,
    super_class: u16,
    fields: Items<MemberInfo>,
) -> Result<ClassFile, AllocError>
    requires { length fields < 2 ^ 32 }
    ensures { IfOk result (λ file. IsLoadableFile file) }
{
    Ok(ClassFile {
        constants: constants(alloc)?,
        flags,
        this_class,
        super_class,
        interfaces: Items::new(alloc),
        fields,
        methods: Items::new(alloc),
        attributes: Items::new(alloc),
    })
}

// The class `A` with its two fields, and the abstract class `B` below it.
fn program(alloc: Global) -> Result<Program, AllocError> {
    let mut fields = Items::new(alloc);
    fields.push(field(alloc, PUBLIC, 9))?;
    fields.push(field(alloc, PUBLIC | STATIC, 12))?;
    let a = class_file(alloc, PUBLIC, A, OBJECT, fields)?;
    let b = class_file(alloc, PUBLIC | ABSTRACT, B, A, Items::new(alloc))?;
    load(alloc, &[a, b])
}

fn is_same(found: Outcome<Value>, wanted: Outcome<Value>) -> bool {
    match found {
        Outcome::Fine(value) => match wanted {
            Outcome::Fine(other) => value == other,
            _ => false,
        },
        Outcome::Trap(kind) => match wanted {
            Outcome::Trap(other) => kind == other,
            _ => false,
        },
        Outcome::Wrong => match wanted {
            Outcome::Wrong => true,
            _ => false,
        },
    }
}

// How many effects, carried out one after another, come to what they should.
fn count_good(alloc: Global, cases: &[(Effect, Outcome<Value>)]) -> Result<usize, AllocError> {
    let program = program(alloc)?;
    let linked = link(alloc, &program)?;
    let mut heap = Heap::new(alloc);
    let mut statics = Statics::new(program.first_statics(alloc)?);
    let mut good: usize = 0;
    for (effect, wanted) in cases {
        let found = carry_out(alloc, &linked, 0, *effect, &mut heap, &mut statics)?;
        if is_same(found, *wanted) {
            good = good.saturating_add(1);
        }
    }
    Ok(good)
}

const fn int(n: i32) -> Outcome<Value> {
    Outcome::Fine(Value::Int(n))
}

const fn made(number: usize) -> Outcome<Value> {
    Outcome::Fine(Value::Ref(number))
}

const NOTHING: Outcome<Value> = Outcome::Fine(Value::Null);

const NO_OBJECT: Outcome<Value> = Outcome::Trap(TrapKind::NullReference);

const OUTSIDE: Outcome<Value> = Outcome::Trap(TrapKind::OutOfBounds);

const FIRST: Value = Value::Ref(0);

#[test]
fn fields_of_objects(rt: HostRuntime) -> Result<(), Fail> {
    let cases = [
        (Effect::MakeObject(A), made(0)),
        (Effect::MakeObject(B), Outcome::Wrong),
        (Effect::MakeObject(OBJECT), made(1)),
        (Effect::GetField(FIRST, N), int(0)),
        (Effect::PutField(FIRST, N, Value::Int(5)), NOTHING),
        (Effect::GetField(FIRST, N), int(5)),
        (Effect::GetField(Value::Null, N), NO_OBJECT),
        (Effect::GetField(FIRST, S), Outcome::Wrong),
        (Effect::GetField(FIRST, LONG_N), Outcome::Wrong),
        (Effect::GetField(Value::Ref(1), N), Outcome::Wrong),
        (
            Effect::PutField(Value::Null, N, Value::Null),
            Outcome::Wrong,
        ),
    ];
    let good = count_good(rt.alloc(), cases.as_slice()).ok();
    assert_eq!(rt; good, Some(cases.len()));
    Ok(())
}

#[test]
fn static_fields(rt: HostRuntime) -> Result<(), Fail> {
    let cases = [
        (Effect::GetStatic(S), int(0)),
        (Effect::PutStatic(S, Value::Int(7)), NOTHING),
        (Effect::GetStatic(S), int(7)),
        (Effect::PutStatic(S, Value::Long(7)), Outcome::Wrong),
        (Effect::GetStatic(N), Outcome::Wrong),
        (Effect::GetStatic(A), Outcome::Wrong),
    ];
    let good = count_good(rt.alloc(), cases.as_slice()).ok();
    assert_eq!(rt; good, Some(cases.len()));
    Ok(())
}

#[test]
fn arrays_of_numbers(rt: HostRuntime) -> Result<(), Fail> {
    let number = ElementKind::NumberElement;
    let truth = ElementKind::TruthElement;
    let cases = [
        (Effect::MakeNumbers(Value::Int(2)), made(0)),
        (
            Effect::MakeNumbers(Value::Int(-1)),
            Outcome::Trap(TrapKind::NegativeSize),
        ),
        (Effect::MakeNumbers(Value::Null), Outcome::Wrong),
        (Effect::MakeTruths(Value::Int(1)), made(1)),
        (Effect::ArrayLength(FIRST), int(2)),
        (Effect::ArrayLength(Value::Null), NO_OBJECT),
        (
            Effect::PutElement(number, FIRST, Value::Int(1), Value::Int(9)),
            NOTHING,
        ),
        (Effect::GetElement(number, FIRST, Value::Int(1)), int(9)),
        (Effect::GetElement(number, FIRST, Value::Int(2)), OUTSIDE),
        (Effect::GetElement(number, FIRST, Value::Int(-1)), OUTSIDE),
        (
            Effect::GetElement(truth, FIRST, Value::Int(0)),
            Outcome::Wrong,
        ),
        (
            Effect::GetElement(number, Value::Null, Value::Int(0)),
            NO_OBJECT,
        ),
        (
            Effect::PutElement(truth, Value::Ref(1), Value::Int(0), Value::Int(1)),
            NOTHING,
        ),
        (
            Effect::PutElement(truth, Value::Ref(1), Value::Int(0), Value::Int(2)),
            Outcome::Wrong,
        ),
        (
            Effect::PutElement(truth, Value::Null, Value::Int(0), Value::Int(2)),
            Outcome::Wrong,
        ),
    ];
    let good = count_good(rt.alloc(), cases.as_slice()).ok();
    assert_eq!(rt; good, Some(cases.len()));
    Ok(())
}

#[test]
fn classes_of_objects(rt: HostRuntime) -> Result<(), Fail> {
    let reference = ElementKind::ReferenceElement;
    let array = Value::Ref(1);
    let cases = [
        (Effect::MakeObject(A), made(0)),
        (Effect::MakeReferences(B, Value::Int(1)), made(1)),
        (Effect::GetElement(reference, array, Value::Int(0)), NOTHING),
        (
            Effect::PutElement(reference, array, Value::Int(0), FIRST),
            Outcome::Wrong,
        ),
        (
            Effect::PutElement(reference, array, Value::Int(1), FIRST),
            OUTSIDE,
        ),
        (Effect::InstanceOf(A, FIRST), int(1)),
        (Effect::InstanceOf(B, FIRST), int(0)),
        (Effect::InstanceOf(OBJECT, array), int(1)),
        (Effect::InstanceOf(A, Value::Null), int(0)),
        (Effect::InstanceOf(A, Value::Int(0)), Outcome::Wrong),
        (Effect::CheckCast(A, FIRST), made(0)),
        (
            Effect::CheckCast(B, FIRST),
            Outcome::Trap(TrapKind::BadCast),
        ),
        (Effect::CheckCast(B, Value::Null), NOTHING),
        (Effect::CheckCast(N, FIRST), Outcome::Wrong),
    ];
    let good = count_good(rt.alloc(), cases.as_slice()).ok();
    assert_eq!(rt; good, Some(cases.len()));
    Ok(())
}
