ghost use Rattle.std.specs.Prelude.{◌≡◌, IfOk, Ok};
ghost use Rattle.class_form.specs.declared.class_file.ClassFile.{ClassFile};
ghost use Rattle.class_form.specs.WellFormed.{WellFormed, names, is_class, is_super_class};
ghost use Rattle.class_form.specs.Layout.{Encodes};
ghost use Rattle.class_reader.specs.Fields.{Gives, file_edge, index_at, many_at};
ghost use Rattle.class_reader.specs.Reading.{Answers, class_of, file_at, head_at, version_at, declared_at};

use crate::attributes::attributes;
use crate::fault::{ClassErr, ClassFault, ClassKind, Stop};
use crate::fields::{class_index, fault, file_edge, u2, u4};
use crate::members::members;
use crate::pool::pool;
use class_form::{ClassFile, Const, is_super_class};
use sqlite_items::Items;
use std::alloc::Global;

// The access flags, this class, the super class and the interfaces.
#[derive(Debug, Drop)]
struct Declared {
    flags: u16,
    this_class: u16,
    super_class: u16,
    interfaces: Items<u16>,
}

/// The class file that the bytes are, all of them, or the first fault in reading order.
pub fn read_class(alloc: Global, bytes: &[u8]) -> Result<ClassFile, ClassErr>
    // What is read is well formed, and the bytes are it by the standard.
    ensures found { IfOk result (λ file. WellFormed file × Encodes file bytes.now) }
    // What is a class file by the standard is read, unless memory runs out.
    ensures only { (file : ClassFile) → WellFormed file → Encodes file bytes.now → Answers result (Ok file) }
    // Which fault it is.
    ensures exact { Answers result (class_of bytes.now) }
{
    answer(alloc, bytes)
}

// The file, or the fault by its offset.
#[tactic(auto, unfolding(crate::specs::Reading::class_of))]
fn answer(alloc: Global, bytes: &[u8]) -> Result<ClassFile, ClassErr>
    ensures { Answers result (class_of bytes.now) }
{
    match file(alloc, bytes) {
        Ok(file) => Ok(file),
        Err(Stop::OutOfMemory) => Err(ClassErr::OutOfMemory),
        Err(Stop::Fault(defect)) => Err(ClassErr::Fault(ClassFault {
            offset: bytes.len().saturating_sub(defect.left) as u64,
            kind: defect.kind,
        })),
    }
}

#[tactic(auto, unfolding(crate::specs::Reading::file_at))]
fn file(alloc: Global, bytes: &[u8]) -> Result<ClassFile, Stop>
    ensures { Gives (λ file. file) result (file_at bytes.now) }
{
    let rest = head(bytes)?;
    let (constants, rest) = pool(alloc, rest)?;
    let (declared, rest) = class_head(alloc, constants.as_slice(), rest)?;
    let (fields, rest) = members(alloc, constants.as_slice(), rest)?;
    let (methods, rest) = members(alloc, constants.as_slice(), rest)?;
    let (attributes, rest) = attributes(alloc, file_edge(), constants.as_slice(), rest)?;
    if !rest.is_empty() {
        return Err(fault(ClassKind::Trailing, rest));
    }
    Ok(ClassFile {
        constants,
        flags: declared.flags,
        this_class: declared.this_class,
        super_class: declared.super_class,
        interfaces: declared.interfaces,
        fields,
        methods,
        attributes,
    })
}

// The bytes behind the magic number and the version (JVM specification, second edition, 4.1).
#[tactic(auto, unfolding(crate::specs::Reading::head_at))]
fn head(bytes: &[u8]) -> Result<&[u8], Stop>
    ensures { Gives (λ rest. rest.now) result (head_at bytes.now) }
{
    let (magic, rest) = u4(file_edge(), bytes)?;
    if magic != 0xcafe_babe {
        return Err(fault(ClassKind::Magic, bytes));
    }
    version(rest)
}

#[tactic(auto, unfolding(crate::specs::Reading::version_at))]
fn version(bytes: &[u8]) -> Result<&[u8], Stop>
    ensures { Gives (λ rest. rest.now) result (version_at bytes.now) }
{
    let (minor, rest) = u2(file_edge(), bytes)?;
    let (major, rest) = u2(file_edge(), rest)?;
    if minor != 0 || major != 48 {
        return Err(fault(ClassKind::Version, bytes));
    }
    Ok(rest)
}

#[tactic(auto, unfolding(crate::specs::Reading::declared_at))]
fn class_head<'a>(
    alloc: Global,
    constants: &[Const],
    bytes: &'a [u8],
) -> Result<(Declared, &'a [u8]), Stop>
    ensures { Gives (λ x. (x.0, x.1.now)) result (declared_at constants.now bytes.now) }
{
    let (flags, rest) = u2(file_edge(), bytes)?;
    let (this_class, rest) = class_index(constants, rest)?;
    let (super_class, rest) = super_index(constants, rest)?;
    let (count, rest) = u2(file_edge(), rest)?;
    let (interfaces, rest) = many_classes(alloc, constants, count, rest)?;
    let declared = Declared {
        flags,
        this_class,
        super_class,
        interfaces,
    };
    Ok((declared, rest))
}

// The index of a class, or 0.
#[tactic(auto, unfolding(crate::specs::Fields::index_at))]
fn super_index<'a>(constants: &[Const], bytes: &'a [u8]) -> Result<(u16, &'a [u8]), Stop>
    ensures { Gives (λ x. (x.0, x.1.now)) result (index_at file_edge (is_super_class constants.now) bytes.now) }
{
    let (index, rest) = u2(file_edge(), bytes)?;
    if !is_super_class(constants, index) {
        return Err(fault(ClassKind::Index, bytes));
    }
    Ok((index, rest))
}

fn many_classes<'a>(
    alloc: Global,
    constants: &[Const],
    count: u16,
    bytes: &'a [u8],
) -> Result<(Items<u16>, &'a [u8]), Stop>
    ensures { Gives (λ x. (x.0, x.1.now)) result (many_at (index_at file_edge (names is_class constants.now)) count bytes.now) }
{
    let mut classes = Items::new(alloc);
    let mut rest = bytes;
    for _ in 0..count {
        let (found, after) = class_index(constants, rest)?;
        classes.push(found)?;
        rest = after;
    }
    Ok((classes, rest))
}
