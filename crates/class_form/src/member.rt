ghost use Rattle.std.specs.Prelude.{◌≡◌, IfOk};

use crate::Bytes;
use sqlite_items::Items;
use std::alloc::{AllocError, Global};

/// An attribute that is kept as bytes, with the index of its name.
#[derive(Debug, Drop)]
pub struct Attribute {
    pub name: u16,
    pub content: Bytes,
}

/// The code of a method (JVM specification, second edition, 4.7.3). Its exception table is empty.
#[derive(Debug, Drop)]
pub struct Code {
    pub max_stack: u16,
    pub max_locals: u16,
    pub bytes: Bytes,
    pub attributes: Items<Attribute>,
}

/// A field or a method, with its access flags and the indices of its name and its descriptor.
#[derive(Debug, Drop)]
pub struct MemberInfo {
    pub flags: u16,
    pub name: u16,
    pub descriptor: u16,
    pub code: Option<Code>,
    pub attributes: Items<Attribute>,
}

impl Attribute {
    /// An equal attribute, in memory of its own.
    pub fn copy(&self, alloc: Global) -> Result<Attribute, AllocError>
        ensures { IfOk result (λ copy. copy ≡ self.now) }
    {
        Ok(Attribute {
            name: self.name,
            content: self.content.copy(alloc)?,
        })
    }
}

impl Code {
    /// Equal code, in memory of its own.
    pub fn copy(&self, alloc: Global) -> Result<Code, AllocError>
        ensures { IfOk result (λ copy. copy ≡ self.now) }
    {
        Ok(Code {
            max_stack: self.max_stack,
            max_locals: self.max_locals,
            bytes: self.bytes.copy(alloc)?,
            attributes: copy_attributes(alloc, self.attributes.as_slice())?,
        })
    }
}

impl MemberInfo {
    /// An equal member, in memory of its own.
    pub fn copy(&self, alloc: Global) -> Result<MemberInfo, AllocError>
        ensures { IfOk result (λ copy. copy ≡ self.now) }
    {
        Ok(MemberInfo {
            flags: self.flags,
            name: self.name,
            descriptor: self.descriptor,
            code: copy_code(alloc, &self.code)?,
            attributes: copy_attributes(alloc, self.attributes.as_slice())?,
        })
    }
}

fn copy_code(alloc: Global, code: &Option<Code>) -> Result<Option<Code>, AllocError>
    ensures { IfOk result (λ copy. copy ≡ code.now) }
{
    match code {
        Some(code) => Ok(Some(code.copy(alloc)?)),
        None => Ok(None),
    }
}

pub(crate) fn copy_attributes(
    alloc: Global,
    attributes: &[Attribute],
) -> Result<Items<Attribute>, AllocError>
    ensures { IfOk result (λ copies. copies ≡ attributes.now) }
{
    let mut copies = Items::new(alloc);
    for attribute in attributes {
        copies.push(attribute.copy(alloc)?)?;
    }
    Ok(copies)
}

pub(crate) fn copy_members(
    alloc: Global,
    members: &[MemberInfo],
) -> Result<Items<MemberInfo>, AllocError>
    ensures { IfOk result (λ copies. copies ≡ members.now) }
{
    let mut copies = Items::new(alloc);
    for member in members {
        copies.push(member.copy(alloc)?)?;
    }
    Ok(copies)
}
