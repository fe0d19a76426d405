ghost use Rattle.std.specs.Prelude.{◌≡◌, IfOk};

use crate::member::{copy_attributes, copy_members};
use crate::{Attribute, Const, MemberInfo};
use sqlite_items::Items;
use std::alloc::{AllocError, Global};

/// A class file of version 48.0. Classes, members and attributes are named by indices into the constants;
/// the super class 0 stands for none.
#[derive(Debug, Drop)]
pub struct ClassFile {
    pub constants: Items<Const>,
    pub flags: u16,
    pub this_class: u16,
    pub super_class: u16,
    pub interfaces: Items<u16>,
    pub fields: Items<MemberInfo>,
    pub methods: Items<MemberInfo>,
    pub attributes: Items<Attribute>,
}

impl ClassFile {
    /// An equal class file, in memory of its own.
    pub fn copy(&self, alloc: Global) -> Result<ClassFile, AllocError>
        ensures { IfOk result (λ copy. copy ≡ self.now) }
    {
        Ok(ClassFile {
            constants: copy_constants(alloc, self.constants.as_slice())?,
            flags: self.flags,
            this_class: self.this_class,
            super_class: self.super_class,
            interfaces: Items::from_slice(alloc, self.interfaces.as_slice())?,
            fields: copy_members(alloc, self.fields.as_slice())?,
            methods: copy_members(alloc, self.methods.as_slice())?,
            attributes: copy_attributes(alloc, self.attributes.as_slice())?,
        })
    }
}

fn copy_constants(alloc: Global, constants: &[Const]) -> Result<Items<Const>, AllocError>
    ensures { IfOk result (λ copies. copies ≡ constants.now) }
{
    let mut copies = Items::new(alloc);
    for constant in constants {
        copies.push(constant.copy(alloc)?)?;
    }
    Ok(copies)
}
