ghost use Rattle.std.specs.Prelude.{◌≡◌, IfOk};

use crate::Bytes;
use std::alloc::{AllocError, Global};

/// An entry of the constant pool. Entry 0 is `Unused`, and so is the entry behind each `Long` and `Double`
/// (JVM specification, second edition, 4.4).
#[derive(Debug, Drop)]
pub enum Const {
    Unused,
    Utf8(Bytes),
    Integer(i32),
    /// The bits of a float.
    Float(u32),
    Long(i64),
    /// The bits of a double.
    Double(u64),
    /// A class, by the index of its name.
    Class(u16),
    /// A string literal, by the index of its text.
    Text(u16),
    /// A field, by the indices of its class and of its name and type.
    Fieldref(u16, u16),
    /// A method of a class, by the indices of the class and of the method's name and type.
    Methodref(u16, u16),
    /// A method of an interface, likewise.
    InterfaceMethodref(u16, u16),
    /// The indices of a name and of a descriptor.
    NameAndType(u16, u16),
}

impl Const {
    /// An equal constant, in memory of its own.
    pub fn copy(&self, alloc: Global) -> Result<Const, AllocError>
        ensures { IfOk result (λ copy. copy ≡ self.now) }
    {
        match self {
            Const::Unused => Ok(Const::Unused),
            Const::Utf8(text) => Ok(Const::Utf8(text.copy(alloc)?)),
            Const::Integer(n) => Ok(Const::Integer(*n)),
            Const::Float(bits) => Ok(Const::Float(*bits)),
            Const::Long(n) => Ok(Const::Long(*n)),
            Const::Double(bits) => Ok(Const::Double(*bits)),
            Const::Class(name) => Ok(Const::Class(*name)),
            Const::Text(text) => Ok(Const::Text(*text)),
            Const::Fieldref(class, name) => Ok(Const::Fieldref(*class, *name)),
            Const::Methodref(class, name) => Ok(Const::Methodref(*class, *name)),
            Const::InterfaceMethodref(class, name) => Ok(Const::InterfaceMethodref(*class, *name)),
            Const::NameAndType(name, descriptor) => Ok(Const::NameAndType(*name, *descriptor)),
        }
    }
}
