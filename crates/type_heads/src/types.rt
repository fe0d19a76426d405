ghost use Rattle.std.specs.Prelude.{◌≡◌, IfOk};
ghost use Rattle.jp_pred.specs.Names.{same};
ghost use Rattle.jp_pred.specs.Kinds.{is_array, is_reference};
ghost use Rattle.type_rules.specs.Types.{io, is_reserved, is_int, is_boolean, is_void, is_named, same_type, is_refused, is_unknown};

use jp_pred::{Name, Ty};
use sqlite_items::Items;
use std::alloc::{AllocError, Global};

/// Whether it is the name of the class of input and output.
pub fn is_io(name: &Name) -> bool
    ensures { result ≡ same name.now io }
{
    name.bytes() == b"Io".as_slice()
}

/// Whether the name stands in no type position.
pub fn is_reserved(name: &Name) -> bool
    ensures { result ≡ is_reserved name.now }
{
    is_io(name) || name.bytes() == b"String".as_slice()
}

pub fn is_int(ty: &Ty) -> bool
    ensures { result ≡ is_int ty.now }
{
    matches!(ty, Ty::Int)
}

pub fn is_boolean(ty: &Ty) -> bool
    ensures { result ≡ is_boolean ty.now }
{
    matches!(ty, Ty::Boolean)
}

pub fn is_void(ty: &Ty) -> bool
    ensures { result ≡ is_void ty.now }
{
    matches!(ty, Ty::Void)
}

/// Whether it is a class's or an interface's.
pub fn is_named(ty: &Ty) -> bool
    ensures { result ≡ is_named ty.now }
{
    matches!(ty, Ty::Class(_))
}

pub fn is_array(ty: &Ty) -> bool
    ensures { result ≡ is_array ty.now }
{
    matches!(ty, Ty::IntArray | Ty::BooleanArray | Ty::ClassArray(_))
}

/// Whether it is a class's, an interface's or an array's.
pub fn is_reference(ty: &Ty) -> bool
    ensures { result ≡ is_reference ty.now }
{
    !matches!(ty, Ty::Void | Ty::Int | Ty::Boolean)
}

pub fn same_type(first: &Ty, second: &Ty) -> bool
    ensures { result ≡ same_type first.now second.now }
{
    match (first, second) {
        (Ty::Void, Ty::Void)
        | (Ty::Int, Ty::Int)
        | (Ty::Boolean, Ty::Boolean)
        | (Ty::IntArray, Ty::IntArray)
        | (Ty::BooleanArray, Ty::BooleanArray) => true,
        (Ty::Class(name), Ty::Class(other)) | (Ty::ClassArray(name), Ty::ClassArray(other)) => {
            other == name
        }
        _ => false,
    }
}

/// Whether the type names what stands in no type position.
pub fn is_refused(ty: &Ty) -> bool
    ensures { result ≡ is_refused ty.now }
{
    match ty {
        Ty::Class(name) | Ty::ClassArray(name) => is_reserved(name),
        _ => false,
    }
}

/// Whether it is unknown what type a value of that type has.
pub fn is_unknown(ty: &Ty) -> bool
    ensures { result ≡ is_unknown ty.now }
{
    is_void(ty) || is_refused(ty)
}

/// The same type, in memory of its own.
pub fn copy_ty(alloc: Global, ty: &Ty) -> Result<Ty, AllocError>
    ensures { IfOk result (λ copy. copy ≡ ty.now) }
{
    match ty {
        Ty::Void => Ok(Ty::Void),
        Ty::Int => Ok(Ty::Int),
        Ty::Boolean => Ok(Ty::Boolean),
        Ty::Class(name) => Ok(Ty::Class(name.copy(alloc)?)),
        Ty::IntArray => Ok(Ty::IntArray),
        Ty::BooleanArray => Ok(Ty::BooleanArray),
        Ty::ClassArray(name) => Ok(Ty::ClassArray(name.copy(alloc)?)),
    }
}

/// The same types, in memory of their own.
pub fn copy_types(alloc: Global, types: &[Ty]) -> Result<Items<Ty>, AllocError>
    ensures { IfOk result (λ copy. copy ≡ types.now) }
{
    let mut copy = Items::new(alloc);
    for ty in types {
        copy.push(copy_ty(alloc, ty)?)?;
    }
    Ok(copy)
}
