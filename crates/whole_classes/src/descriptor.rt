ghost use Rattle.std.specs.Prelude.{◌≡◌, ◌++◌, IfOk, OnOk};
ghost use Rattle.std.specs.List.{flat_map};
ghost use Rattle.jp_meaning.specs.Descriptors.{internal_name, descriptor_of, method_descriptor};

use jp_pred::{Name, Ty};
use std::alloc::{AllocError, Global};

/// The descriptor of a method with such parameters and result.
pub(crate) fn method_descriptor(
    alloc: Global,
    params: &[Ty],
    answer: &Ty,
) -> Result<Vec<u8>, AllocError>
    ensures { IfOk result (λ bytes. bytes.items ≡ method_descriptor params.now answer.now) }
{
    let mut bytes = Vec::new(alloc);
    bytes.extend_from_slice(b"(")?;
    put_descriptors(&mut bytes, params)?;
    bytes.extend_from_slice(b")")?;
    put_descriptor(&mut bytes, answer)?;
    Ok(bytes)
}

fn put_descriptors(bytes: &mut Vec<u8>, types: &[Ty]) -> Result<(), AllocError>
    ensures { OnOk result (bytes.new.items ≡ bytes.old.items ++ flat_map descriptor_of types.now) }
{
    for ty in types {
        put_descriptor(bytes, ty)?;
    }
    Ok(())
}

fn put_descriptor(bytes: &mut Vec<u8>, ty: &Ty) -> Result<(), AllocError>
    ensures { OnOk result (bytes.new.items ≡ bytes.old.items ++ descriptor_of ty.now) }
{
    match ty {
        Ty::Void => bytes.extend_from_slice(b"V"),
        Ty::Int => bytes.extend_from_slice(b"I"),
        Ty::Boolean => bytes.extend_from_slice(b"Z"),
        Ty::IntArray => bytes.extend_from_slice(b"[I"),
        Ty::BooleanArray => bytes.extend_from_slice(b"[Z"),
        Ty::Class(name) => {
            bytes.extend_from_slice(b"L")?;
            put_internal_name(bytes, name)?;
            bytes.extend_from_slice(b";")
        }
        Ty::ClassArray(name) => {
            bytes.extend_from_slice(b"[L")?;
            put_internal_name(bytes, name)?;
            bytes.extend_from_slice(b";")
        }
    }
}

fn put_internal_name(bytes: &mut Vec<u8>, name: &Name) -> Result<(), AllocError>
    ensures { OnOk result (bytes.new.items ≡ bytes.old.items ++ internal_name name.now) }
{
    if name.bytes() == b"Object".as_slice() {
        bytes.extend_from_slice(b"java/lang/Object")
    } else {
        bytes.extend_from_slice(name.bytes())
    }
}
