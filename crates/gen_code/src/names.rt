ghost use Rattle.std.specs.Prelude.{◌≡◌, ◌++◌, IfOk, OnOk};
ghost use Rattle.std.specs.List.{flat_map};
ghost use Rattle.jp_meaning.specs.Descriptors.{internal_name, descriptor_of, method_descriptor, method_of, key_of, kind_of_type, element_kind_of};
ghost use Rattle.code_trace.specs.Calls.{key_of_method};
ghost use Rattle.code_asm.specs.Lines.{name_of};

use class_form::Bytes;
use code_asm::MemberName;
use jp_pred::{Name, Ty};
use jp_store::{ElementKind, Kind};
use std::alloc::{AllocError, Global};

/// The name of a class in class files.
pub(crate) fn internal_name(alloc: Global, name: &Name) -> Result<Bytes, AllocError>
    ensures { IfOk result (λ bytes. bytes ≡ internal_name name.now) }
{
    let mut out = Vec::new(alloc);
    put_internal_name(&mut out, name)?;
    Ok(Bytes::from_vec(out))
}

fn put_internal_name(out: &mut Vec<u8>, name: &Name) -> Result<(), AllocError>
    ensures { OnOk result (out.new.items ≡ out.old.items ++ internal_name name.now) }
{
    if name.bytes() == b"Object".as_slice() {
        out.extend_from_slice(b"java/lang/Object")
    } else {
        out.extend_from_slice(name.bytes())
    }
}

// A type's descriptor (JVM specification, second edition, 4.3.2).
fn put_descriptor(out: &mut Vec<u8>, ty: &Ty) -> Result<(), AllocError>
    ensures { OnOk result (out.new.items ≡ out.old.items ++ descriptor_of ty.now) }
{
    match ty {
        Ty::Void => out.extend_from_slice(b"V"),
        Ty::Int => out.extend_from_slice(b"I"),
        Ty::Boolean => out.extend_from_slice(b"Z"),
        Ty::IntArray => out.extend_from_slice(b"[I"),
        Ty::BooleanArray => out.extend_from_slice(b"[Z"),
        Ty::Class(name) => {
            out.extend_from_slice(b"L")?;
            put_internal_name(out, name)?;
            out.extend_from_slice(b";")
        }
        Ty::ClassArray(name) => {
            out.extend_from_slice(b"[L")?;
            put_internal_name(out, name)?;
            out.extend_from_slice(b";")
        }
    }
}

fn put_descriptors(out: &mut Vec<u8>, types: &[Ty]) -> Result<(), AllocError>
    ensures { OnOk result (out.new.items ≡ out.old.items ++ flat_map descriptor_of types.now) }
{
    for ty in types {
        put_descriptor(out, ty)?;
    }
    Ok(())
}

// The descriptor of a method (JVM specification, second edition, 4.3.3).
fn method_descriptor(alloc: Global, params: &[Ty], answer: &Ty) -> Result<Bytes, AllocError>
    ensures { IfOk result (λ bytes. bytes ≡ method_descriptor params.now answer.now) }
{
    let mut out = Vec::new(alloc);
    out.extend_from_slice(b"(")?;
    put_descriptors(&mut out, params)?;
    out.extend_from_slice(b")")?;
    put_descriptor(&mut out, answer)?;
    Ok(Bytes::from_vec(out))
}

/// A field, by the class that declares it, its name and its type.
pub(crate) fn field_name(
    alloc: Global,
    class: &Name,
    name: &Name,
    ty: &Ty,
) -> Result<MemberName, AllocError>
    ensures { IfOk result (λ member. member ≡ name_of (key_of class.now name.now ty.now)) }
{
    let mut descriptor = Vec::new(alloc);
    put_descriptor(&mut descriptor, ty)?;
    Ok(MemberName {
        class: internal_name(alloc, class)?,
        name: Bytes::from_bytes(alloc, name.bytes())?,
        descriptor: Bytes::from_vec(descriptor),
    })
}

/// A method, by its class, its name, the types of its parameters and that of its result.
pub(crate) fn method_name(
    alloc: Global,
    class: &Name,
    name: &[u8],
    params: &[Ty],
    answer: &Ty,
) -> Result<MemberName, AllocError>
    ensures { IfOk result (λ member. member ≡ name_of (key_of_method (method_of class.now name.now params.now answer.now))) }
{
    Ok(MemberName {
        class: internal_name(alloc, class)?,
        name: Bytes::from_bytes(alloc, name)?,
        descriptor: method_descriptor(alloc, params, answer)?,
    })
}

/// What kind of value a variable of a type holds.
pub fn kind_of_type(ty: &Ty) -> Option<Kind>
    ensures { result ≡ kind_of_type ty.now }
{
    match ty {
        Ty::Void => None,
        Ty::Int | Ty::Boolean => Some(Kind::Number),
        Ty::Class(_) | Ty::IntArray | Ty::BooleanArray | Ty::ClassArray(_) => Some(Kind::Reference),
    }
}

/// How an element of a type is read and stored.
pub fn element_kind_of(ty: &Ty) -> ElementKind
    ensures { result ≡ element_kind_of ty.now }
{
    match ty {
        Ty::Int => ElementKind::NumberElement,
        Ty::Boolean => ElementKind::TruthElement,
        Ty::Void | Ty::Class(_) | Ty::IntArray | Ty::BooleanArray | Ty::ClassArray(_) => {
            ElementKind::ReferenceElement
        }
    }
}
