ghost use Rattle.std.specs.Prelude.{◌≡◌, IfOk};
ghost use Rattle.iface_codec.specs.Hierarchy.{instance_fields, seen_class};
ghost use Rattle.jp_meaning.specs.Classes.{hier_in};

use iface_codec::{Iface, IfaceField};
use jp_meaning::TypedClass;
use jp_pred::{Hier, Name, SeenClass, Ty};
use sqlite_items::Items;
use std::alloc::{AllocError, Global};
use type_heads::copy_ty;

/// The hierarchy that classes of resolved trees give, in memory of its own.
pub fn hier_of(alloc: Global, classes: &[TypedClass]) -> Result<Hier, AllocError>
    ensures { IfOk result (λ hier. hier ≡ hier_in classes.now) }
{
    let mut seen = Items::new(alloc);
    for class in classes {
        seen.push(seen_class(alloc, &class.head)?)?;
    }
    Ok(Hier { classes: seen })
}

// A class as predicates see it.
fn seen_class(alloc: Global, head: &Iface) -> Result<SeenClass, AllocError>
    ensures { IfOk result (λ seen. seen ≡ seen_class head.now) }
{
    Ok(SeenClass {
        name: head.name.copy(alloc)?,
        is_interface: head.is_interface,
        is_abstract: head.is_abstract,
        is_final: head.is_final,
        superclass: copy_name(alloc, &head.superclass)?,
        interfaces: copy_names(alloc, head.interfaces.as_slice())?,
        fields: instance_fields(alloc, head.fields.as_slice())?,
    })
}

fn copy_name(alloc: Global, name: &Option<Name>) -> Result<Option<Name>, AllocError>
    ensures { IfOk result (λ copy. copy ≡ name.now) }
{
    match name {
        Some(name) => Ok(Some(name.copy(alloc)?)),
        None => Ok(None),
    }
}

fn copy_names(alloc: Global, names: &[Name]) -> Result<Items<Name>, AllocError>
    ensures { IfOk result (λ copies. copies ≡ names.now) }
{
    let mut copies = Items::new(alloc);
    for name in names {
        copies.push(name.copy(alloc)?)?;
    }
    Ok(copies)
}

// The fields of each object, with their types.
fn instance_fields(alloc: Global, fields: &[IfaceField]) -> Result<Items<(Name, Ty)>, AllocError>
    ensures { IfOk result (λ seen. seen ≡ instance_fields fields.now) }
{
    let mut seen = Items::new(alloc);
    for field in fields {
        if !field.is_static {
            seen.push((field.name.copy(alloc)?, copy_ty(alloc, &field.ty)?))?;
        }
    }
    Ok(seen)
}
