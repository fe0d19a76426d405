ghost use Rattle.std.specs.Prelude.{◌≡◌, ◌++◌, map, IfOk, OnOk};
ghost use Rattle.std.specs.List.{filter_map};
ghost use Rattle.std.specs.Option.{option_to_list};
ghost use Rattle.type_rules.specs.Heads.{as_field, as_constructor, as_method, or_default, superclass_of, head, heads_of};
ghost use Rattle.decl_heads.specs.Bare.{bare};

use crate::language::own_heads;
use crate::members::{constructor_head, field_head, method_head};
use iface_codec::{Iface, IfaceField, IfaceMethod};
use jp_ast::{Decl, Member};
use jp_pred::{Name, Ty};
use sqlite_items::Items;
use std::alloc::{AllocError, Global};

/// All heads that the members of a unit see, given its declarations and the heads of other classes: those of the
/// language's own classes, its own, and the others. The error comes where there is no memory left.
pub fn heads_of(
    alloc: Global,
    decls: &[Decl],
    others: Items<Iface>,
) -> Result<Items<Iface>, AllocError>
    ensures { IfOk result (λ heads. heads ≡ heads_of decls.now others) }
{
    let mut heads = own_heads(alloc)?;
    heads.append(heads_from(alloc, decls)?)?;
    heads.append(others)?;
    Ok(heads)
}

fn heads_from(alloc: Global, decls: &[Decl]) -> Result<Items<Iface>, AllocError>
    ensures { IfOk result (λ heads. heads ≡ map head decls.now) }
{
    let mut heads = Items::new(alloc);
    for decl in decls {
        heads.push(head(alloc, decl)?)?;
    }
    Ok(heads)
}

/// The head of a class or an interface as the members of its unit see it: without guards, and without what its bodies
/// read on entry. The error comes where there is no memory left.
pub fn head(alloc: Global, decl: &Decl) -> Result<Iface, AllocError>
    ensures { IfOk result (λ made. made ≡ head decl.now) }
{
    let members = decl.members.as_slice();
    let mut made = bare_head(alloc, decl)?;
    add_fields(alloc, members, &mut made.fields)?;
    add_constructors(alloc, members, &mut made.constructors)?;
    add_default(alloc, decl.is_interface, &mut made.constructors)?;
    add_methods(alloc, members, &mut made.methods)?;
    Ok(made)
}

/// The head of a declaration without its members.
fn bare_head(alloc: Global, decl: &Decl) -> Result<Iface, AllocError>
    ensures { IfOk result (λ made. made ≡ bare decl.now) }
{
    let name = decl.name.copy(alloc)?;
    let superclass = superclass_of(alloc, decl)?;
    let interfaces = copy_names(alloc, decl.interfaces.as_slice())?;
    Ok(Iface {
        name,
        is_abstract: decl.is_abstract,
        is_final: decl.is_final,
        is_interface: decl.is_interface,
        superclass,
        interfaces,
        fields: Items::new(alloc),
        constructors: Items::new(alloc),
        methods: Items::new(alloc),
    })
}

/// The superclass of a class, which is Object where none is written; an interface has none.
fn superclass_of(alloc: Global, decl: &Decl) -> Result<Option<Name>, AllocError>
    ensures { IfOk result (λ name. name ≡ superclass_of decl.now) }
{
    if decl.is_interface {
        return Ok(None);
    }
    match &decl.superclass {
        Some(name) => Ok(Some(name.copy(alloc)?)),
        None => Ok(Some(Name::from_bytes(alloc, b"Object".as_slice())?)),
    }
}

fn copy_names(alloc: Global, names: &[Name]) -> Result<Items<Name>, AllocError>
    ensures { IfOk result (λ copy. copy ≡ names.now) }
{
    let mut copy = Items::new(alloc);
    for name in names {
        copy.push(name.copy(alloc)?)?;
    }
    Ok(copy)
}

fn add_fields(
    alloc: Global,
    members: &[Member],
    fields: &mut Items<IfaceField>,
) -> Result<(), AllocError>
    ensures { OnOk result (fields.new ≡ fields.old ++ filter_map as_field members.now) }
{
    for member in members {
        let one = field_head(alloc, member)?;
        add(fields, one)?;
    }
    Ok(())
}

fn add_constructors(
    alloc: Global,
    members: &[Member],
    constructors: &mut Items<Items<Ty>>,
) -> Result<(), AllocError>
    ensures { OnOk result (constructors.new ≡ constructors.old ++ filter_map as_constructor members.now) }
{
    for member in members {
        let one = constructor_head(alloc, member)?;
        add(constructors, one)?;
    }
    Ok(())
}

fn add_methods(
    alloc: Global,
    members: &[Member],
    methods: &mut Items<IfaceMethod>,
) -> Result<(), AllocError>
    ensures { OnOk result (methods.new ≡ methods.old ++ filter_map as_method members.now) }
{
    for member in members {
        let one = method_head(alloc, member)?;
        add(methods, one)?;
    }
    Ok(())
}

/// Adds the item, where there is one.
fn add<T: Drop>(all: &mut Items<T>, one: Option<T>) -> Result<(), AllocError>
    ensures { OnOk result (all.new ≡ all.old ++ option_to_list one) }
{
    match one {
        Some(item) => all.push(item),
        None => Ok(()),
    }
}

/// A class that has no constructor written has one without parameters.
fn add_default(
    alloc: Global,
    is_interface: bool,
    constructors: &mut Items<Items<Ty>>,
) -> Result<(), AllocError>
    ensures { OnOk result (constructors.new ≡ or_default is_interface constructors.old) }
{
    if is_interface || !constructors.is_empty() {
        return Ok(());
    }
    constructors.push(Items::new(alloc))
}
