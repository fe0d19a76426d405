ghost use Rattle.std.specs.Prelude.{◌≡◌, [], length, Some, None, if◌then◌else◌, IfOk};
ghost use Rattle.std.specs.List.{flat_map, filter_map};
ghost use Rattle.std.specs.Option.{option_map_or, option_copied, option_to_list};
ghost use Rattle.type_rules.specs.Heads.{superclass_of, head_of, is_class};
ghost use Rattle.type_rules.specs.Lookups.{constructor_of};
ghost use Rattle.type_rules.specs.RulesOfDeclarations.{super_head};
ghost use Rattle.type_rules.specs.Units.{super_part, super_params, opened};
ghost use Rattle.type_decl.specs.Parts.{seat_of};

use crate::parts::super_of;
use iface_codec::Iface;
use jp_ast::{Decl, Member, MemberPart};
use jp_pred::{Name, Ty};
use sqlite_items::Items;
use std::alloc::{AllocError, Global};
use type_heads::{constructor_of, copy_types, head_of, is_class};

/// The types of the parameters of the superclass's constructor that a constructor calls; none of another member.
pub(crate) fn super_params(
    alloc: Global,
    heads: &[Iface],
    decl: &Decl,
    member: &Member,
) -> Result<Items<Ty>, AllocError>
    ensures { IfOk result (λ tys. tys ≡ super_params (seat_of heads.now decl.now) (opened member.now)) }
{
    match &member.part {
        MemberPart::Constructor { .. } => {
            params_above(alloc, heads, decl, super_count(&member.part))
        }
        MemberPart::Field { .. }
        | MemberPart::Static { .. }
        | MemberPart::Abstract { .. }
        | MemberPart::Body { .. } => Ok(Items::new(alloc)),
    }
}

/// How many arguments `super(..)` has; none where it isn't written.
fn super_count(part: &MemberPart) -> usize
    ensures { result ≡ option_map_or length (super_part part.now) 0 }
{
    match super_of(part) {
        Some(args) => args.len(),
        None => 0,
    }
}

/// The types of the parameters of the superclass's first constructor with so many, where it has one.
fn params_above(
    alloc: Global,
    heads: &[Iface],
    decl: &Decl,
    count: usize,
) -> Result<Items<Ty>, AllocError>
    ensures { IfOk result (λ tys. tys ≡ flat_map (λ h. option_map_or (λ ts. ts) (constructor_of h count) []) (super_head heads.now decl.now)) }
{
    let class = super_class(alloc, heads, decl)?;
    match class {
        Some(class) => params_of(alloc, class, count),
        None => Ok(Items::new(alloc)),
    }
}

/// The types of the parameters of a class's first constructor with so many, where it has one.
fn params_of(alloc: Global, class: &Iface, count: usize) -> Result<Items<Ty>, AllocError>
    ensures { IfOk result (λ tys. tys ≡ option_map_or (λ ts. ts) (constructor_of class.now count) []) }
{
    match constructor_of(class, count) {
        Some(params) => copy_types(alloc, params),
        None => Ok(Items::new(alloc)),
    }
}

/// The superclass of a declaration, where it is a class.
fn super_class<'a>(
    alloc: Global,
    heads: &'a [Iface],
    decl: &Decl,
) -> Result<Option<&'a Iface>, AllocError>
    ensures { IfOk result (λ found. option_to_list (option_copied found) ≡ super_head heads.now decl.now) }
{
    let name = superclass_of(alloc, decl)?;
    match name {
        Some(name) => Ok(class_named(heads, &name)),
        None => Ok(None),
    }
}

/// The name of the superclass of a class, which is Object where none is written; an interface has none.
fn superclass_of(alloc: Global, decl: &Decl) -> Result<Option<Name>, AllocError>
    ensures { IfOk result (λ name. name ≡ superclass_of decl.now) }
{
    if decl.is_interface {
        return Ok(None);
    }
    match &decl.superclass {
        Some(name) => Ok(Some(name.copy(alloc)?)),
        None => Ok(Some(Name::from_bytes(alloc, b"Object".as_slice())?)),
    }
}

/// The first head of that name, where it is a class.
fn class_named<'a>(heads: &'a [Iface], name: &Name) -> Option<&'a Iface>
    ensures { option_to_list (option_copied result) ≡ filter_map (λ h. if is_class h then Some h else None) (option_to_list (head_of heads.now name.now)) }
{
    let head = head_of(heads, name)?;
    if is_class(head) { Some(head) } else { None }
}
