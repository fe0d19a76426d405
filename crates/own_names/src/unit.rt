ghost use Rattle.std.specs.Prelude.{◌≡◌, ◌↔◌, None, []};
ghost use Rattle.std.specs.List.{flat_map};
ghost use Rattle.type_rules.specs.ClassNames.{known_names, must_see};
ghost use Rattle.own_names.specs.Naming.{alone, first_unknown, in_option};
ghost use Rattle.own_names.specs.Units.{member_names, decl_names, first_outside};

use crate::classes::{outside, outside_in_names};
use crate::members::outside_in_member;
use jp_ast::{Decl, Member, Place, SourceUnit};

/// The place of the first node, in the order of the text, that names in a type position a class which is neither declared
/// in the unit nor one of the language's own (Object, Io and String). None where there is none. A supertype is named at
/// the place of its declaration, the types of a member and of its parameters at the place of the member.
pub fn first_outside(unit: &SourceUnit) -> Option<Place>
    ensures own { (result ≡ None) ↔ (must_see unit.now ≡ []) }
    ensures first { result ≡ first_outside unit.now }
{
    outside_in_decls(unit.decls.as_slice(), unit)
}

#[tactic(auto, using(crate::proofs::Firsts::found, crate::proofs::Firsts::passed, crate::proofs::Firsts::none_left))]
fn outside_in_decls(decls: &[Decl], unit: &SourceUnit) -> Option<Place>
    ensures { result ≡ first_unknown (known_names unit.now) (flat_map decl_names decls.now) }
{
    for decl in decls {
        if let Some(first) = outside_in_decl(decl, unit) {
            return Some(first);
        }
    }
    None
}

#[tactic(auto, using(crate::proofs::Firsts::first_append))]
fn outside_in_decl(decl: &Decl, unit: &SourceUnit) -> Option<Place>
    ensures { result ≡ first_unknown (known_names unit.now) (decl_names decl.now) }
{
    outside_in_superclass(decl, unit)
        .or(outside_in_names(decl.interfaces.as_slice(), decl.place, unit))
        .or(outside_in_members(decl.members.as_slice(), unit))
}

fn outside_in_superclass(decl: &Decl, unit: &SourceUnit) -> Option<Place>
    ensures { result ≡ first_unknown (known_names unit.now) (in_option (alone decl.now.place) decl.now.superclass) }
{
    match &decl.superclass {
        Some(class) => outside(class, decl.place, unit),
        None => None,
    }
}

#[tactic(auto, using(crate::proofs::Firsts::found, crate::proofs::Firsts::passed, crate::proofs::Firsts::none_left))]
fn outside_in_members(members: &[Member], unit: &SourceUnit) -> Option<Place>
    ensures { result ≡ first_unknown (known_names unit.now) (flat_map member_names members.now) }
{
    for member in members {
        if let Some(first) = outside_in_member(member, unit) {
            return Some(first);
        }
    }
    None
}
