ghost use Rattle.std.specs.Prelude.{◌≡◌, ◌||◌, [], ◌∷◌};
ghost use Rattle.std.specs.List.{flat_map, list_any};
ghost use Rattle.jp_pred.specs.Names.{object, same};
ghost use Rattle.type_rules.specs.Types.{io, string, is_among};
ghost use Rattle.type_rules.specs.ClassNames.{known_names};
ghost use Rattle.own_names.specs.Naming.{alone, type_names, first_unknown};

use jp_ast::{Decl, Place, SourceUnit};
use jp_pred::{Name, Ty};

/// The place, where the class that is named there is neither declared in the unit nor one of the language's own.
#[tactic(auto, using(crate::proofs::Firsts::known_one, crate::proofs::Firsts::unknown_one))]
pub(crate) fn outside(class: &Name, place: Place, unit: &SourceUnit) -> Option<Place>
    ensures { result ≡ first_unknown (known_names unit.now) (alone place class.now) }
{
    if is_known(class, unit) {
        None
    } else {
        Some(place)
    }
}

/// The same of the class that a type names.
pub(crate) fn outside_in_type(ty: &Ty, place: Place, unit: &SourceUnit) -> Option<Place>
    ensures { result ≡ first_unknown (known_names unit.now) (type_names place ty.now) }
{
    match ty {
        Ty::Class(class) => outside(class, place, unit),
        Ty::ClassArray(class) => outside(class, place, unit),
        Ty::Void | Ty::Int | Ty::Boolean | Ty::IntArray | Ty::BooleanArray => None,
    }
}

/// The same of classes that are named at one place.
#[tactic(auto, using(crate::proofs::Firsts::found, crate::proofs::Firsts::passed, crate::proofs::Firsts::none_left))]
pub(crate) fn outside_in_names(names: &[Name], place: Place, unit: &SourceUnit) -> Option<Place>
    ensures { result ≡ first_unknown (known_names unit.now) (flat_map (alone place) names.now) }
{
    for class in names {
        if let Some(first) = outside(class, place, unit) {
            return Some(first);
        }
    }
    None
}

#[tactic(auto, using(crate::proofs::Known::known_own))]
fn is_known(class: &Name, unit: &SourceUnit) -> bool
    ensures { result ≡ is_among class.now (known_names unit.now) }
{
    is_of_language(class) || is_declared(class, unit.decls.as_slice())
}

fn is_of_language(class: &Name) -> bool
    ensures { result ≡ (same class.now object || same class.now io || same class.now string) }
{
    let name = class.bytes();
    name == b"Object".as_slice() || name == b"Io".as_slice() || name == b"String".as_slice()
}

fn is_declared(class: &Name, decls: &[Decl]) -> bool
    ensures { result ≡ list_any (λ d. same d.name class.now) decls.now }
{
    for decl in decls {
        if decl.name == *class {
            return true;
        }
    }
    false
}
