ghost use Rattle.std.specs.Prelude.{◌≡◌, ◌&&◌, ◌||◌, not};
ghost use Rattle.std.specs.Option.{option_copied};
ghost use Rattle.type_rules.specs.Assigning.{is_value, is_text, typed, an_int, a_boolean, an_array, a_reference, widens, assignable, fits, misfit, some_misfit, widens_to, joins, an_interface, comparable};
ghost use Rattle.type_rules.specs.RulesOfExpressions.{are_bits, may_be_cast};
ghost use Rattle.type_rules.specs.RulesOfGuards.{excludes_value, excludes, are_apart};

use crate::heads::{names_class, names_interface};
use crate::types::{
    is_array, is_boolean, is_int, is_named, is_reference, is_reserved, is_unknown, same_type,
};
use crate::under::{are_related, is_under};
use iface_codec::Iface;
use jp_pred::{Name, Ty};
use sqlite_items::at;
use type_rules::{Known, Seen};

pub fn is_value(part: &Seen) -> bool
    ensures { result ≡ is_value part.now }
{
    matches!(part, Seen::Value(_))
}

/// Whether it is a text literal.
pub fn is_text(part: &Seen) -> bool
    ensures { result ≡ is_text part.now }
{
    matches!(part, Seen::Text(_))
}

/// The value of a part of which a type is known.
pub fn typed(part: &Seen) -> Option<&Known>
    ensures { option_copied result ≡ typed part.now }
{
    match part {
        Seen::Value(known) if !is_unknown(&known.expr.get().ty) => Some(known),
        _ => None,
    }
}

pub fn an_int(known: &Known) -> bool
    ensures { result ≡ an_int known.now }
{
    !known.is_null && is_int(&known.expr.get().ty)
}

pub fn a_boolean(known: &Known) -> bool
    ensures { result ≡ a_boolean known.now }
{
    !known.is_null && is_boolean(&known.expr.get().ty)
}

pub fn an_array(known: &Known) -> bool
    ensures { result ≡ an_array known.now }
{
    !known.is_null && is_array(&known.expr.get().ty)
}

pub fn a_reference(known: &Known) -> bool
    ensures { result ≡ a_reference known.now }
{
    known.is_null || is_reference(&known.expr.get().ty)
}

/// Whether a type is assignable to another: to an equal one, and a class or an interface to its supertypes and to
/// Object.
pub fn assignable(heads: &[Iface], from: &Ty, to: &Ty) -> bool
    ensures { result ≡ assignable heads.now from.now to.now }
{
    same_type(from, to) || widens(heads, from, to)
}

fn widens(heads: &[Iface], from: &Ty, to: &Ty) -> bool
    ensures { result ≡ widens heads.now from.now to.now }
{
    match (from, to) {
        (Ty::Class(lower), Ty::Class(upper)) => is_under(heads, lower, upper),
        _ => false,
    }
}

/// Whether a value is assignable to a type; null to every reference type.
pub fn fits(heads: &[Iface], known: &Known, to: &Ty) -> bool
    ensures { result ≡ fits heads.now known.now to.now }
{
    if known.is_null {
        is_reference(to)
    } else {
        assignable(heads, &known.expr.get().ty, to)
    }
}

/// Whether a part whose type is known isn't assignable to a type that is known too.
pub fn misfit(heads: &[Iface], part: &Seen, to: &Ty) -> bool
    ensures { result ≡ misfit heads.now part.now to.now }
{
    if is_unknown(to) {
        return false;
    }
    match typed(part) {
        Some(known) => !fits(heads, known, to),
        None => false,
    }
}

/// Whether some part isn't assignable to the type at its place.
pub fn some_misfit(heads: &[Iface], parts: &[Seen], types: &[Ty]) -> bool
    ensures { result ≡ some_misfit heads.now parts.now types.now }
{
    for (i, part) in parts.iter().enumerate() {
        let Some(to) = at(types, i) else {
            return false;
        };
        if misfit(heads, part, to) {
            return true;
        }
    }
    false
}

/// Whether the type of a value is assignable to that of another.
pub fn widens_to(heads: &[Iface], from: &Known, to: &Known) -> bool
    ensures { result ≡ widens_to heads.now from.now to.now }
{
    if to.is_null {
        from.is_null
    } else {
        fits(heads, from, &to.expr.get().ty)
    }
}

/// Whether of the types of two values one is assignable to the other.
pub fn joins(heads: &[Iface], first: &Known, second: &Known) -> bool
    ensures { result ≡ joins heads.now first.now second.now }
{
    widens_to(heads, first, second) || widens_to(heads, second, first)
}

/// Whether the type is an interface's.
pub fn an_interface(heads: &[Iface], known: &Known) -> bool
    ensures { result ≡ an_interface heads.now known.now }
{
    match &known.expr.get().ty {
        Ty::Class(name) if !known.is_null => names_interface(heads, name),
        _ => false,
    }
}

/// Whether `==` takes the two values: ints, booleans, or references of which one is assignable to the other or one is
/// an interface and the other no array.
pub fn comparable(heads: &[Iface], first: &Known, second: &Known) -> bool
    ensures { result ≡ comparable heads.now first.now second.now }
{
    (an_int(first) && an_int(second))
        || (a_boolean(first) && a_boolean(second))
        || (a_reference(first) && a_reference(second) && are_near(heads, first, second))
}

fn are_near(heads: &[Iface], first: &Known, second: &Known) -> bool
    ensures { result ≡ (joins heads.now first.now second.now || (an_interface heads.now first.now && not (an_array second.now)) || (an_interface heads.now second.now && not (an_array first.now))) }
{
    joins(heads, first, second)
        || (an_interface(heads, first) && !an_array(second))
        || (an_interface(heads, second) && !an_array(first))
}

/// Whether both are ints, or both booleans.
pub fn are_bits(first: &Known, second: &Known) -> bool
    ensures { result ≡ are_bits first.now second.now }
{
    (an_int(first) && an_int(second)) || (a_boolean(first) && a_boolean(second))
}

/// Whether it is null, or of a class or interface type.
pub fn may_be_cast(known: &Known) -> bool
    ensures { result ≡ may_be_cast known.now }
{
    known.is_null || is_named(&known.expr.get().ty)
}

/// Whether a type is a class, the tested one is a class too, and neither is below the other.
pub fn excludes(heads: &[Iface], class: &Name, ty: &Ty) -> bool
    ensures { result ≡ excludes heads.now class.now ty.now }
{
    match ty {
        Ty::Class(name) => {
            !is_reserved(class) && !is_reserved(name) && are_apart(heads, name, class)
        }
        _ => false,
    }
}

fn are_apart(heads: &[Iface], first: &Name, second: &Name) -> bool
    ensures { result ≡ are_apart heads.now first.now second.now }
{
    names_class(heads, first) && names_class(heads, second) && !are_related(heads, first, second)
}

/// The same of a value's type; null has none.
pub fn excludes_value(heads: &[Iface], class: &Name, known: &Known) -> bool
    ensures { result ≡ excludes_value heads.now class.now known.now }
{
    !known.is_null && excludes(heads, class, &known.expr.get().ty)
}
