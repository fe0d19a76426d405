ghost use Rattle.std.specs.Prelude.{◌≡◌, not};
ghost use Rattle.type_rules.specs.Assigning.{isnt, differ, an_int, a_boolean, an_array, comparable, joins};
ghost use Rattle.type_rules.specs.RulesOfExpressions.{are_bits, may_be_cast};
ghost use Rattle.type_rules.specs.RulesOfGuards.{excludes_value};

use iface_codec::Iface;
use jp_pred::Name;
use type_heads::{
    a_boolean, an_array, an_int, are_bits, comparable, excludes_value, joins, may_be_cast, typed,
};
use type_rules::Seen;

/// Whether the part has a type, and it isn't int.
pub(crate) fn isnt_int(part: &Seen) -> bool
    ensures { result ≡ isnt an_int part.now }
{
    typed(part).is_some_and(|known| !an_int(known))
}

/// Whether the part has a type, and it isn't boolean.
pub(crate) fn isnt_boolean(part: &Seen) -> bool
    ensures { result ≡ isnt a_boolean part.now }
{
    typed(part).is_some_and(|known| !a_boolean(known))
}

/// Whether the part has a type, and it isn't an array's.
pub(crate) fn isnt_array(part: &Seen) -> bool
    ensures { result ≡ isnt an_array part.now }
{
    typed(part).is_some_and(|known| !an_array(known))
}

/// Whether the part has a type, and it can't be cast.
pub(crate) fn cant_be_cast(part: &Seen) -> bool
    ensures { result ≡ isnt may_be_cast part.now }
{
    typed(part).is_some_and(|known| !may_be_cast(known))
}

/// Whether the part is of a class of which no object is one of the other class.
pub(crate) fn is_excluded(heads: &[Iface], class: &Name, part: &Seen) -> bool
    ensures { result ≡ isnt (λ k. not (excludes_value heads.now class.now k)) part.now }
{
    match typed(part) {
        Some(known) => excludes_value(heads, class, known),
        None => false,
    }
}

/// Whether both parts have types, and they aren't both ints or both booleans.
pub(crate) fn arent_bits(left: &Seen, right: &Seen) -> bool
    ensures { result ≡ differ are_bits left.now right.now }
{
    match (typed(left), typed(right)) {
        (Some(left), Some(right)) => !are_bits(left, right),
        _ => false,
    }
}

/// Whether both parts have types, and they can't be compared.
pub(crate) fn arent_comparable(heads: &[Iface], left: &Seen, right: &Seen) -> bool
    ensures { result ≡ differ (comparable heads.now) left.now right.now }
{
    match (typed(left), typed(right)) {
        (Some(left), Some(right)) => !comparable(heads, left, right),
        _ => false,
    }
}

/// Whether both parts have types, and neither is assignable to the other's.
pub(crate) fn cant_join(heads: &[Iface], left: &Seen, right: &Seen) -> bool
    ensures { result ≡ differ (joins heads.now) left.now right.now }
{
    match (typed(left), typed(right)) {
        (Some(left), Some(right)) => !joins(heads, left, right),
        _ => false,
    }
}
