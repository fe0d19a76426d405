ghost use Rattle.std.specs.Prelude.{◌≡◌, ◌<◌, ◌^◌, length, pos, ◌+ℤ◌, ◌*ℤ◌, ◌≤ℤ◌};
ghost use Rattle.std.specs.List.{list_any};
ghost use Rattle.std.specs.Option.{option_copied};
ghost use Rattle.jp_pred.specs.Hierarchy.{HasNoCycle, is_below};
ghost use Rattle.jp_pred.specs.Kinds.{is_array};
ghost use Rattle.jp_pred.specs.Truth.{kind_below, entry_of, sum_of, at_most, atom_holds, is_true, row_length, longest};

use crate::guard::{Atom, Guard, Row};
use crate::hier::Hier;
use crate::name::Name;
use crate::path::Path;
use crate::shape::{Kind, Shape};
use crate::supertypes::below;
use crate::ty::Ty;

/// The truth of a guard on a shape. An atom that names a path without an entry is false; a test looks for its path
/// among the references and a row for its paths among the numbers, and of several entries of a path the first counts.
/// Sums are those of whole numbers, which don't wrap.
pub fn holds(hier: &Hier, guard: &Guard, shape: &Shape) -> bool
    requires cycle { HasNoCycle hier.now }
    requires short { longest guard.now < 2 ^ 32 }
    ensures { result ≡ is_true hier.now shape.now guard.now }
{
    match guard {
        Guard::True => true,
        Guard::False => false,
        Guard::And(left, right) => holds(hier, left.get(), shape)
            && holds(hier, right.get(), shape),
        Guard::Or(left, right) => holds(hier, left.get(), shape) || holds(hier, right.get(), shape),
        Guard::Not(inner) => !holds(hier, inner.get(), shape),
        Guard::Atom(atom) => holds_atom(hier, atom, shape),
    }
}

fn holds_atom(hier: &Hier, atom: &Atom, shape: &Shape) -> bool
    requires cycle { HasNoCycle hier.now }
    requires short { row_length atom.now < 2 ^ 32 }
    ensures { result ≡ atom_holds hier.now shape.now atom.now }
{
    match atom {
        Atom::Is(path, ty) => match kind_at(shape.refs.as_slice(), path) {
            Some(kind) => is_kind_below(hier, kind, ty),
            None => false,
        },
        Atom::Row(row) => holds_row(row, shape.ints.as_slice()),
    }
}

/// Whether a reference of that kind isn't null and is of the type.
pub fn is_kind_below(hier: &Hier, kind: &Kind, ty: &Ty) -> bool
    requires { HasNoCycle hier.now }
    ensures { result ≡ kind_below hier.now kind.now ty.now }
{
    match (kind, ty) {
        (Kind::Null, _) => false,
        (Kind::Array, _) => is_array(ty),
        (Kind::Known(name), Ty::Class(upper)) => below(hier, name, upper),
        (
            Kind::Fresh {
                superclass,
                interfaces,
            },
            Ty::Class(upper),
        ) => { below(hier, superclass, upper) || any_is_below(hier, interfaces.as_slice(), upper) }
        _ => false,
    }
}

fn is_array(ty: &Ty) -> bool
    ensures { result ≡ is_array ty.now }
{
    matches!(ty, Ty::IntArray | Ty::BooleanArray | Ty::ClassArray(_))
}

fn any_is_below(hier: &Hier, names: &[Name], upper: &Name) -> bool
    requires { HasNoCycle hier.now }
    ensures { result ≡ list_any (λ n. is_below hier.now n upper.now) names.now }
{
    for name in names {
        if below(hier, name, upper) {
            return true;
        }
    }
    false
}

fn holds_row(row: &Row, ints: &[(Path, i32)]) -> bool
    requires { length row.now.terms < 2 ^ 32 }
    ensures { result ≡ at_most row.now.bound (sum_of ints.now row.now.terms) }
{
    let mut total = 0i128;
    for term in row.terms.as_slice() {
        let Some(value) = number_at(ints, &term.path) else {
            return false;
        };
        total += product(term.coefficient, value);
    }
    total <= i128::from(row.bound)
}

fn product(coefficient: i64, value: i32) -> i128
    ensures value { result ≡ coefficient *ℤ value }
    ensures low { pos 0 ≤ℤ (result +ℤ pos (2 ^ 94)) }
    ensures high { result ≤ℤ pos (2 ^ 94) }
{
    i128::from(coefficient) * i128::from(value)
}

/// The kind of the reference at a path, or none where the path is undefined.
pub fn kind_at<'a>(refs: &'a [(Path, Kind)], path: &Path) -> Option<&'a Kind>
    ensures { option_copied result ≡ entry_of path.now refs.now }
{
    for (entry, kind) in refs {
        if entry == path {
            return Some(kind);
        }
    }
    None
}

/// The number at a path, or none where the path is undefined.
pub fn number_at(ints: &[(Path, i32)], path: &Path) -> Option<i32>
    ensures { result ≡ entry_of path.now ints.now }
{
    for (entry, number) in ints {
        if entry == path {
            return Some(*number);
        }
    }
    None
}
