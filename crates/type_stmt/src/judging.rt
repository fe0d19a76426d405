ghost use Rattle.std.specs.Prelude.{◌≡◌, not, false};
ghost use Rattle.std.specs.Option.{option_map_or};
ghost use Rattle.type_rules.specs.Assigning.{isnt, differ, an_int, a_boolean, fits, misfit};
ghost use Rattle.type_rules.specs.Types.{is_among};
ghost use Rattle.type_rules.specs.Names.{names_of};
ghost use Rattle.type_rules.specs.RulesOfStatements.{cant_change, misfits};
ghost use Rattle.type_rules.specs.Written.{form_of};

use crate::forms::is_variable;
use iface_codec::Iface;
use jp_ast::{Expr, sign};
use jp_pred::{Name, Ty};
use type_heads::{a_boolean, an_int, fits, misfit, typed};
use type_rules::{Scope, Seen, Variable};

/// Whether the part has a type, and it isn't int.
pub(crate) fn isnt_int(part: &Seen) -> bool
    ensures { result ≡ isnt an_int part.now }
{
    typed(part).is_some_and(|known| !an_int(known))
}

/// Whether the part has a type, and it isn't boolean.
pub(crate) fn isnt_boolean(part: &Seen) -> bool
    ensures { result ≡ isnt a_boolean part.now }
{
    typed(part).is_some_and(|known| !a_boolean(known))
}

/// Whether a part that is there isn't assignable to the type.
pub(crate) fn some_misfit(heads: &[Iface], part: &Option<Seen>, to: &Ty) -> bool
    ensures { result ≡ option_map_or (λ v. misfit heads.now v to.now) part.now false }
{
    match part {
        Some(part) => misfit(heads, part, to),
        None => false,
    }
}

/// Whether a variable has the name.
pub(crate) fn is_taken(variables: &[Variable], name: &Name) -> bool
    ensures { result ≡ is_among name.now (names_of variables.now) }
{
    for variable in variables {
        if variable.name == *name {
            return true;
        }
    }
    false
}

/// Whether what is changed is no local, parameter, alias, field or element.
pub(crate) fn cant_change(left: &Expr, part: &Seen) -> bool
    ensures { result ≡ cant_change (form_of left.now) part.now }
{
    match part {
        Seen::Value(known) => !known.is_variable,
        _ => !is_variable(left),
    }
}

/// Whether the changed thing and the value don't go together: with `=` the value isn't assignable, with another sign
/// one isn't int.
pub(crate) fn misfits(scope: &Scope, left: &Seen, sign: u8, right: &Seen) -> bool
    ensures { result ≡ misfits scope.now left.now sign right.now }
{
    if sign == sign::ASSIGN {
        cant_assign(scope.heads.as_slice(), left, right)
    } else {
        isnt_int(left) || isnt_int(right)
    }
}

/// Whether both have types, and the value isn't assignable.
fn cant_assign(heads: &[Iface], left: &Seen, right: &Seen) -> bool
    ensures { result ≡ differ (λ l r. fits heads.now r l.expr.ty) left.now right.now }
{
    match (typed(left), typed(right)) {
        (Some(left), Some(right)) => !fits(heads, right, &left.expr.get().ty),
        _ => false,
    }
}
