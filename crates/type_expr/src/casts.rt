ghost use Rattle.std.specs.Prelude.{◌≡◌, IfOk};
ghost use Rattle.jp_ast.specs.declared.expr.ExprKind.TheOpen as e;
ghost use Rattle.type_expr.specs.Resolving.{cast_value, instance_value};
ghost use Rattle.type_expr.specs.Settling.{Looks, Settles};

use crate::judging::{cant_be_cast, is_excluded};
use crate::spot::Spot;
use crate::values::value;
use jp_ast::Place;
use jp_meaning::TypedKind;
use jp_pred::{Name, Ty};
use std::alloc::{AllocError, Global};
use type_heads::{First, is_reserved};
use type_rules::{Scope, Seen};

/// `(class) part`
pub(crate) fn cast(
    alloc: Global,
    scope: &Scope,
    spot: Spot,
    class: &Name,
    part: Seen,
    first: &mut First,
) -> Result<Seen, AllocError>
    ensures { IfOk result (λ seen. Settles scope.now spot (e.Cast class.now part) first.old.fault first.new.fault seen) }
{
    if !class_rules(scope, spot, class, &part, first) {
        return Ok(Seen::Faulty);
    }
    resolved_cast(alloc, spot.place, class, part)
}

fn resolved_cast(alloc: Global, place: Place, class: &Name, part: Seen) -> Result<Seen, AllocError>
    ensures { IfOk result (λ seen. seen ≡ cast_value place class.now part) }
{
    let Seen::Value(known) = part else {
        return Ok(Seen::Faulty);
    };
    let kind = TypedKind::Cast {
        class: class.copy(alloc)?,
        value: known.expr,
    };
    value(alloc, place, Ty::Class(class.copy(alloc)?), kind)
}

/// `part instanceof class`
pub(crate) fn instance_of(
    alloc: Global,
    scope: &Scope,
    spot: Spot,
    part: Seen,
    class: &Name,
    first: &mut First,
) -> Result<Seen, AllocError>
    ensures { IfOk result (λ seen. Settles scope.now spot (e.InstanceOf part class.now) first.old.fault first.new.fault seen) }
{
    if !class_rules(scope, spot, class, &part, first) {
        return Ok(Seen::Faulty);
    }
    resolved_instance_of(alloc, spot.place, part, class)
}

fn resolved_instance_of(
    alloc: Global,
    place: Place,
    part: Seen,
    class: &Name,
) -> Result<Seen, AllocError>
    ensures { IfOk result (λ seen. seen ≡ instance_value place part class.now) }
{
    let Seen::Value(known) = part else {
        return Ok(Seen::Faulty);
    };
    let kind = TypedKind::InstanceOf {
        value: known.expr,
        class: class.copy(alloc)?,
    };
    value(alloc, place, Ty::Boolean, kind)
}

/// The rules of a class that a part is cast to or tested for.
#[tactic(auto, unfolding(crate::specs::Settling::faults_at))]
fn class_rules(scope: &Scope, spot: Spot, class: &Name, part: &Seen, first: &mut First) -> bool
    ensures cast { Looks scope.now spot (e.Cast class.now part.now) first.old.fault first.new.fault result }
    ensures instance { Looks scope.now spot (e.InstanceOf part.now class.now) first.old.fault first.new.fault result }
{
    let heads = scope.heads.as_slice();
    let is_type = first.add_if(spot.place, 2, is_reserved(class));
    let is_related = first.add_if(spot.place, 16, is_excluded(heads, class, part));
    let is_object = first.add_if(spot.place, 28, cant_be_cast(part));
    is_type && is_related && is_object
}
