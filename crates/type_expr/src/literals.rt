ghost use Rattle.std.specs.Prelude.{◌≡◌, IfOk};
ghost use Rattle.jp_ast.specs.declared.expr.ExprKind.TheOpen as e;
ghost use Rattle.type_expr.specs.Resolving.{null_value};
ghost use Rattle.type_expr.specs.Settling.{Settles};

use crate::spot::Spot;
use crate::values::value;
use jp_ast::Place;
use jp_meaning::{TypedExpr, TypedKind};
use jp_pred::{Name, Ty};
use sqlite_items::Boxed;
use std::alloc::{AllocError, Global};
use type_heads::First;
use type_rules::{Known, Role, Scope, Seen};

#[tactic(auto, unfolding(crate::specs::Settling::faults_at))]
pub(crate) fn number(
    alloc: Global,
    scope: &Scope,
    spot: Spot,
    number: u32,
    hex: bool,
    first: &mut First,
) -> Result<Seen, AllocError>
    ensures { IfOk result (λ seen. Settles scope.now spot (e.Number number hex) first.old.fault first.new.fault seen) }
{
    let is_too_large = number == 2_147_483_648 && !hex;
    if !first.add_if(spot.place, 21, is_too_large && spot.role != Role::Negated) {
        return Ok(Seen::Faulty);
    }
    let kind = TypedKind::Number { value: number, hex };
    value(alloc, spot.place, Ty::Int, kind)
}

/// `null`
pub(crate) fn null(alloc: Global, place: Place) -> Result<Seen, AllocError>
    ensures { IfOk result (λ seen. seen ≡ null_value place) }
{
    let expr = TypedExpr {
        place,
        ty: Ty::Class(Name::from_bytes(alloc, b"Object")?),
        kind: TypedKind::Null,
    };
    Ok(Seen::Value(Known {
        is_null: true,
        is_variable: false,
        expr: Boxed::new(alloc, expr)?,
    }))
}

#[tactic(auto, unfolding(crate::specs::Settling::faults_at))]
pub(crate) fn text(
    alloc: Global,
    scope: &Scope,
    spot: Spot,
    text: &Name,
    first: &mut First,
) -> Result<Seen, AllocError>
    ensures { IfOk result (λ seen. Settles scope.now spot (e.Text text.now) first.old.fault first.new.fault seen) }
{
    if !first.add_if(spot.place, 32, spot.role != Role::Shown) {
        return Ok(Seen::Faulty);
    }
    Ok(Seen::Text(text.copy(alloc)?))
}

#[tactic(auto, unfolding(crate::specs::Settling::faults_at))]
pub(crate) fn this(
    alloc: Global,
    scope: &Scope,
    spot: Spot,
    first: &mut First,
) -> Result<Seen, AllocError>
    ensures { IfOk result (λ seen. Settles scope.now spot e.This first.old.fault first.new.fault seen) }
{
    if !first.add_if(spot.place, 23, scope.is_static) {
        return Ok(Seen::Faulty);
    }
    let class = scope.class.copy(alloc)?;
    value(alloc, spot.place, Ty::Class(class), TypedKind::This)
}
