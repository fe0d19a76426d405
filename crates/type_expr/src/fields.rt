ghost use Rattle.std.specs.Prelude.{◌≡◌, false, option_and_then, IfOk};
ghost use Rattle.jp_ast.specs.declared.expr.ExprKind.TheOpen as e;
ghost use Rattle.type_rules.specs.Types.{is_unknown};
ghost use Rattle.type_rules.specs.Assigning.{an_array};
ghost use Rattle.type_rules.specs.Lookups.{field_that};
ghost use Rattle.type_rules.specs.Names.{class_of_value};
ghost use Rattle.type_heads.specs.Members.{field_at};
ghost use Rattle.type_expr.specs.Settling.{Settles};

use crate::spot::Spot;
use crate::values::{value, variable};
use iface_codec::IfaceField;
use jp_meaning::TypedKind;
use jp_pred::{Name, Ty};
use std::alloc::{AllocError, Global};
use type_heads::{First, an_array, class_of_value, copy_ty, field_that, is_unknown};
use type_rules::{Known, Scope, Seen};

/// `object.name`
#[tactic(auto, unfolding(crate::specs::Settling::faults_at))]
pub(crate) fn field(
    alloc: Global,
    scope: &Scope,
    spot: Spot,
    object: Seen,
    name: &Name,
    first: &mut First,
) -> Result<Seen, AllocError>
    ensures { IfOk result (λ seen. Settles scope.now spot (e.Field object name.now) first.old.fault first.new.fault seen) }
{
    match object {
        Seen::Class(class) => static_field(alloc, scope, spot, &class, name, first),
        Seen::Value(known) => value_field(alloc, scope, spot, known, name, first),
        Seen::Faulty | Seen::Text(_) => Ok(Seen::Faulty),
    }
}

#[tactic(auto, unfolding(crate::specs::Settling::faults_at))]
fn static_field(
    alloc: Global,
    scope: &Scope,
    spot: Spot,
    class: &Name,
    name: &Name,
    first: &mut First,
) -> Result<Seen, AllocError>
    ensures { IfOk result (λ seen. Settles scope.now spot (e.Field (Seen.Class class.now) name.now) first.old.fault first.new.fault seen) }
{
    let heads = scope.heads.as_slice();
    let Some((class, field)) = field_that(true, heads, &scope.class, class, name) else {
        first.add(spot.place, 30);
        return Ok(Seen::Faulty);
    };
    let ty = copy_ty(alloc, &field.ty)?;
    let kind = TypedKind::Static {
        class: class.copy(alloc)?,
        name: name.copy(alloc)?,
    };
    variable(alloc, spot.place, ty, kind)
}

/// A field of a value: the length of an array, or a field of an object.
#[tactic(auto, unfolding(crate::specs::Settling::faults_at))]
fn value_field(
    alloc: Global,
    scope: &Scope,
    spot: Spot,
    known: Known,
    name: &Name,
    first: &mut First,
) -> Result<Seen, AllocError>
    ensures { IfOk result (λ seen. Settles scope.now spot (e.Field (Seen.Value known) name.now) first.old.fault first.new.fault seen) }
{
    if is_unknown(&known.expr.get().ty) {
        return variable(alloc, spot.place, Ty::Void, TypedKind::Length(known.expr));
    }
    if !an_array(&known) {
        return object_field(alloc, scope, spot, known, name, first);
    }
    if !first.add_if(spot.place, 30, name.bytes() != b"length".as_slice()) {
        return Ok(Seen::Faulty);
    }
    value(alloc, spot.place, Ty::Int, TypedKind::Length(known.expr))
}

#[tactic(auto, using(crate::proofs::Found::found_behind), unfolding(crate::specs::Settling::faults_at))]
fn object_field(
    alloc: Global,
    scope: &Scope,
    spot: Spot,
    known: Known,
    name: &Name,
    first: &mut First,
) -> Result<Seen, AllocError>
    requires known { is_unknown known.expr.ty ≡ false }
    requires array { an_array known ≡ false }
    ensures { IfOk result (λ seen. Settles scope.now spot (e.Field (Seen.Value known) name.now) first.old.fault first.new.fault seen) }
{
    let Some((class, field)) = instance_field(scope, &known, name) else {
        first.add(spot.place, 30);
        return Ok(Seen::Faulty);
    };
    let ty = copy_ty(alloc, &field.ty)?;
    let kind = TypedKind::Field {
        object: known.expr,
        class: class.copy(alloc)?,
        name: name.copy(alloc)?,
    };
    variable(alloc, spot.place, ty, kind)
}

/// The field of that name of an object that isn't static, with the class that declares it.
fn instance_field<'a>(
    scope: &'a Scope,
    known: &Known,
    name: &Name,
) -> Option<(&'a Name, &'a IfaceField)>
    ensures { field_at result ≡ option_and_then (λ class. field_that false scope.now.heads scope.now.class class name.now) (class_of_value known.now) }
{
    let class = class_of_value(known)?;
    field_that(false, scope.heads.as_slice(), &scope.class, class, name)
}
