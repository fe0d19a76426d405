ghost use Rattle.std.specs.Prelude.{◌≡◌, ◌≤◌, length, Some, None, IfOk};
ghost use Rattle.jp_ast.specs.declared.expr.ExprKind.TheOpen as e;
ghost use Rattle.type_rules.specs.Names.{variable_of, own_field};
ghost use Rattle.type_rules.specs.Expressions.{own_field_value};
ghost use Rattle.type_expr.specs.Settling.{Settles};

use crate::spot::Spot;
use crate::values::{this, variable};
use iface_codec::IfaceField;
use jp_ast::Place;
use jp_meaning::TypedKind;
use jp_pred::Name;
use std::alloc::{AllocError, Global};
use type_heads::{First, copy_ty, is_class_name, own_field, variable_of};
use type_rules::{Scope, Seen};

/// A name: a variable, else a field of the scope's class, else a class before a dot.
#[tactic(auto, unfolding(crate::specs::Settling::faults_at))]
pub(crate) fn name(
    alloc: Global,
    scope: &Scope,
    spot: Spot,
    name: &Name,
    first: &mut First,
) -> Result<Seen, AllocError>
    requires { length scope.now.variables ≤ 255 }
    ensures { IfOk result (λ seen. Settles scope.now spot (e.Var name.now) first.old.fault first.new.fault seen) }
{
    let Some((slot, ty)) = variable_of(scope, name) else {
        return name_of_class(alloc, scope, spot, name, first);
    };
    let ty = copy_ty(alloc, ty)?;
    variable(alloc, spot.place, ty, TypedKind::Local(slot))
}

/// A name that is no variable's.
fn name_of_class(
    alloc: Global,
    scope: &Scope,
    spot: Spot,
    name: &Name,
    first: &mut First,
) -> Result<Seen, AllocError>
    requires { variable_of scope.now name.now ≡ None }
    ensures { IfOk result (λ seen. Settles scope.now spot (e.Var name.now) first.old.fault first.new.fault seen) }
{
    match own_field(scope, name) {
        Some((class, field)) => field_name(alloc, scope, spot, name, class, field, first),
        None => class_name(alloc, scope, spot, name, first),
    }
}

#[tactic(auto, unfolding(crate::specs::Settling::faults_at))]
fn field_name(
    alloc: Global,
    scope: &Scope,
    spot: Spot,
    name: &Name,
    class: &Name,
    field: &IfaceField,
    first: &mut First,
) -> Result<Seen, AllocError>
    requires variable { variable_of scope.now name.now ≡ None }
    requires field { own_field scope.now name.now ≡ Some (class.now, field.now) }
    ensures { IfOk result (λ seen. Settles scope.now spot (e.Var name.now) first.old.fault first.new.fault seen) }
{
    if !first.add_if(spot.place, 23, scope.is_static && !field.is_static) {
        return Ok(Seen::Faulty);
    }
    resolved_field(alloc, scope, spot.place, name, class, field)
}

fn resolved_field(
    alloc: Global,
    scope: &Scope,
    place: Place,
    name: &Name,
    class: &Name,
    field: &IfaceField,
) -> Result<Seen, AllocError>
    ensures { IfOk result (λ seen. seen ≡ own_field_value scope.now place name.now (class.now, field.now)) }
{
    let ty = copy_ty(alloc, &field.ty)?;
    let class = class.copy(alloc)?;
    let name = name.copy(alloc)?;
    if field.is_static {
        return variable(alloc, place, ty, TypedKind::Static { class, name });
    }
    let object = this(alloc, scope, place)?;
    let kind = TypedKind::Field {
        object,
        class,
        name,
    };
    variable(alloc, place, ty, kind)
}

#[tactic(auto, unfolding(crate::specs::Settling::faults_at))]
fn class_name(
    alloc: Global,
    scope: &Scope,
    spot: Spot,
    name: &Name,
    first: &mut First,
) -> Result<Seen, AllocError>
    requires variable { variable_of scope.now name.now ≡ None }
    requires field { own_field scope.now name.now ≡ None }
    ensures { IfOk result (λ seen. Settles scope.now spot (e.Var name.now) first.old.fault first.new.fault seen) }
{
    if !first.add_if(spot.place, 22, !is_class_name(scope, spot.role, name)) {
        return Ok(Seen::Faulty);
    }
    Ok(Seen::Class(name.copy(alloc)?))
}
