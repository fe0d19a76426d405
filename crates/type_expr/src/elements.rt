ghost use Rattle.std.specs.Prelude.{◌≡◌, IfOk};
ghost use Rattle.jp_ast.specs.declared.expr.ExprKind.TheOpen as e;
ghost use Rattle.type_rules.specs.Expressions.{element_of, array_of};
ghost use Rattle.type_expr.specs.Resolving.{index_value, new_array_value};
ghost use Rattle.type_expr.specs.Settling.{Looks, Settles};

use crate::judging::{isnt_array, isnt_int};
use crate::spot::Spot;
use crate::values::{value, variable};
use jp_ast::Place;
use jp_meaning::TypedKind;
use jp_pred::Ty;
use std::alloc::{AllocError, Global};
use type_heads::{First, copy_ty, is_refused};
use type_rules::{Scope, Seen};

/// `array[index]`
pub(crate) fn element(
    alloc: Global,
    scope: &Scope,
    spot: Spot,
    array: Seen,
    index: Seen,
    first: &mut First,
) -> Result<Seen, AllocError>
    ensures { IfOk result (λ seen. Settles scope.now spot (e.Index array index) first.old.fault first.new.fault seen) }
{
    if !element_rules(scope, spot, &array, &index, first) {
        return Ok(Seen::Faulty);
    }
    resolved_element(alloc, spot.place, array, index)
}

#[tactic(auto, unfolding(crate::specs::Settling::faults_at))]
fn element_rules(scope: &Scope, spot: Spot, array: &Seen, index: &Seen, first: &mut First) -> bool
    ensures { Looks scope.now spot (e.Index array.now index.now) first.old.fault first.new.fault result }
{
    first.add_if(spot.place, 31, isnt_array(array) || isnt_int(index))
}

fn resolved_element(
    alloc: Global,
    place: Place,
    array: Seen,
    index: Seen,
) -> Result<Seen, AllocError>
    ensures { IfOk result (λ seen. seen ≡ index_value place array index) }
{
    let Seen::Value(array) = array else {
        return Ok(Seen::Faulty);
    };
    let Seen::Value(index) = index else {
        return Ok(Seen::Faulty);
    };
    let ty = element_of(alloc, &array.expr.get().ty)?;
    let kind = TypedKind::Index {
        array: array.expr,
        index: index.expr,
    };
    variable(alloc, place, ty, kind)
}

/// The type of an array's elements.
fn element_of(alloc: Global, array: &Ty) -> Result<Ty, AllocError>
    ensures { IfOk result (λ ty. ty ≡ element_of array.now) }
{
    match array {
        Ty::IntArray => Ok(Ty::Int),
        Ty::BooleanArray => Ok(Ty::Boolean),
        Ty::ClassArray(name) => Ok(Ty::Class(name.copy(alloc)?)),
        _ => Ok(Ty::Void),
    }
}

/// `new elem[size]`
pub(crate) fn new_array(
    alloc: Global,
    scope: &Scope,
    spot: Spot,
    elem: &Ty,
    size: Seen,
    first: &mut First,
) -> Result<Seen, AllocError>
    ensures { IfOk result (λ seen. Settles scope.now spot (e.NewArray elem.now size) first.old.fault first.new.fault seen) }
{
    if !new_array_rules(scope, spot, elem, &size, first) {
        return Ok(Seen::Faulty);
    }
    resolved_new_array(alloc, spot.place, elem, size)
}

#[tactic(auto, unfolding(crate::specs::Settling::faults_at))]
fn new_array_rules(scope: &Scope, spot: Spot, elem: &Ty, size: &Seen, first: &mut First) -> bool
    ensures { Looks scope.now spot (e.NewArray elem.now size.now) first.old.fault first.new.fault result }
{
    let is_type = first.add_if(spot.place, 2, is_refused(elem));
    let is_size = first.add_if(spot.place, 31, isnt_int(size));
    is_type && is_size
}

fn resolved_new_array(
    alloc: Global,
    place: Place,
    elem: &Ty,
    size: Seen,
) -> Result<Seen, AllocError>
    ensures { IfOk result (λ seen. seen ≡ new_array_value place elem.now size) }
{
    let Seen::Value(size) = size else {
        return Ok(Seen::Faulty);
    };
    let kind = TypedKind::NewArray {
        elem: copy_ty(alloc, elem)?,
        size: size.expr,
    };
    value(alloc, place, array_of(alloc, elem)?, kind)
}

/// The type of an array with such elements.
fn array_of(alloc: Global, elem: &Ty) -> Result<Ty, AllocError>
    ensures { IfOk result (λ ty. ty ≡ array_of elem.now) }
{
    match elem {
        Ty::Int => Ok(Ty::IntArray),
        Ty::Boolean => Ok(Ty::BooleanArray),
        Ty::Class(name) => Ok(Ty::ClassArray(name.copy(alloc)?)),
        _ => Ok(Ty::Void),
    }
}
