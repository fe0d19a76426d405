ghost use Rattle.std.specs.Prelude.{◌≡◌, IfOk};
ghost use Rattle.jp_ast.specs.declared.expr.ExprKind.TheOpen as e;
ghost use Rattle.type_rules.specs.Expressions.{larger, resolved};
ghost use Rattle.type_expr.specs.Resolving.{unary_value, binary_value};
ghost use Rattle.type_expr.specs.Settling.{Looks, Settles};

use crate::judging::{arent_bits, arent_comparable, cant_join, isnt_boolean, isnt_int};
use crate::signs::{Group, group_of, result_of};
use crate::spot::Spot;
use crate::values::value;
use jp_ast::{Place, sign};
use jp_meaning::{TypedExpr, TypedKind};
use jp_pred::Ty;
use sqlite_items::Boxed;
use std::alloc::{AllocError, Global};
use type_heads::{First, copy_ty, is_unknown, widens_to};
use type_rules::{Known, Scope, Seen};

/// A sign and its operand.
pub(crate) fn unary(
    alloc: Global,
    scope: &Scope,
    spot: Spot,
    sign: u8,
    right: Seen,
    first: &mut First,
) -> Result<Seen, AllocError>
    ensures { IfOk result (λ seen. Settles scope.now spot (e.Unary sign right) first.old.fault first.new.fault seen) }
{
    if !unary_rules(scope, spot, sign, &right, first) {
        return Ok(Seen::Faulty);
    }
    resolved_unary(alloc, spot.place, sign, right)
}

#[tactic(auto, unfolding(crate::specs::Settling::faults_at))]
fn unary_rules(scope: &Scope, spot: Spot, sign: u8, right: &Seen, first: &mut First) -> bool
    ensures { Looks scope.now spot (e.Unary sign right.now) first.old.fault first.new.fault result }
{
    if sign == sign::NOT {
        first.add_if(spot.place, 25, isnt_boolean(right))
    } else {
        first.add_if(spot.place, 24, isnt_int(right))
    }
}

fn resolved_unary(alloc: Global, place: Place, sign: u8, right: Seen) -> Result<Seen, AllocError>
    ensures { IfOk result (λ seen. seen ≡ unary_value place sign right) }
{
    let Seen::Value(right) = right else {
        return Ok(Seen::Faulty);
    };
    let ty = if sign == sign::NOT {
        Ty::Boolean
    } else {
        Ty::Int
    };
    let right = right.expr;
    value(alloc, place, ty, TypedKind::Unary { sign, right })
}

/// A sign between two operands.
pub(crate) fn binary(
    alloc: Global,
    scope: &Scope,
    spot: Spot,
    sign: u8,
    left: Seen,
    right: Seen,
    first: &mut First,
) -> Result<Seen, AllocError>
    ensures { IfOk result (λ seen. Settles scope.now spot (e.Binary sign left right) first.old.fault first.new.fault seen) }
{
    if !binary_rules(scope, spot, sign, &left, &right, first) {
        return Ok(Seen::Faulty);
    }
    resolved_binary(alloc, spot.place, sign, left, right)
}

#[tactic(auto, unfolding(crate::specs::Settling::faults_at))]
fn binary_rules(
    scope: &Scope,
    spot: Spot,
    sign: u8,
    left: &Seen,
    right: &Seen,
    first: &mut First,
) -> bool
    ensures { Looks scope.now spot (e.Binary sign left.now right.now) first.old.fault first.new.fault result }
{
    match group_of(sign) {
        Group::Arithmetic | Group::Order => {
            first.add_if(spot.place, 24, isnt_int(left) || isnt_int(right))
        }
        Group::Logic => { first.add_if(spot.place, 25, isnt_boolean(left) || isnt_boolean(right)) }
        Group::Bits => first.add_if(spot.place, 26, arent_bits(left, right)),
        Group::Equality => {
            let heads = scope.heads.as_slice();
            first.add_if(spot.place, 27, arent_comparable(heads, left, right))
        }
    }
}

fn resolved_binary(
    alloc: Global,
    place: Place,
    sign: u8,
    left: Seen,
    right: Seen,
) -> Result<Seen, AllocError>
    ensures { IfOk result (λ seen. seen ≡ binary_value place sign left right) }
{
    let Seen::Value(left) = left else {
        return Ok(Seen::Faulty);
    };
    let Seen::Value(right) = right else {
        return Ok(Seen::Faulty);
    };
    let ty = result_of(alloc, sign, &left.expr.get().ty, &right.expr.get().ty)?;
    let kind = TypedKind::Binary {
        sign,
        left: left.expr,
        right: right.expr,
    };
    value(alloc, place, ty, kind)
}

/// `test ? yes : no`
pub(crate) fn choice(
    alloc: Global,
    scope: &Scope,
    spot: Spot,
    test: Seen,
    yes: Seen,
    no: Seen,
    first: &mut First,
) -> Result<Seen, AllocError>
    ensures { IfOk result (λ seen. Settles scope.now spot (e.Cond test yes no) first.old.fault first.new.fault seen) }
{
    if !choice_rules(scope, spot, &test, &yes, &no, first) {
        return Ok(Seen::Faulty);
    }
    resolved_choice(alloc, scope, spot.place, test, yes, no)
}

#[tactic(auto, unfolding(crate::specs::Settling::faults_at))]
fn choice_rules(
    scope: &Scope,
    spot: Spot,
    test: &Seen,
    yes: &Seen,
    no: &Seen,
    first: &mut First,
) -> bool
    ensures { Looks scope.now spot (e.Cond test.now yes.now no.now) first.old.fault first.new.fault result }
{
    let is_test = first.add_if(spot.place, 25, isnt_boolean(test));
    let heads = scope.heads.as_slice();
    let is_joined = first.add_if(spot.place, 29, cant_join(heads, yes, no));
    is_test && is_joined
}

fn resolved_choice(
    alloc: Global,
    scope: &Scope,
    place: Place,
    test: Seen,
    yes: Seen,
    no: Seen,
) -> Result<Seen, AllocError>
    ensures { IfOk result (λ seen. seen ≡ resolved scope.now place (e.Cond test yes no)) }
{
    let Seen::Value(test) = test else {
        return Ok(Seen::Faulty);
    };
    let Seen::Value(yes) = yes else {
        return Ok(Seen::Faulty);
    };
    let Seen::Value(no) = no else {
        return Ok(Seen::Faulty);
    };
    let larger = larger(scope, &yes, &no);
    let is_null = larger.is_null;
    let ty = copy_ty(alloc, &larger.expr.get().ty)?;
    let kind = TypedKind::Cond {
        test: test.expr,
        yes: yes.expr,
        no: no.expr,
    };
    Ok(Seen::Value(Known {
        is_null,
        is_variable: false,
        expr: Boxed::new(alloc, TypedExpr { place, ty, kind })?,
    }))
}

/// The one of the two values whose type is that of `?:`.
fn larger<'a>(scope: &Scope, yes: &'a Known, no: &'a Known) -> &'a Known
    ensures { result.now ≡ larger scope.now yes.now no.now }
{
    if is_unknown(&yes.expr.get().ty) {
        yes
    } else if is_unknown(&no.expr.get().ty) {
        no
    } else if widens_to(scope.heads.as_slice(), yes, no) {
        no
    } else {
        yes
    }
}
