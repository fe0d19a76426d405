ghost use Rattle.std.specs.Prelude.{◌≡◌, ◌≤◌, length, take, IfOk, OnOk};
ghost use Rattle.std.specs.Option.{option_map};
ghost use Rattle.jp_meaning.specs.declared.guard.TypedGuardKind.TheVariants as kind;
ghost use Rattle.type_rules.specs.Guards.{inner, guard_at, both};
ghost use Rattle.type_guards.specs.Walking.{Walks, Keeps, Compares, compared, left_to};

use crate::atoms::{alias, flag, node, null_test, test};
use crate::summands::summands;
use jp_ast::{GuardExpr, GuardKind, Place, Summand};
use jp_meaning::{TypedGuard, TypedGuardKind, TypedSummand};
use sqlite_items::{Boxed, Items};
use std::alloc::{AllocError, Global};
use type_heads::First;
use type_rules::{GuardScope, Narrowed};

/// The resolved guard, where it has no fault, and the first fault so far, which takes in those of its nodes. The scope
/// is left as it is to the right of the guard: with its aliases, and with what its tests say. A guard has at most 255
/// parameters, so that each has a root. The scope isn't to be used after a want of memory.
pub fn guarded(
    alloc: Global,
    scope: &mut GuardScope,
    guard: &GuardExpr,
    first: &mut First,
) -> Result<Option<Boxed<TypedGuard>>, AllocError>
    requires { length scope.old.params ≤ 255 }
    ensures walks { IfOk result (λ made. Walks guard.now scope.old scope.new first.old.fault first.new.fault made) }
    ensures keeps { OnOk result (Keeps scope.old scope.new) }
{
    let place = guard.place;
    match &guard.kind {
        GuardKind::Truth(value) => node(alloc, place, TypedGuardKind::Truth(*value)),
        GuardKind::Not(right) => {
            let (mark, outermost) = enter(scope);
            let right = guarded(alloc, scope, right.get(), first)?;
            leave(scope, mark, outermost);
            negation(alloc, place, right)
        }
        GuardKind::And(left, right) => {
            let left = guarded(alloc, scope, left.get(), first)?;
            let right = guarded(alloc, scope, right.get(), first)?;
            conjunction(alloc, place, left, right)
        }
        GuardKind::Or(left, right) => {
            let (mark, outermost) = enter(scope);
            let left = guarded(alloc, scope, left.get(), first)?;
            leave(scope, mark, false);
            let right = guarded(alloc, scope, right.get(), first)?;
            leave(scope, mark, outermost);
            disjunction(alloc, place, left, right)
        }
        GuardKind::Is { path, class, alias } => test(
            alloc, scope, place, path, class, alias, first,
        ),
        GuardKind::Alias { path, name } => alias(alloc, scope, place, path, name, first),
        GuardKind::NullTest { path, equal } => {
            null_test(alloc, scope, place, path, *equal, first)
        }
        GuardKind::Flag(path) => flag(alloc, scope, place, path, first),
        GuardKind::Compare { left, sign, right } => {
            let (left, right) = (left.as_slice(), right.as_slice());
            comparison(alloc, scope, place, left, *sign, right, first)
        }
    }
}

/// Goes inside: what stands there isn't reached through `&&` alone. Answers how many tests were said outside, and
/// whether that was reached so.
fn enter(scope: &mut GuardScope) -> (usize, bool)
    ensures mark { result.0 ≡ length scope.old.tests }
    ensures outermost { result.1 ≡ scope.old.is_outermost }
    ensures inside { scope.new ≡ inner scope.old }
{
    let outside = (scope.tests.len(), scope.is_outermost);
    scope.is_outermost = false;
    outside
}

/// Goes outside again, or to the other side: what the tests inside say isn't known there.
fn leave(scope: &mut GuardScope, mark: usize, outermost: bool)
    ensures { scope.new ≡ left_to scope.old mark outermost }
{
    cut(&mut scope.tests, mark);
    scope.is_outermost = outermost;
}

fn cut(tests: &mut Items<Narrowed>, mark: usize)
    ensures { tests.new ≡ take mark tests.old }
{
    while tests.len() > mark {
        tests.pop();
    }
}

fn negation(
    alloc: Global,
    place: Place,
    right: Option<Boxed<TypedGuard>>,
) -> Result<Option<Boxed<TypedGuard>>, AllocError>
    ensures { IfOk result (λ made. made ≡ option_map (guard_at place) (option_map (λ r. kind.Not r) right)) }
{
    match right {
        Some(right) => node(alloc, place, TypedGuardKind::Not(right)),
        None => Ok(None),
    }
}

fn conjunction(
    alloc: Global,
    place: Place,
    left: Option<Boxed<TypedGuard>>,
    right: Option<Boxed<TypedGuard>>,
) -> Result<Option<Boxed<TypedGuard>>, AllocError>
    ensures { IfOk result (λ made. made ≡ option_map (guard_at place) (both (λ l r. kind.And l r) left right)) }
{
    let Some(left) = left else {
        return Ok(None);
    };
    let Some(right) = right else {
        return Ok(None);
    };
    node(alloc, place, TypedGuardKind::And(left, right))
}

fn disjunction(
    alloc: Global,
    place: Place,
    left: Option<Boxed<TypedGuard>>,
    right: Option<Boxed<TypedGuard>>,
) -> Result<Option<Boxed<TypedGuard>>, AllocError>
    ensures { IfOk result (λ made. made ≡ option_map (guard_at place) (both (λ l r. kind.Or l r) left right)) }
{
    let Some(left) = left else {
        return Ok(None);
    };
    let Some(right) = right else {
        return Ok(None);
    };
    node(alloc, place, TypedGuardKind::Or(left, right))
}

fn comparison(
    alloc: Global,
    scope: &GuardScope,
    place: Place,
    left: &[Summand],
    sign: u8,
    right: &[Summand],
    first: &mut First,
) -> Result<Option<Boxed<TypedGuard>>, AllocError>
    requires { length scope.now.params ≤ 255 }
    ensures { IfOk result (λ made. Compares scope.now place left.now sign right.now first.old.fault first.new.fault made) }
{
    let left = summands(alloc, scope, left, first)?;
    let right = summands(alloc, scope, right, first)?;
    let made = compared(alloc, place, left, sign, right)?;
    Ok(made)
}

fn compared(
    alloc: Global,
    place: Place,
    left: Option<Items<TypedSummand>>,
    sign: u8,
    right: Option<Items<TypedSummand>>,
) -> Result<Option<Boxed<TypedGuard>>, AllocError>
    ensures { IfOk result (λ made. made ≡ compared place left sign right) }
{
    let Some(left) = left else {
        return Ok(None);
    };
    let Some(right) = right else {
        return Ok(None);
    };
    node(alloc, place, TypedGuardKind::Compare { left, sign, right })
}
