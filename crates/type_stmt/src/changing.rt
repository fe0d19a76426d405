ghost use Rattle.std.specs.Prelude.{◌≡◌};
ghost use Rattle.std.specs.Option.{option_map};
ghost use Rattle.jp_meaning.specs.declared.stmt.TypedStmtKind.TheVariants as made;
ghost use Rattle.type_rules.specs.Nodes.{Assigns, Bumps, Runs};
ghost use Rattle.type_rules.specs.Statements.{tree_of};
ghost use Rattle.type_rules.specs.Written.{form_of};
ghost use Rattle.type_stmt.specs.Settling.{Looks, Settles};
ghost use Rattle.type_stmt.specs.Kinds.{assign_kind};

use crate::forms::is_call;
use crate::judging::{cant_change, isnt_int, misfits};
use crate::options::tree_of;
use jp_ast::{Expr, Place};
use jp_meaning::{TypedStmt, TypedStmtKind};
use type_heads::First;
use type_rules::{Scope, Seen};

/// `left = right`, `left += right` or `left -= right`
pub(crate) fn assign(
    scope: &Scope,
    place: Place,
    target: &Expr,
    left: Seen,
    sign: u8,
    right: Seen,
    first: &mut First,
) -> Option<TypedStmt>
    ensures { Settles scope.now place (Assigns (form_of target.now) left sign right) first.old.fault first.new.fault (assign_kind left sign right) result }
{
    if !assign_rules(scope, place, target, &left, sign, &right, first) {
        return None;
    }
    let left = tree_of(left)?;
    let right = tree_of(right)?;
    let kind = TypedStmtKind::Assign { left, sign, right };
    Some(TypedStmt { place, kind })
}

#[tactic(auto, unfolding(crate::specs::Settling::faults_at))]
fn assign_rules(
    scope: &Scope,
    place: Place,
    target: &Expr,
    left: &Seen,
    sign: u8,
    right: &Seen,
    first: &mut First,
) -> bool
    ensures { Looks scope.now place (Assigns (form_of target.now) left.now sign right.now) first.old.fault first.new.fault result }
{
    let is_wrong = cant_change(target, left) || misfits(scope, left, sign, right);
    first.add_if(place, 36, is_wrong)
}

/// `left++` where `up`, else `left--`.
pub(crate) fn bump(
    scope: &Scope,
    place: Place,
    target: &Expr,
    left: Seen,
    up: bool,
    first: &mut First,
) -> Option<TypedStmt>
    ensures { Settles scope.now place (Bumps (form_of target.now) left) first.old.fault first.new.fault (option_map (λ l. made.Bump l up) (tree_of left)) result }
{
    if !bump_rules(scope, place, target, &left, first) {
        return None;
    }
    let left = tree_of(left)?;
    let kind = TypedStmtKind::Bump { left, up };
    Some(TypedStmt { place, kind })
}

#[tactic(auto, unfolding(crate::specs::Settling::faults_at))]
fn bump_rules(scope: &Scope, place: Place, target: &Expr, left: &Seen, first: &mut First) -> bool
    ensures { Looks scope.now place (Bumps (form_of target.now) left.now) first.old.fault first.new.fault result }
{
    let is_wrong = cant_change(target, left) || isnt_int(left);
    first.add_if(place, 36, is_wrong)
}

/// An expression that is a statement.
pub(crate) fn alone(
    scope: &Scope,
    place: Place,
    expr: &Expr,
    part: Seen,
    first: &mut First,
) -> Option<TypedStmt>
    ensures { Settles scope.now place (Runs (form_of expr.now)) first.old.fault first.new.fault (option_map (λ x. made.Run x) (tree_of part)) result }
{
    if !alone_rules(scope, place, expr, first) {
        return None;
    }
    let kind = TypedStmtKind::Run(tree_of(part)?);
    Some(TypedStmt { place, kind })
}

#[tactic(auto, unfolding(crate::specs::Settling::faults_at))]
fn alone_rules(scope: &Scope, place: Place, expr: &Expr, first: &mut First) -> bool
    ensures { Looks scope.now place (Runs (form_of expr.now)) first.old.fault first.new.fault result }
{
    first.add_if(place, 36, !is_call(expr))
}
