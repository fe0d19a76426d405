ghost use Rattle.std.specs.Prelude.{◌≡◌};
ghost use Rattle.std.specs.List.{flat_map};
ghost use Rattle.type_rules.specs.ClassNames.{known_names};
ghost use Rattle.own_names.specs.Naming.{first_unknown, in_option};
ghost use Rattle.own_names.specs.Trees.{expr_names, stmt_names, guard_names};

use crate::classes::{outside, outside_in_type};
use jp_ast::{Expr, ExprKind, GuardExpr, GuardKind, Place, SourceUnit, Stmt, StmtKind};
use sqlite_items::Boxed;

/// The first place in an expression that names a class from outside the unit.
#[cycle(exprs)]
fn outside_in_expr(expr: &Expr, unit: &SourceUnit) -> Option<Place>
    ensures { result ≡ first_unknown (known_names unit.now) (expr_names expr.now) }
{
    match &expr.kind {
        ExprKind::Number { .. }
        | ExprKind::Truth(_)
        | ExprKind::Null
        | ExprKind::Text(_)
        | ExprKind::This
        | ExprKind::Var(_) => None,
        ExprKind::Unary { sign: _, right } => outside_in_expr(right.get(), unit),
        ExprKind::Binary {
            sign: _,
            left,
            right,
        } => outside_in_expr(left.get(), unit).or(outside_in_expr(right.get(), unit)),
        ExprKind::Cond { test, yes, no } => outside_in_expr(test.get(), unit)
            .or(outside_in_expr(yes.get(), unit))
            .or(outside_in_expr(no.get(), unit)),
        ExprKind::Cast { class, value } => {
            outside(class, expr.place, unit).or(outside_in_expr(value.get(), unit))
        }
        ExprKind::InstanceOf { value, class } => {
            outside_in_expr(value.get(), unit).or(outside(class, expr.place, unit))
        }
        ExprKind::Field { object, name: _ } => outside_in_expr(object.get(), unit),
        ExprKind::Index { array, index } => {
            outside_in_expr(array.get(), unit).or(outside_in_expr(index.get(), unit))
        }
        ExprKind::Call {
            object,
            name: _,
            args,
        } => outside_in_object(object, unit).or(outside_in_exprs(args.as_slice(), unit)),
        ExprKind::SuperCall { name: _, args } => outside_in_exprs(args.as_slice(), unit),
        ExprKind::New { class, args } => {
            outside(class, expr.place, unit).or(outside_in_exprs(args.as_slice(), unit))
        }
        ExprKind::NewArray { elem, size } => {
            outside_in_type(elem, expr.place, unit).or(outside_in_expr(size.get(), unit))
        }
    }
}

#[cycle(exprs)]
fn outside_in_object(object: &Option<Boxed<Expr>>, unit: &SourceUnit) -> Option<Place>
    ensures { result ≡ first_unknown (known_names unit.now) (in_option expr_names object.now) }
{
    match object {
        Some(object) => outside_in_expr(object.get(), unit),
        None => None,
    }
}

/// The same in expressions one after another.
#[cycle(exprs)]
#[tactic(auto, using(crate::proofs::Firsts::found, crate::proofs::Firsts::passed, crate::proofs::Firsts::none_left))]
pub(crate) fn outside_in_exprs(all: &[Expr], unit: &SourceUnit) -> Option<Place>
    ensures { result ≡ first_unknown (known_names unit.now) (flat_map expr_names all.now) }
{
    for one in all {
        if let Some(first) = outside_in_expr(one, unit) {
            return Some(first);
        }
    }
    None
}

fn outside_in_value(value: &Option<Expr>, unit: &SourceUnit) -> Option<Place>
    ensures { result ≡ first_unknown (known_names unit.now) (in_option expr_names value.now) }
{
    match value {
        Some(value) => outside_in_expr(value, unit),
        None => None,
    }
}

/// The first place in a statement that names a class from outside the unit.
#[cycle(stmts)]
fn outside_in_stmt(stmt: &Stmt, unit: &SourceUnit) -> Option<Place>
    ensures { result ≡ first_unknown (known_names unit.now) (stmt_names stmt.now) }
{
    match &stmt.kind {
        StmtKind::Block(block) => outside_in_stmts(block.as_slice(), unit),
        StmtKind::Empty | StmtKind::Break | StmtKind::Continue => None,
        StmtKind::Local { ty, name: _, value } => {
            outside_in_type(ty, stmt.place, unit).or(outside_in_value(value, unit))
        }
        StmtKind::If { test, yes, no } => outside_in_expr(test, unit)
            .or(outside_in_stmt(yes.get(), unit))
            .or(outside_in_branch(no, unit)),
        StmtKind::While { test, body } => {
            outside_in_expr(test, unit).or(outside_in_stmt(body.get(), unit))
        }
        StmtKind::For {
            init,
            test,
            change,
            body,
        } => outside_in_branch(init, unit)
            .or(outside_in_value(test, unit))
            .or(outside_in_branch(change, unit))
            .or(outside_in_stmt(body.get(), unit)),
        StmtKind::Return(value) => outside_in_value(value, unit),
        StmtKind::Assign {
            left,
            sign: _,
            right,
        } => outside_in_expr(left, unit).or(outside_in_expr(right, unit)),
        StmtKind::Bump { left, up: _ } => outside_in_expr(left, unit),
        StmtKind::Run(value) => outside_in_expr(value, unit),
    }
}

#[cycle(stmts)]
fn outside_in_branch(stmt: &Option<Boxed<Stmt>>, unit: &SourceUnit) -> Option<Place>
    ensures { result ≡ first_unknown (known_names unit.now) (in_option stmt_names stmt.now) }
{
    match stmt {
        Some(stmt) => outside_in_stmt(stmt.get(), unit),
        None => None,
    }
}

/// The same in statements one after another.
#[cycle(stmts)]
#[tactic(auto, using(crate::proofs::Firsts::found, crate::proofs::Firsts::passed, crate::proofs::Firsts::none_left))]
pub(crate) fn outside_in_stmts(all: &[Stmt], unit: &SourceUnit) -> Option<Place>
    ensures { result ≡ first_unknown (known_names unit.now) (flat_map stmt_names all.now) }
{
    for one in all {
        if let Some(first) = outside_in_stmt(one, unit) {
            return Some(first);
        }
    }
    None
}

/// The first place in a guard that tests for a class from outside the unit.
#[cycle(guards)]
pub(crate) fn outside_in_guard(guard: &GuardExpr, unit: &SourceUnit) -> Option<Place>
    ensures { result ≡ first_unknown (known_names unit.now) (guard_names guard.now) }
{
    match &guard.kind {
        GuardKind::Not(right) => outside_in_guard(right.get(), unit),
        GuardKind::And(left, right) => {
            outside_in_guard(left.get(), unit).or(outside_in_guard(right.get(), unit))
        }
        GuardKind::Or(left, right) => {
            outside_in_guard(left.get(), unit).or(outside_in_guard(right.get(), unit))
        }
        GuardKind::Is {
            path: _,
            class,
            alias: _,
        } => outside(class, guard.place, unit),
        GuardKind::Truth(_)
        | GuardKind::Alias { .. }
        | GuardKind::NullTest { .. }
        | GuardKind::Flag(_)
        | GuardKind::Compare { .. } => None,
    }
}
