ghost use Rattle.std.specs.Prelude.{◌≡◌};
ghost use Rattle.std.specs.List.{flat_map};
ghost use Rattle.unit_limits.specs.Counting.{first_told};
ghost use Rattle.unit_limits.specs.Texts.{in_option, expr_texts, stmt_texts};

use crate::limits::{Limit, TooLarge, over};
use jp_ast::{Expr, ExprKind, Stmt, StmtKind};
use sqlite_items::Boxed;

/// The first text in an expression that is too long.
#[cycle(exprs)]
fn over_in_expr(expr: &Expr) -> Option<TooLarge>
    ensures { result ≡ first_told (expr_texts expr.now) }
{
    match &expr.kind {
        ExprKind::Number { .. }
        | ExprKind::Truth(_)
        | ExprKind::Null
        | ExprKind::This
        | ExprKind::Var(_) => None,
        ExprKind::Text(text) => over(Limit::Text, text.bytes().len() as u64),
        ExprKind::Unary { sign: _, right } => over_in_expr(right.get()),
        ExprKind::Binary {
            sign: _,
            left,
            right,
        } => over_in_expr(left.get()).or(over_in_expr(right.get())),
        ExprKind::Cond { test, yes, no } => over_in_expr(test.get())
            .or(over_in_expr(yes.get()))
            .or(over_in_expr(no.get())),
        ExprKind::Cast { class: _, value } => over_in_expr(value.get()),
        ExprKind::InstanceOf { value, class: _ } => over_in_expr(value.get()),
        ExprKind::Field { object, name: _ } => over_in_expr(object.get()),
        ExprKind::Index { array, index } => {
            over_in_expr(array.get()).or(over_in_expr(index.get()))
        }
        ExprKind::Call {
            object,
            name: _,
            args,
        } => over_in_object(object).or(over_in_exprs(args.as_slice())),
        ExprKind::SuperCall { name: _, args } => over_in_exprs(args.as_slice()),
        ExprKind::New { class: _, args } => over_in_exprs(args.as_slice()),
        ExprKind::NewArray { elem: _, size } => over_in_expr(size.get()),
    }
}

#[cycle(exprs)]
fn over_in_object(object: &Option<Boxed<Expr>>) -> Option<TooLarge>
    ensures { result ≡ first_told (in_option expr_texts object.now) }
{
    match object {
        Some(object) => over_in_expr(object.get()),
        None => None,
    }
}

/// The first text in expressions one after another that is too long.
#[cycle(exprs)]
#[tactic(auto, using(crate::proofs::Firsts::found, crate::proofs::Firsts::passed, crate::proofs::Firsts::none_left))]
pub(crate) fn over_in_exprs(all: &[Expr]) -> Option<TooLarge>
    ensures { result ≡ first_told (flat_map expr_texts all.now) }
{
    for one in all {
        if let Some(over) = over_in_expr(one) {
            return Some(over);
        }
    }
    None
}

fn over_in_value(value: &Option<Expr>) -> Option<TooLarge>
    ensures { result ≡ first_told (in_option expr_texts value.now) }
{
    match value {
        Some(value) => over_in_expr(value),
        None => None,
    }
}

/// The first text in a statement that is too long.
#[cycle(stmts)]
fn over_in_stmt(stmt: &Stmt) -> Option<TooLarge>
    ensures { result ≡ first_told (stmt_texts stmt.now) }
{
    match &stmt.kind {
        StmtKind::Block(block) => over_in_stmts(block.as_slice()),
        StmtKind::Empty | StmtKind::Break | StmtKind::Continue => None,
        StmtKind::Local {
            ty: _,
            name: _,
            value,
        } => over_in_value(value),
        StmtKind::If { test, yes, no } => over_in_expr(test)
            .or(over_in_stmt(yes.get()))
            .or(over_in_branch(no)),
        StmtKind::While { test, body } => over_in_expr(test).or(over_in_stmt(body.get())),
        StmtKind::For {
            init,
            test,
            change,
            body,
        } => over_in_branch(init)
            .or(over_in_value(test))
            .or(over_in_branch(change))
            .or(over_in_stmt(body.get())),
        StmtKind::Return(value) => over_in_value(value),
        StmtKind::Assign {
            left,
            sign: _,
            right,
        } => over_in_expr(left).or(over_in_expr(right)),
        StmtKind::Bump { left, up: _ } => over_in_expr(left),
        StmtKind::Run(value) => over_in_expr(value),
    }
}

#[cycle(stmts)]
fn over_in_branch(stmt: &Option<Boxed<Stmt>>) -> Option<TooLarge>
    ensures { result ≡ first_told (in_option stmt_texts stmt.now) }
{
    match stmt {
        Some(stmt) => over_in_stmt(stmt.get()),
        None => None,
    }
}

/// The first text in statements one after another that is too long.
#[cycle(stmts)]
#[tactic(auto, using(crate::proofs::Firsts::found, crate::proofs::Firsts::passed, crate::proofs::Firsts::none_left))]
pub(crate) fn over_in_stmts(all: &[Stmt]) -> Option<TooLarge>
    ensures { result ≡ first_told (flat_map stmt_texts all.now) }
{
    for one in all {
        if let Some(over) = over_in_stmt(one) {
            return Some(over);
        }
    }
    None
}
