ghost use Rattle.std.specs.Prelude.{◌≡◌, ◌-◌, ◌^◌, ◌+◌, min};
ghost use Rattle.std.proofs.Common.{sum_by};
ghost use Rattle.jp_ast.specs.Counts.{expr_nodes, stmt_nodes, body_nodes, summand_nodes, guard_nodes_of, of_option};

use crate::{Expr, ExprKind, GuardExpr, GuardKind, Stmt, StmtKind, Summand};

/// The nodes of a member's statements: each statement and each expression is one. A count above the greatest `u64`
/// is given as that number.
pub fn nodes(block: &[Stmt]) -> u64
    ensures { result ≡ min (body_nodes block.now) (2 ^ 64 - 1) }
{
    all_stmts(block)
}

/// The nodes of a guard: each guard, summand and path step is one. A count above the greatest `u64` is given as
/// that number.
#[cycle(guards)]
pub fn guard_nodes(guard: &GuardExpr) -> u64
    ensures { result ≡ min (guard_nodes_of guard.now) (2 ^ 64 - 1) }
{
    match &guard.kind {
        GuardKind::Truth(_) => 1,
        GuardKind::Not(right) => more(1, guard_nodes(right.get())),
        GuardKind::And(left, right) | GuardKind::Or(left, right) => {
            more(more(1, guard_nodes(left.get())), guard_nodes(right.get()))
        }
        GuardKind::Is { path, .. }
        | GuardKind::Alias { path, .. }
        | GuardKind::NullTest { path, .. }
        | GuardKind::Flag(path) => more(1, path.steps.len() as u64),
        GuardKind::Compare {
            left,
            sign: _,
            right,
        } => more(
            more(1, all_summands(left.as_slice())),
            all_summands(right.as_slice()),
        ),
    }
}

/// The nodes of an expression: it and each expression in it is one. A count above the greatest `u64` is given as
/// that number.
#[cycle(exprs)]
pub fn nodes_of_expr(expr: &Expr) -> u64
    ensures { result ≡ min (expr_nodes expr.now) (2 ^ 64 - 1) }
{
    match &expr.kind {
        ExprKind::Number { .. }
        | ExprKind::Truth(_)
        | ExprKind::Null
        | ExprKind::Text(_)
        | ExprKind::This
        | ExprKind::Var(_) => 1,
        ExprKind::Unary { sign: _, right } => more(1, nodes_of_expr(right.get())),
        ExprKind::Binary {
            sign: _,
            left,
            right,
        } => more(
            more(1, nodes_of_expr(left.get())),
            nodes_of_expr(right.get()),
        ),
        ExprKind::Cond { test, yes, no } => more(
            more(more(1, nodes_of_expr(test.get())), nodes_of_expr(yes.get())),
            nodes_of_expr(no.get()),
        ),
        ExprKind::Cast { class: _, value } => more(1, nodes_of_expr(value.get())),
        ExprKind::InstanceOf { value, class: _ } => more(1, nodes_of_expr(value.get())),
        ExprKind::Field { object, name: _ } => more(1, nodes_of_expr(object.get())),
        ExprKind::Index { array, index } => more(
            more(1, nodes_of_expr(array.get())),
            nodes_of_expr(index.get()),
        ),
        ExprKind::Call {
            object: Some(object),
            name: _,
            args,
        } => more(
            more(1, nodes_of_expr(object.get())),
            all_exprs(args.as_slice()),
        ),
        ExprKind::Call {
            object: None,
            name: _,
            args,
        } => more(1, all_exprs(args.as_slice())),
        ExprKind::SuperCall { name: _, args } => more(1, all_exprs(args.as_slice())),
        ExprKind::New { class: _, args } => more(1, all_exprs(args.as_slice())),
        ExprKind::NewArray { elem: _, size } => more(1, nodes_of_expr(size.get())),
    }
}

#[cycle(exprs)]
fn all_exprs(all: &[Expr]) -> u64
    ensures { result ≡ min (sum_by expr_nodes all.now) (2 ^ 64 - 1) }
{
    let mut total = 0;
    for one in all {
        total = more(total, nodes_of_expr(one));
    }
    total
}

#[cycle(stmts)]
fn nodes_of_stmt(stmt: &Stmt) -> u64
    ensures { result ≡ min (stmt_nodes stmt.now) (2 ^ 64 - 1) }
{
    match &stmt.kind {
        StmtKind::Block(block) => more(1, all_stmts(block.as_slice())),
        StmtKind::Empty | StmtKind::Break | StmtKind::Continue => 1,
        StmtKind::Local {
            ty: _,
            name: _,
            value,
        } => more(1, nodes_of_option(value)),
        StmtKind::If {
            test,
            yes,
            no: Some(no),
        } => more(
            more(more(1, nodes_of_expr(test)), nodes_of_stmt(yes.get())),
            nodes_of_stmt(no.get()),
        ),
        StmtKind::If {
            test,
            yes,
            no: None,
        } => more(more(1, nodes_of_expr(test)), nodes_of_stmt(yes.get())),
        StmtKind::While { test, body } => more(
            more(1, nodes_of_expr(test)),
            nodes_of_stmt(body.get()),
        ),
        StmtKind::For {
            init,
            test,
            change,
            body,
        } => {
            let head = match init {
                Some(init) => more(1, nodes_of_stmt(init.get())),
                None => 1,
            };
            let tail = match change {
                Some(change) => more(nodes_of_option(test), nodes_of_stmt(change.get())),
                None => nodes_of_option(test),
            };
            more(more(head, tail), nodes_of_stmt(body.get()))
        }
        StmtKind::Return(value) => more(1, nodes_of_option(value)),
        StmtKind::Assign {
            left,
            sign: _,
            right,
        } => more(more(1, nodes_of_expr(left)), nodes_of_expr(right)),
        StmtKind::Bump { left, up: _ } => more(1, nodes_of_expr(left)),
        StmtKind::Run(value) => more(1, nodes_of_expr(value)),
    }
}

#[cycle(stmts)]
fn all_stmts(all: &[Stmt]) -> u64
    ensures { result ≡ min (sum_by stmt_nodes all.now) (2 ^ 64 - 1) }
{
    let mut total = 0;
    for one in all {
        total = more(total, nodes_of_stmt(one));
    }
    total
}

fn nodes_of_option(value: &Option<Expr>) -> u64
    ensures { result ≡ min (of_option expr_nodes value.now) (2 ^ 64 - 1) }
{
    match value {
        Some(value) => nodes_of_expr(value),
        None => 0,
    }
}

fn all_summands(all: &[Summand]) -> u64
    ensures { result ≡ min (sum_by summand_nodes all.now) (2 ^ 64 - 1) }
{
    let mut total = 0;
    for one in all {
        total = more(total, nodes_of_summand(one));
    }
    total
}

fn nodes_of_summand(summand: &Summand) -> u64
    ensures { result ≡ min (summand_nodes summand.now) (2 ^ 64 - 1) }
{
    match &summand.path {
        Some(path) => more(1, path.steps.len() as u64),
        None => 1,
    }
}

/// The sum, which stands still at the greatest `u64`.
fn more(count: u64, by: u64) -> u64
    ensures { result ≡ min (count + by) (2 ^ 64 - 1) }
{
    count.saturating_add(by)
}
