ghost use Rattle.std.specs.Prelude.{◌≡◌, ◌+◌, ◌-◌, ◌^◌, min};
ghost use Rattle.std.specs.List.{sum_by};
ghost use Rattle.jp_ast.specs.Counts.{of_option, expr_nodes};
ghost use Rattle.unit_limits.specs.Aliases.{guard_aliases};
ghost use Rattle.unit_limits.specs.Locals.{stmt_locals};

use jp_ast::{Expr, GuardExpr, GuardKind, Stmt, StmtKind, nodes_of_expr};
use jp_pred::Name;
use sqlite_items::Boxed;

/// The aliases that a guard makes.
#[cycle(guards)]
pub(crate) fn aliases_of(guard: &GuardExpr) -> u64
    ensures { result ≡ min (guard_aliases guard.now) (2 ^ 64 - 1) }
{
    match &guard.kind {
        GuardKind::Not(right) => aliases_of(right.get()),
        GuardKind::And(left, right) | GuardKind::Or(left, right) => {
            more(aliases_of(left.get()), aliases_of(right.get()))
        }
        GuardKind::Is { alias, .. } => one_if(alias),
        GuardKind::Alias { .. } => 1,
        GuardKind::Truth(_)
        | GuardKind::NullTest { .. }
        | GuardKind::Flag(_)
        | GuardKind::Compare { .. } => 0,
    }
}

fn one_if(name: &Option<Name>) -> u64
    ensures { result ≡ of_option (λ name. 1) name.now }
{
    match name {
        Some(_) => 1,
        None => 0,
    }
}

#[cycle(stmts)]
fn locals_of(stmt: &Stmt) -> u64
    ensures { result ≡ min (stmt_locals stmt.now) (2 ^ 64 - 1) }
{
    match &stmt.kind {
        StmtKind::Block(block) => locals_of_all(block.as_slice()),
        StmtKind::Local { .. } => 1,
        StmtKind::If { test: _, yes, no } => more(locals_of(yes.get()), locals_of_branch(no)),
        StmtKind::While { test: _, body } => locals_of(body.get()),
        StmtKind::For {
            init,
            test: _,
            change,
            body,
        } => more(
            more(locals_of_branch(init), locals_of_branch(change)),
            locals_of(body.get()),
        ),
        StmtKind::Empty
        | StmtKind::Break
        | StmtKind::Continue
        | StmtKind::Return(_)
        | StmtKind::Assign { .. }
        | StmtKind::Bump { .. }
        | StmtKind::Run(_) => 0,
    }
}

#[cycle(stmts)]
fn locals_of_branch(stmt: &Option<Boxed<Stmt>>) -> u64
    ensures { result ≡ min (of_option stmt_locals stmt.now) (2 ^ 64 - 1) }
{
    match stmt {
        Some(stmt) => locals_of(stmt.get()),
        None => 0,
    }
}

/// The locals that statements declare, in all.
#[cycle(stmts)]
pub(crate) fn locals_of_all(all: &[Stmt]) -> u64
    ensures { result ≡ min (sum_by stmt_locals all.now) (2 ^ 64 - 1) }
{
    let mut total = 0;
    for one in all {
        total = more(total, locals_of(one));
    }
    total
}

/// The nodes of expressions.
pub(crate) fn nodes_of_all(all: &[Expr]) -> u64
    ensures { result ≡ min (sum_by expr_nodes all.now) (2 ^ 64 - 1) }
{
    let mut total = 0;
    for one in all {
        total = more(total, nodes_of_expr(one));
    }
    total
}

/// The sum, which stands still at the greatest `u64`.
pub(crate) fn more(count: u64, by: u64) -> u64
    ensures { result ≡ min (count + by) (2 ^ 64 - 1) }
{
    count.saturating_add(by)
}
