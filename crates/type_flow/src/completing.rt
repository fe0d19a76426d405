ghost use Rattle.std.specs.Prelude.{◌≡◌};
ghost use Rattle.std.specs.List.{list_all, list_any};
ghost use Rattle.type_rules.specs.Completing.{leaves, can_complete};
ghost use Rattle.type_rules.specs.Written.{form_of, is_true};

use jp_ast::{Expr, ExprKind, Stmt, StmtKind};

/// Whether statements one after another can complete.
pub fn can_complete(block: &[Stmt]) -> bool
    ensures { result ≡ can_complete block.now }
{
    all_complete(block)
}

/// Whether the statement can complete. A loop without end does so by a `break` of its own alone.
#[cycle(completes)]
fn completes(stmt: &Stmt) -> bool
    ensures { result ≡ (leaves stmt.now).completes }
{
    match &stmt.kind {
        StmtKind::Block(all) => all_complete(all.as_slice()),
        StmtKind::If { yes, no, .. } => {
            completes(yes.get())
                || match no {
                    Some(no) => completes(no.get()),
                    None => true,
                }
        }
        StmtKind::While { test, body } => !is_true(test) || breaks(body.get()),
        StmtKind::For { test, body, .. } => match test {
            Some(test) => !is_true(test) || breaks(body.get()),
            None => breaks(body.get()),
        },
        StmtKind::Break | StmtKind::Continue | StmtKind::Return(_) => false,
        StmtKind::Empty
        | StmtKind::Local { .. }
        | StmtKind::Assign { .. }
        | StmtKind::Bump { .. }
        | StmtKind::Run(_) => true,
    }
}

#[cycle(completes)]
fn all_complete(block: &[Stmt]) -> bool
    ensures { result ≡ list_all (λ x. (leaves x).completes) block.now }
{
    for stmt in block {
        if !completes(stmt) {
            return false;
        }
    }
    true
}

/// Whether the statement holds a `break` that isn't of a loop in it.
#[cycle(breaks)]
fn breaks(stmt: &Stmt) -> bool
    ensures { result ≡ (leaves stmt.now).breaks }
{
    match &stmt.kind {
        StmtKind::Block(all) => any_breaks(all.as_slice()),
        StmtKind::If { yes, no, .. } => {
            breaks(yes.get())
                || match no {
                    Some(no) => breaks(no.get()),
                    None => false,
                }
        }
        StmtKind::Break => true,
        StmtKind::Empty
        | StmtKind::Local { .. }
        | StmtKind::While { .. }
        | StmtKind::For { .. }
        | StmtKind::Continue
        | StmtKind::Return(_)
        | StmtKind::Assign { .. }
        | StmtKind::Bump { .. }
        | StmtKind::Run(_) => false,
    }
}

#[cycle(breaks)]
fn any_breaks(block: &[Stmt]) -> bool
    ensures { result ≡ list_any (λ x. (leaves x).breaks) block.now }
{
    for stmt in block {
        if breaks(stmt) {
            return true;
        }
    }
    false
}

/// Whether the expression is written `true`.
fn is_true(expr: &Expr) -> bool
    ensures { result ≡ is_true (form_of expr.now) }
{
    matches!(&expr.kind, ExprKind::Truth(true))
}
