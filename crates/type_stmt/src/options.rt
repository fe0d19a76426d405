ghost use Rattle.std.specs.Prelude.{◌≡◌, ◌≤◌, length, IfOk};
ghost use Rattle.type_rules.specs.Statements.{tree_of, tree_option};
ghost use Rattle.type_stmt.specs.Walking.{SeesOption};

use jp_ast::Expr;
use jp_meaning::{TypedExpr, TypedStmt};
use sqlite_items::Boxed;
use std::alloc::{AllocError, Global};
use type_expr::see;
use type_heads::First;
use type_rules::{Role, Scope, Seen};

/// What is seen of an expression that may be left out, and whose value is wanted.
pub(crate) fn see_option(
    alloc: Global,
    scope: &Scope,
    expr: &Option<Expr>,
    first: &mut First,
) -> Result<Option<Seen>, AllocError>
    requires { length scope.now.variables ≤ 255 }
    ensures { IfOk result (λ found. SeesOption scope.now expr.now first.old.fault first.new.fault found) }
{
    match expr {
        Some(expr) => Ok(Some(see(alloc, scope, Role::Operand, expr, first)?)),
        None => Ok(None),
    }
}

/// A part's resolved expression, where it is a value.
pub(crate) fn tree_of(part: Seen) -> Option<TypedExpr>
    ensures { result ≡ tree_of part }
{
    match part {
        Seen::Value(known) => Some(known.expr.into_inner()),
        _ => None,
    }
}

/// The resolved expression of a part that may be left out.
pub(crate) fn tree_option(part: Option<Seen>) -> Option<Option<TypedExpr>>
    ensures { result ≡ tree_option part }
{
    match part {
        Some(part) => Some(Some(tree_of(part)?)),
        None => Some(None),
    }
}

/// A resolved statement, in memory of its own.
pub(crate) fn boxed(
    alloc: Global,
    made: Option<TypedStmt>,
) -> Result<Option<Boxed<TypedStmt>>, AllocError>
    ensures { IfOk result (λ own. own ≡ made) }
{
    match made {
        Some(stmt) => Ok(Some(Boxed::new(alloc, stmt)?)),
        None => Ok(None),
    }
}
