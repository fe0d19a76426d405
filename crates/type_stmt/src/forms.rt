ghost use Rattle.std.specs.Prelude.{◌≡◌};
ghost use Rattle.type_rules.specs.Written.{form_of, is_variable, is_call};

use jp_ast::{Expr, ExprKind};

/// Whether the expression is written as a name, a field or an element.
pub(crate) fn is_variable(expr: &Expr) -> bool
    ensures { result ≡ is_variable (form_of expr.now) }
{
    matches!(
        &expr.kind,
        ExprKind::Var(_) | ExprKind::Field { .. } | ExprKind::Index { .. }
    )
}

/// Whether the expression is written as a call or `new C(..)`.
pub(crate) fn is_call(expr: &Expr) -> bool
    ensures { result ≡ is_call (form_of expr.now) }
{
    matches!(
        &expr.kind,
        ExprKind::Call { .. } | ExprKind::SuperCall { .. } | ExprKind::New { .. }
    )
}
