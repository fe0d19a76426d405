ghost use Rattle.std.specs.Prelude.{◌≤◌, length};
ghost use Rattle.type_expr.specs.Typing.{TypesExpr};

use crate::expressions::see;
use jp_ast::Expr;
use jp_meaning::TypedExpr;
use std::alloc::Global;
use type_heads::{First, TypeErr};
use type_rules::{Role, Scope, Seen};

/// The resolved tree of an expression whose value is wanted, where it has no fault, or else its first fault: the first
/// place, and there the least rule.
pub fn type_of(alloc: Global, scope: &Scope, expr: &Expr) -> Result<TypedExpr, TypeErr>
    requires { length scope.now.variables ≤ 255 }
    ensures { TypesExpr scope.now expr.now result }
{
    let mut first = First::none();
    let seen = see(alloc, scope, Role::Operand, expr, &mut first)?;
    if let Some(fault) = first.fault {
        return Err(TypeErr::Fault(fault));
    }
    match seen {
        Seen::Value(known) => Ok(known.expr.into_inner()),
        _ => unreachable!(),
    }
}
