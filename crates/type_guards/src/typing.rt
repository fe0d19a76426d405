ghost use Rattle.std.specs.Prelude.{◌≤◌, length};
ghost use Rattle.type_guards.specs.Typing.{TypesGuard, Leaves};

use crate::guards::guarded;
use jp_ast::GuardExpr;
use jp_meaning::TypedGuard;
use std::alloc::Global;
use type_heads::{First, TypeErr};
use type_rules::GuardScope;

/// The resolved tree of a guard without a fault, or else its first fault: the first place, and there the least rule. The
/// scope is left as it is behind the guard, with its aliases, unless memory is wanting.
pub fn type_guard(
    alloc: Global,
    scope: &mut GuardScope,
    guard: &GuardExpr,
) -> Result<TypedGuard, TypeErr>
    requires { length scope.old.params ≤ 255 }
    ensures answer { TypesGuard scope.old guard.now result }
    ensures after { Leaves scope.old guard.now scope.new result }
{
    let mut first = First::none();
    let made = guarded(alloc, scope, guard, &mut first)?;
    if let Some(fault) = first.fault {
        return Err(TypeErr::Fault(fault));
    }
    match made {
        Some(guard) => Ok(guard.into_inner()),
        None => unreachable!(),
    }
}
