ghost use Rattle.std.specs.Prelude.{◌≤◌, map};
ghost use Rattle.type_rules.specs.Statements.{count, most_along, flow};
ghost use Rattle.type_stmt.specs.Typing.{TypesBlock, Keeps};

use crate::scopes::cut;
use crate::statements::walk_all;
use jp_ast::Stmt;
use jp_meaning::TypedStmt;
use sqlite_items::Items;
use std::alloc::Global;
use type_heads::{First, TypeErr};
use type_rules::Scope;

/// The resolved trees of statements without a fault, one after another in the scope, or else their first fault: the first
/// place, and there the least rule. The scope is left as it was, unless memory is wanting. At most 255 variables are in
/// scope at once.
pub fn type_block(
    alloc: Global,
    scope: &mut Scope,
    block: &[Stmt],
) -> Result<Items<TypedStmt>, TypeErr>
    requires { most_along (count scope.old) (map flow block.now) scope.old ≤ 255 }
    ensures answer { TypesBlock scope.old block.now result }
    ensures keeps { Keeps scope.old scope.new result }
{
    let mut first = First::none();
    let mark = scope.variables.len();
    let made = walk_all(alloc, scope, block, &mut first)?;
    cut(&mut scope.variables, mark);
    if let Some(fault) = first.fault {
        return Err(TypeErr::Fault(fault));
    }
    match made {
        Some(all) => Ok(all),
        None => unreachable!(),
    }
}
