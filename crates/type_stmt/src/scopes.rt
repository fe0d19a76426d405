ghost use Rattle.std.specs.Prelude.{◌≡◌, ◌+◌, ◌<◌, take, length};
ghost use Rattle.type_rules.specs.Names.{receiver_slots};

use sqlite_items::Items;
use type_rules::{Scope, Variable};

/// The slot of the variable that is declared next.
pub(crate) fn next_slot(scope: &Scope) -> u8
    requires { length scope.now.variables < 255 }
    ensures { result ≡ receiver_slots scope.now.is_static + length scope.now.variables }
{
    let begin = if scope.is_static { 0 } else { 1 };
    begin + scope.variables.len() as u8
}

/// Leaves the first so many variables in scope.
pub(crate) fn cut(variables: &mut Items<Variable>, mark: usize)
    ensures { variables.new ≡ take mark variables.old }
{
    while variables.len() > mark {
        variables.pop();
    }
}
