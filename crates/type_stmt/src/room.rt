//! That the variables of a part have slots, said where the walk comes to it. Nothing is done when these run.

ghost use Rattle.std.specs.Prelude.{◌≤◌, length};
ghost use Rattle.std.specs.Option.{option_map};
ghost use Rattle.type_rules.specs.Statements.{in_loop, flow_most, flow};

use jp_ast::Stmt;
use sqlite_items::Boxed;
use type_rules::Scope;

pub(crate) fn stmt_fits(scope: &Scope, stmt: &Stmt)
    requires variables { length scope.now.variables ≤ 255 }
    requires most { (flow stmt.now scope.now).most ≤ 255 }
    ensures variables { length scope.now.variables ≤ 255 }
    ensures most { (flow stmt.now scope.now).most ≤ 255 }
{}

pub(crate) fn option_fits(scope: &Scope, stmt: &Option<Boxed<Stmt>>)
    requires variables { length scope.now.variables ≤ 255 }
    requires most { flow_most (option_map flow stmt.now) scope.now ≤ 255 }
    ensures variables { length scope.now.variables ≤ 255 }
    ensures most { flow_most (option_map flow stmt.now) scope.now ≤ 255 }
{}

/// Of the body of a loop.
pub(crate) fn body_fits(scope: &Scope, body: &Stmt)
    requires variables { length scope.now.variables ≤ 255 }
    requires most { (flow body.now (in_loop scope.now)).most ≤ 255 }
    ensures variables { length scope.now.variables ≤ 255 }
    ensures most { (flow body.now (in_loop scope.now)).most ≤ 255 }
{}
