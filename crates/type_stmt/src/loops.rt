ghost use Rattle.std.specs.Prelude.{◌≡◌};
ghost use Rattle.type_rules.specs.Nodes.{Tests};
ghost use Rattle.type_rules.specs.Statements.{test_node};
ghost use Rattle.type_stmt.specs.Settling.{Looks, Settles};
ghost use Rattle.type_stmt.specs.Kinds.{while_kind, for_kind};

use crate::branching::test_rules;
use crate::options::{tree_of, tree_option};
use jp_ast::Place;
use jp_meaning::{TypedStmt, TypedStmtKind};
use sqlite_items::Boxed;
use type_heads::First;
use type_rules::{Scope, Seen};

/// `while (test) body`
pub(crate) fn while_loop(
    scope: &Scope,
    place: Place,
    test: Seen,
    body: Option<Boxed<TypedStmt>>,
    first: &mut First,
) -> Option<TypedStmt>
    ensures { Settles scope.now place (Tests test) first.old.fault first.new.fault (while_kind test body) result }
{
    if !test_rules(scope, place, &test, first) {
        return None;
    }
    let test = tree_of(test)?;
    let kind = TypedStmtKind::While { test, body: body? };
    Some(TypedStmt { place, kind })
}

/// `for (init; test; change) body`, of which the first three parts may be left out.
pub(crate) fn for_loop(
    scope: &Scope,
    place: Place,
    init: Option<Option<Boxed<TypedStmt>>>,
    test: Option<Seen>,
    change: Option<Option<Boxed<TypedStmt>>>,
    body: Option<Boxed<TypedStmt>>,
    first: &mut First,
) -> Option<TypedStmt>
    ensures { Settles scope.now place (test_node test) first.old.fault first.new.fault (for_kind init test change body) result }
{
    if !for_rules(scope, place, &test, first) {
        return None;
    }
    let kind = TypedStmtKind::For {
        init: init?,
        test: tree_option(test)?,
        change: change?,
        body: body?,
    };
    Some(TypedStmt { place, kind })
}

#[tactic(auto, unfolding(crate::specs::Settling::faults_at))]
fn for_rules(scope: &Scope, place: Place, test: &Option<Seen>, first: &mut First) -> bool
    ensures { Looks scope.now place (test_node test.now) first.old.fault first.new.fault result }
{
    match test {
        Some(test) => test_rules(scope, place, test, first),
        None => true,
    }
}
