ghost use Rattle.std.specs.Prelude.{◌≡◌};
ghost use Rattle.type_rules.specs.Nodes.{Tests};
ghost use Rattle.type_stmt.specs.Settling.{Looks, Settles};
ghost use Rattle.type_stmt.specs.Kinds.{if_kind};

use crate::judging::isnt_boolean;
use crate::options::tree_of;
use jp_ast::Place;
use jp_meaning::{TypedStmt, TypedStmtKind};
use sqlite_items::Boxed;
use type_heads::First;
use type_rules::{Scope, Seen};

/// `if (test) yes else no`, or without `else`.
pub(crate) fn branch(
    scope: &Scope,
    place: Place,
    test: Seen,
    yes: Option<Boxed<TypedStmt>>,
    no: Option<Option<Boxed<TypedStmt>>>,
    first: &mut First,
) -> Option<TypedStmt>
    ensures { Settles scope.now place (Tests test) first.old.fault first.new.fault (if_kind test yes no) result }
{
    if !test_rules(scope, place, &test, first) {
        return None;
    }
    let kind = TypedStmtKind::If {
        test: tree_of(test)?,
        yes: yes?,
        no: no?,
    };
    Some(TypedStmt { place, kind })
}

/// A condition is a boolean; the fault stands at its statement.
#[tactic(auto, unfolding(crate::specs::Settling::faults_at))]
pub(crate) fn test_rules(scope: &Scope, place: Place, test: &Seen, first: &mut First) -> bool
    ensures { Looks scope.now place (Tests test.now) first.old.fault first.new.fault result }
{
    first.add_if(place, 25, isnt_boolean(test))
}
