ghost use Rattle.std.specs.Prelude.{◌≡◌, Some, if◌then◌else◌};
ghost use Rattle.std.specs.Option.{option_map};
ghost use Rattle.jp_meaning.specs.declared.stmt.TypedStmtKind.TheVariants as made;
ghost use Rattle.type_rules.specs.Nodes.{Jumps, Returns};
ghost use Rattle.type_rules.specs.Statements.{tree_option};
ghost use Rattle.type_stmt.specs.Settling.{Looks, Settles};

use crate::options::tree_option;
use jp_ast::Place;
use jp_meaning::{TypedStmt, TypedStmtKind};
use type_heads::{First, is_void, misfit};
use type_rules::{Scope, Seen};

/// `break` where it stops the loop, else `continue`.
pub(crate) fn jump(scope: &Scope, place: Place, stops: bool, first: &mut First) -> Option<TypedStmt>
    ensures { Settles scope.now place Jumps first.old.fault first.new.fault (Some (if stops then made.Break else made.Continue)) result }
{
    if !jump_rules(scope, place, first) {
        return None;
    }
    let kind = if stops {
        TypedStmtKind::Break
    } else {
        TypedStmtKind::Continue
    };
    Some(TypedStmt { place, kind })
}

#[tactic(auto, unfolding(crate::specs::Settling::faults_at))]
fn jump_rules(scope: &Scope, place: Place, first: &mut First) -> bool
    ensures { Looks scope.now place Jumps first.old.fault first.new.fault result }
{
    first.add_if(place, 37, !scope.is_in_loop)
}

/// `return;` or `return value;`
pub(crate) fn returned(
    scope: &Scope,
    place: Place,
    value: Option<Seen>,
    first: &mut First,
) -> Option<TypedStmt>
    ensures { Settles scope.now place (Returns value) first.old.fault first.new.fault (option_map (λ v. made.Return v) (tree_option value)) result }
{
    if !return_rules(scope, place, &value, first) {
        return None;
    }
    let kind = TypedStmtKind::Return(tree_option(value)?);
    Some(TypedStmt { place, kind })
}

#[tactic(auto, unfolding(crate::specs::Settling::faults_at))]
fn return_rules(scope: &Scope, place: Place, value: &Option<Seen>, first: &mut First) -> bool
    ensures { Looks scope.now place (Returns value.now) first.old.fault first.new.fault result }
{
    let heads = scope.heads.as_slice();
    match value {
        Some(value) => {
            let is_wrong = is_void(&scope.result) || misfit(heads, value, &scope.result);
            first.add_if(place, 37, is_wrong)
        }
        None => first.add_if(place, 37, !is_void(&scope.result)),
    }
}
