ghost use Rattle.std.specs.Prelude.{◌≡◌, ◌<◌, length, IfOk, OnOk};
ghost use Rattle.type_rules.specs.Nodes.{Declares};
ghost use Rattle.type_rules.specs.Statements.{declared};
ghost use Rattle.type_stmt.specs.Settling.{Looks, Settles};
ghost use Rattle.type_stmt.specs.Kinds.{local_kind};

use crate::judging::{is_taken, some_misfit};
use crate::options::tree_option;
use crate::scopes::next_slot;
use jp_ast::Place;
use jp_meaning::{TypedStmt, TypedStmtKind};
use jp_pred::{Name, Ty};
use std::alloc::{AllocError, Global};
use type_heads::{First, copy_ty, is_refused};
use type_rules::{Scope, Seen, Variable};

/// `T name;` or `T name = value;`, behind which the name is in scope.
pub(crate) fn local(
    alloc: Global,
    scope: &mut Scope,
    place: Place,
    ty: &Ty,
    name: &Name,
    value: Option<Seen>,
    first: &mut First,
) -> Result<Option<TypedStmt>, AllocError>
    requires { length scope.old.variables < 255 }
    ensures settles { IfOk result (λ made. Settles scope.old place (Declares ty.now name.now value) first.old.fault first.new.fault (local_kind scope.old ty.now value) made) }
    ensures after { OnOk result (scope.new ≡ declared scope.old ty.now name.now) }
{
    let sound = local_rules(scope, place, ty, name, &value, first);
    let slot = next_slot(scope);
    scope.variables.push(Variable {
        name: name.copy(alloc)?,
        ty: copy_ty(alloc, ty)?,
    })?;
    if !sound {
        return Ok(None);
    }
    let Some(value) = tree_option(value) else {
        return Ok(None);
    };
    let ty = copy_ty(alloc, ty)?;
    let kind = TypedStmtKind::Local { slot, ty, value };
    Ok(Some(TypedStmt { place, kind }))
}

#[tactic(auto, unfolding(crate::specs::Settling::faults_at))]
fn local_rules(
    scope: &Scope,
    place: Place,
    ty: &Ty,
    name: &Name,
    value: &Option<Seen>,
    first: &mut First,
) -> bool
    ensures { Looks scope.now place (Declares ty.now name.now value.now) first.old.fault first.new.fault result }
{
    let is_type = first.add_if(place, 2, is_refused(ty));
    let is_new = first.add_if(place, 12, is_taken(scope.variables.as_slice(), name));
    let is_misfit = some_misfit(scope.heads.as_slice(), value, ty);
    let is_fit = first.add_if(place, 36, is_misfit);
    is_type && is_new && is_fit
}
