ghost use Rattle.std.specs.Prelude.{◌≡◌, ◌≤◌, length, Some, IfOk};
ghost use Rattle.std.specs.Option.{option_map, option_copied};
ghost use Rattle.type_rules.specs.Units.{guard_part};
ghost use Rattle.type_decl.specs.Parts.{WalksGuard};

use jp_ast::{GuardExpr, MemberPart};
use jp_meaning::TypedGuard;
use sqlite_items::Boxed;
use std::alloc::{AllocError, Global};
use type_guards::guarded;
use type_heads::First;
use type_rules::GuardScope;

/// The guard of a member with its names resolved, where there is none or one without a fault, and the first fault so far,
/// which takes in those of its nodes. The scope is left with its aliases.
pub(crate) fn walk_guard(
    alloc: Global,
    scope: &mut GuardScope,
    part: &MemberPart,
    first: &mut First,
) -> Result<Option<Option<TypedGuard>>, AllocError>
    requires { length scope.old.params ≤ 255 }
    ensures { IfOk result (λ made. WalksGuard (guard_part part.now) scope.old scope.new first.old.fault first.new.fault made) }
{
    let Some(guard) = guard_of(part) else {
        return Ok(Some(None));
    };
    let made = guarded(alloc, scope, guard, first)?;
    Ok(unboxed(made))
}

/// The guard of a body, where it has one.
fn guard_of(part: &MemberPart) -> Option<&GuardExpr>
    ensures { option_copied result ≡ guard_part part.now }
{
    match part {
        MemberPart::Body { guard, .. } => guard.as_ref(),
        _ => None,
    }
}

/// A guard without a fault, which is there.
fn unboxed(made: Option<Boxed<TypedGuard>>) -> Option<Option<TypedGuard>>
    ensures { result ≡ option_map Some made }
{
    match made {
        Some(guard) => Some(Some(guard.into_inner())),
        None => None,
    }
}
