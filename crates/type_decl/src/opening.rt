ghost use Rattle.std.specs.Prelude.{IfOk, IsTrue};
ghost use Rattle.type_decl.specs.Limits.{member_fits};
ghost use Rattle.type_decl.specs.Walking.{OpensMember};

use crate::guarding::walk_guard;
use crate::scopes::{body_scope, entry_of, guard_scope};
use decl_rules::judge_params;
use iface_codec::Iface;
use jp_ast::{Decl, Member};
use jp_meaning::TypedGuard;
use jp_pred::{Path, Ty};
use sqlite_items::Items;
use std::alloc::{AllocError, Global};
use type_heads::First;
use type_rules::Scope;

/// A member whose guard is walked.
#[derive(Drop)]
pub(crate) struct OpenMember {
    /// The paths that its body reads on entry, and the types of the locals that hold their values.
    pub entry: Items<(Path, Ty)>,
    /// The guard, where there is none or one without a fault.
    pub guard: Option<Option<TypedGuard>>,
    /// The scope of its statements.
    pub scope: Scope,
}

/// The member with its guard walked, and the first fault so far, which takes in those of its parameters and its guard.
pub(crate) fn open_member(
    alloc: Global,
    heads: Items<Iface>,
    decl: &Decl,
    member: &Member,
    first: &mut First,
) -> Result<OpenMember, AllocError>
    requires { IsTrue (member_fits member.now) }
    ensures { IfOk result (λ o. OpensMember heads decl.now member.now first.old.fault first.new.fault o) }
{
    let params = member.params.as_slice();
    judge_params(params, first);
    let mut outside = guard_scope(alloc, heads, decl, member)?;
    let guard = walk_guard(alloc, &mut outside, &member.part, first)?;
    let aliases = outside.aliases.as_slice();
    let entry = entry_of(alloc, aliases)?;
    let scope = body_scope(alloc, outside, &member.part)?;
    Ok(OpenMember {
        entry,
        guard,
        scope,
    })
}
