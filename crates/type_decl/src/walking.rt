ghost use Rattle.std.specs.Prelude.{◌≡◌, true, IfOk, IsTrue};
ghost use Rattle.std.specs.List.{list_all};
ghost use Rattle.type_decl.specs.Limits.{member_fits};
ghost use Rattle.type_decl.specs.Walking.{WalksParts, WalksMembers};

use crate::listed::Listed;
use crate::opening::{OpenMember, open_member};
use crate::parts::{block_of, see_super};
use crate::room::slots;
use iface_codec::Iface;
use jp_ast::{Decl, Member};
use jp_meaning::{TypedGuard, TypedStmt};
use jp_pred::{Path, Ty};
use sqlite_items::Items;
use std::alloc::{AllocError, Global};
use type_heads::First;
use type_rules::{Scope, Seen};
use type_stmt::walk_all;

/// A member whose parts are walked.
#[derive(Drop)]
pub(crate) struct Walked {
    /// The paths that its body reads on entry, and the types of the locals that hold their values.
    pub entry: Items<(Path, Ty)>,
    /// The guard, where there is none or one without a fault.
    pub guard: Option<Option<TypedGuard>>,
    /// What is seen of the arguments of `super(..)`, where it is written.
    pub super_args: Option<Listed<Seen>>,
    /// The statements, where none has a fault.
    pub block: Option<Items<TypedStmt>>,
    /// The greatest number of slots in use.
    pub locals: u8,
}

/// A member whose parts are walked, and the heads, which come back.
#[derive(Drop)]
pub(crate) struct WalkedPart {
    pub heads: Items<Iface>,
    pub walked: Walked,
}

/// Members whose parts are walked, and the heads, which come back.
#[derive(Drop)]
pub(crate) struct WalkedAll {
    pub heads: Items<Iface>,
    pub walked: Vec<Walked>,
}

/// The members of a declaration with their parts walked, and the first fault so far, which takes in those of these parts.
pub(crate) fn walk_members(
    alloc: Global,
    heads: Items<Iface>,
    decl: &Decl,
    first: &mut First,
) -> Result<WalkedAll, AllocError>
    requires { list_all member_fits decl.now.members ≡ true }
    ensures { IfOk result (λ all. WalksMembers heads decl.now decl.now.members first.old.fault first.new.fault all.heads all.walked.items) }
{
    let mut heads = heads;
    let mut walked = Vec::new(alloc);
    let members = decl.members.as_slice();
    for member in members {
        let one = walk_parts(alloc, heads, decl, member, first)?;
        heads = one.heads;
        walked.push(one.walked)?;
    }
    Ok(WalkedAll { heads, walked })
}

/// A member with its parts walked, and the first fault so far, which takes in those of these parts.
fn walk_parts(
    alloc: Global,
    heads: Items<Iface>,
    decl: &Decl,
    member: &Member,
    first: &mut First,
) -> Result<WalkedPart, AllocError>
    requires { IsTrue (member_fits member.now) }
    ensures { IfOk result (λ one. WalksParts heads decl.now member.now first.old.fault first.new.fault one) }
{
    let opened = open_member(alloc, heads, decl, member, first)?;
    let OpenMember {
        entry,
        guard,
        mut scope,
    } = opened;
    let super_args = see_super(alloc, &scope, &member.part, first)?;
    let locals = slots(member, &scope);
    let block = walk_all(alloc, &mut scope, block_of(&member.part), first)?;
    let Scope { heads, .. } = scope;
    let walked = Walked {
        entry,
        guard,
        super_args,
        block,
        locals,
    };
    Ok(WalkedPart { heads, walked })
}
