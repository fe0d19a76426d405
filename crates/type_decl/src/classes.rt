ghost use Rattle.std.specs.Prelude.{◌≡◌, ◌≤◌, map, length, not, IfOk, IsTrue};
ghost use Rattle.std.specs.List.{list_all};
ghost use Rattle.std.specs.Option.{is_some};
ghost use Rattle.type_rules.specs.Heads.{as_constructor};
ghost use Rattle.type_rules.specs.Units.{default_constructor, with_default};
ghost use Rattle.type_decl.specs.Limits.{decl_fits};
ghost use Rattle.type_decl.specs.Walking.{walked_of};
ghost use Rattle.type_decl.specs.Checking.{class_from, SettlesDecl, ChecksDecl};

use crate::settling::{SettledAll, settle_members};
use crate::walking::{Walked, WalkedAll, walk_members};
use decl_heads::head;
use decl_rules::{above, judge_decl};
use iface_codec::Iface;
use jp_ast::{Decl, Member, MemberPart};
use jp_meaning::{TypedClass, TypedMember, TypedPart};
use sqlite_items::Items;
use std::alloc::{AllocError, Global};
use type_heads::First;

/// A declaration that is resolved where it has no fault, and the heads, which come back.
#[derive(Drop)]
pub(crate) struct CheckedDecl {
    pub heads: Items<Iface>,
    pub class: Option<TypedClass>,
}

/// The resolved declaration, where it has no fault, and the first fault so far, which takes in those of its nodes.
pub(crate) fn check_decl(
    alloc: Global,
    heads: Items<Iface>,
    before: &[Decl],
    decl: &Decl,
    first: &mut First,
) -> Result<CheckedDecl, AllocError>
    requires { IsTrue (decl_fits decl.now) }
    ensures { IfOk result (λ one. ChecksDecl heads before.now decl.now first.old.fault first.new.fault one) }
{
    let all = walk_members(alloc, heads, decl, first)?;
    let WalkedAll { heads, walked } = all;
    let class = settle_decl(alloc, heads.as_slice(), before, decl, walked, first)?;
    Ok(CheckedDecl { heads, class })
}

/// The resolved declaration, of whose members the parts are walked, and the first fault so far, which takes in those of
/// the members' own nodes and of its own.
fn settle_decl(
    alloc: Global,
    heads: &[Iface],
    before: &[Decl],
    decl: &Decl,
    walked: Vec<Walked>,
    first: &mut First,
) -> Result<Option<TypedClass>, AllocError>
    requires walked { walked.items ≡ map (walked_of heads.now decl.now) decl.now.members }
    requires few { length decl.now.members ≤ 8000 }
    ensures { IfOk result (λ class. SettlesDecl heads.now before.now decl.now first.old.fault first.new.fault class) }
{
    let above = above(alloc, heads, decl)?;
    let settled = settle_members(alloc, &above, heads, decl, walked, first)?;
    judge_decl(&above, heads, before, decl, first);
    class_of(alloc, decl, settled)
}

/// The class of these members, where none has a fault, with what its bodies read on entry in its head.
fn class_of(
    alloc: Global,
    decl: &Decl,
    settled: SettledAll,
) -> Result<Option<TypedClass>, AllocError>
    ensures { IfOk result (λ class. class ≡ class_from decl.now settled.made settled.methods) }
{
    let SettledAll { made, methods } = settled;
    let Some(members) = made else {
        return Ok(None);
    };
    let members = with_default(alloc, decl, members)?;
    let mut head = head(alloc, decl)?;
    head.methods = methods;
    Ok(Some(TypedClass { head, members }))
}

/// The members of a declaration, with the constructor of a class that has none written.
fn with_default(
    alloc: Global,
    decl: &Decl,
    members: Items<TypedMember>,
) -> Result<Items<TypedMember>, AllocError>
    ensures { IfOk result (λ all. all ≡ with_default decl.now members) }
{
    let mut members = members;
    if decl.is_interface {
        return Ok(members);
    }
    if !has_no_constructor(decl.members.as_slice()) {
        return Ok(members);
    }
    members.push(default_constructor(alloc))?;
    Ok(members)
}

fn default_constructor(alloc: Global) -> TypedMember
    ensures { result ≡ default_constructor }
{
    TypedMember {
        part: TypedPart::Constructor(0),
        locals: 1,
        guard: None,
        super_params: Items::new(alloc),
        super_args: Items::new(alloc),
        block: Items::new(alloc),
    }
}

/// Whether none of the members is a constructor.
fn has_no_constructor(members: &[Member]) -> bool
    ensures { result ≡ list_all (λ m. not (is_some (as_constructor m))) members.now }
{
    for member in members {
        if is_constructor(member) {
            return false;
        }
    }
    true
}

fn is_constructor(member: &Member) -> bool
    ensures { result ≡ is_some (as_constructor member.now) }
{
    matches!(&member.part, MemberPart::Constructor { .. })
}
