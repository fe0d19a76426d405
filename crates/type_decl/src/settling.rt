ghost use Rattle.std.specs.Prelude.{◌≡◌, [], ◌∷◌, ◌++◌, ◌≤◌, map, length, IfOk, OnOk};
ghost use Rattle.std.specs.Option.{option_copied, option_to_list};
ghost use Rattle.type_rules.specs.Table.{faults_of};
ghost use Rattle.type_rules.specs.Typing.{earlier};
ghost use Rattle.decl_rules.specs.Standing.{IsAbove};
ghost use Rattle.type_decl.specs.Parts.{super_in};
ghost use Rattle.type_decl.specs.Walking.{walked_of};
ghost use Rattle.type_decl.specs.Settling.{own_visit, with_member, member_of};
ghost use Rattle.type_decl.specs.SettledMembers.{SettlesOne, SettlesMembers};

use crate::arguments::super_trees;
use crate::listed::Listed;
use crate::methods::method_head;
use crate::parts::block_of;
use crate::places::Places;
use crate::supers::super_params;
use crate::walking::Walked;
use decl_rules::{Above, judge_member};
use iface_codec::{Iface, IfaceMethod};
use jp_ast::{Decl, Member};
use jp_meaning::{TypedExpr, TypedGuard, TypedMember, TypedPart, TypedStmt};
use jp_pred::Ty;
use sqlite_items::Items;
use std::alloc::{AllocError, Global};
use type_flow::can_complete;
use type_heads::First;
use type_rules::Seen;

/// A member that is resolved where it has no fault, and its head where it is a method.
#[derive(Drop)]
pub(crate) struct Settled {
    pub made: Option<TypedMember>,
    pub method: Option<IfaceMethod>,
}

/// Members that are resolved where none has a fault, and the heads of the methods among them.
#[derive(Drop)]
pub(crate) struct SettledAll {
    pub made: Option<Items<TypedMember>>,
    pub methods: Items<IfaceMethod>,
}

/// The members of a declaration, of which the parts are walked, and the first fault so far, which takes in those of their
/// own nodes.
pub(crate) fn settle_members(
    alloc: Global,
    above: &Above,
    heads: &[Iface],
    decl: &Decl,
    walked: Vec<Walked>,
    first: &mut First,
) -> Result<SettledAll, AllocError>
    requires above { IsAbove heads.now decl.now above.now }
    requires walked { walked.items ≡ map (walked_of heads.now decl.now) decl.now.members }
    requires few { length decl.now.members ≤ 8000 }
    ensures { IfOk result (λ all. SettlesMembers heads.now decl.now decl.now.members first.old.fault first.new.fault all.made all.methods) }
{
    let members = decl.members.as_slice();
    let mut made = Some(Items::new(alloc));
    let mut methods = Items::new(alloc);
    let mut places = Places::none();
    let mut at = 0;
    for one in walked {
        let member = &members[at];
        judge(above, heads, decl, &members[..at], member, &one, first);
        let part = places.next(member);
        let settled = settle(alloc, heads, decl, member, part, one)?;
        made = with_member(made, settled.made)?;
        add_method(&mut methods, settled.method)?;
        at += 1;
    }
    Ok(SettledAll { made, methods })
}

/// Takes the faults of a member's own node into the first fault so far.
fn judge(
    above: &Above,
    heads: &[Iface],
    decl: &Decl,
    before: &[Member],
    member: &Member,
    walked: &Walked,
    first: &mut First,
)
    requires above { IsAbove heads.now decl.now above.now }
    requires walked { walked.now.super_args ≡ super_in heads.now decl.now member.now }
    ensures { first.new.fault ≡ earlier first.old.fault (faults_of (own_visit heads.now decl.now before.now member.now ∷ [])) }
{
    let super_args = slice_of(&walked.super_args);
    let completes = can_complete(block_of(&member.part));
    judge_member(
        above, heads, decl, before, member, super_args, completes, first,
    );
}

fn slice_of(args: &Option<Listed<Seen>>) -> Option<&[Seen]>
    ensures { option_copied result ≡ args.now }
{
    match args {
        Some(args) => Some(args.as_slice()),
        None => None,
    }
}

/// A member from its walked parts, with its position in its list of the head.
fn settle(
    alloc: Global,
    heads: &[Iface],
    decl: &Decl,
    member: &Member,
    part: TypedPart,
    walked: Walked,
) -> Result<Settled, AllocError>
    ensures { IfOk result (λ one. SettlesOne heads.now decl.now member.now part walked one) }
{
    let Walked {
        entry,
        guard,
        super_args,
        block,
        locals,
    } = walked;
    let method = method_head(alloc, member, entry)?;
    let super_args = super_trees(alloc, super_args)?;
    let super_params = super_params(alloc, heads, decl, member)?;
    let made = member_of(part, locals, guard, super_params, super_args, block);
    Ok(Settled { made, method })
}

/// A member from its parts, where each is there.
fn member_of(
    part: TypedPart,
    locals: u8,
    guard: Option<Option<TypedGuard>>,
    super_params: Items<Ty>,
    super_args: Option<Items<TypedExpr>>,
    block: Option<Items<TypedStmt>>,
) -> Option<TypedMember>
    ensures { result ≡ member_of part locals guard super_params super_args block }
{
    Some(TypedMember {
        part,
        locals,
        guard: guard?,
        super_params,
        super_args: super_args?,
        block: block?,
    })
}

/// The resolved members so far and one more, where none has a fault.
fn with_member(
    done: Option<Items<TypedMember>>,
    made: Option<TypedMember>,
) -> Result<Option<Items<TypedMember>>, AllocError>
    ensures { IfOk result (λ more. more ≡ with_member done made) }
{
    let Some(mut done) = done else {
        return Ok(None);
    };
    let Some(made) = made else {
        return Ok(None);
    };
    done.push(made)?;
    Ok(Some(done))
}

/// Adds the head of a method, where there is one.
fn add_method(
    methods: &mut Items<IfaceMethod>,
    method: Option<IfaceMethod>,
) -> Result<(), AllocError>
    ensures { OnOk result (methods.new ≡ methods.old ++ option_to_list method) }
{
    match method {
        Some(method) => methods.push(method),
        None => Ok(()),
    }
}
