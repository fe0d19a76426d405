ghost use Rattle.std.specs.Prelude.{◌≡◌, ◌-◌, ◌^◌, min};
ghost use Rattle.std.specs.List.{flat_map, sum_by};
ghost use Rattle.std.specs.Option.{option_copied, option_map_or};
ghost use Rattle.jp_ast.specs.Counts.{of_option, expr_nodes, guard_nodes_of};
ghost use Rattle.unit_limits.specs.Counting.{first_told};
ghost use Rattle.unit_limits.specs.Texts.{in_option, expr_texts};
ghost use Rattle.unit_limits.specs.Members.{guard_part, super_part, block_part, receivers, aliases, locals, written_nodes, member_nodes, texts};

use crate::counts::{aliases_of, locals_of_all, more, nodes_of_all};
use crate::limits::TooLarge;
use crate::texts::{over_in_exprs, over_in_stmts};
use jp_ast::{Expr, GuardExpr, Member, MemberPart, Stmt, guard_nodes, nodes};
use sqlite_items::Items;

fn guard_part(part: &MemberPart) -> Option<&GuardExpr>
    ensures { option_copied result ≡ guard_part part.now }
{
    match part {
        MemberPart::Body { guard, .. } => guard.as_ref(),
        MemberPart::Field { .. }
        | MemberPart::Static { .. }
        | MemberPart::Abstract { .. }
        | MemberPart::Constructor { .. } => None,
    }
}

fn super_part(part: &MemberPart) -> Option<&Items<Expr>>
    ensures { option_copied result ≡ super_part part.now }
{
    match part {
        MemberPart::Constructor { super_args, .. } => super_args.as_ref(),
        MemberPart::Field { .. }
        | MemberPart::Static { .. }
        | MemberPart::Abstract { .. }
        | MemberPart::Body { .. } => None,
    }
}

fn block_part(part: &MemberPart) -> &[Stmt]
    ensures { result.now ≡ block_part part.now }
{
    match part {
        MemberPart::Static { block, .. } => block.as_slice(),
        MemberPart::Body { block, .. } => block.as_slice(),
        MemberPart::Constructor { block, .. } => block.as_slice(),
        MemberPart::Field { .. } | MemberPart::Abstract { .. } => &[],
    }
}

fn receivers(part: &MemberPart) -> u64
    ensures { result ≡ receivers part.now }
{
    match part {
        MemberPart::Field { .. } | MemberPart::Static { .. } => 0,
        MemberPart::Abstract { .. } | MemberPart::Body { .. } | MemberPart::Constructor { .. } => 1,
    }
}

/// The aliases of a member's guard.
pub(crate) fn aliases(part: &MemberPart) -> u64
    ensures { result ≡ min (aliases part.now) (2 ^ 64 - 1) }
{
    match guard_part(part) {
        Some(guard) => aliases_of(guard),
        None => 0,
    }
}

/// The receiver, the parameters, the aliases and the declared locals.
pub(crate) fn locals(member: &Member) -> u64
    ensures { result ≡ min (locals member.now) (2 ^ 64 - 1) }
{
    let params = more(receivers(&member.part), member.params.len() as u64);
    let heads = more(params, aliases(&member.part));
    more(heads, locals_of_all(block_part(&member.part)))
}

fn guard_nodes_in(part: &MemberPart) -> u64
    ensures { result ≡ min (of_option guard_nodes_of (guard_part part.now)) (2 ^ 64 - 1) }
{
    match guard_part(part) {
        Some(guard) => guard_nodes(guard),
        None => 0,
    }
}

fn super_nodes(part: &MemberPart) -> u64
    ensures { result ≡ min (option_map_or (sum_by expr_nodes) (super_part part.now) 0) (2 ^ 64 - 1) }
{
    match super_part(part) {
        Some(args) => nodes_of_all(args.as_slice()),
        None => 0,
    }
}

/// The statements and expressions that are written in a member.
pub(crate) fn written_nodes(part: &MemberPart) -> u64
    ensures { result ≡ min (written_nodes part.now) (2 ^ 64 - 1) }
{
    more(super_nodes(part), nodes(block_part(part)))
}

/// These with the member itself and the nodes of its guard.
pub(crate) fn member_nodes(member: &Member) -> u64
    ensures { result ≡ min (member_nodes member.now) (2 ^ 64 - 1) }
{
    let written = more(1, written_nodes(&member.part));
    more(written, guard_nodes_in(&member.part))
}

/// The first text of a member that is too long.
#[tactic(auto, using(crate::proofs::Firsts::told_append))]
pub(crate) fn long_text(part: &MemberPart) -> Option<TooLarge>
    ensures { result ≡ first_told (texts part.now) }
{
    over_in_super(part).or(over_in_stmts(block_part(part)))
}

fn over_in_super(part: &MemberPart) -> Option<TooLarge>
    ensures { result ≡ first_told (in_option (flat_map expr_texts) (super_part part.now)) }
{
    match super_part(part) {
        Some(args) => over_in_exprs(args.as_slice()),
        None => None,
    }
}
