ghost use Rattle.std.specs.Prelude.{◌≡◌, ◌-◌, ◌^◌, min};
ghost use Rattle.std.specs.List.{flat_map, sum_by};
ghost use Rattle.unit_limits.specs.Counting.{first_told};
ghost use Rattle.unit_limits.specs.Members.{member_nodes, member_counts, decl_counts, first_over};

use crate::counts::more;
use crate::limits::{Limit, TooLarge, over};
use crate::parts::{aliases, locals, long_text, member_nodes, written_nodes};
use jp_ast::{Decl, Member, SourceUnit};

/// The first count of a unit that passes its limit: by class or interface, in it by member, of a member its texts, its
/// parameters, its aliases, its locals and its body nodes, and behind the members the nodes of the class. None where
/// the unit keeps the limits.
#[tactic(auto, using(crate::proofs::Firsts::found, crate::proofs::Firsts::passed, crate::proofs::Firsts::none_left))]
pub fn first_over(unit: &SourceUnit) -> Option<TooLarge>
    ensures { result ≡ first_over unit.now }
{
    for decl in unit.decls.as_slice() {
        if let Some(over) = over_in_decl(decl) {
            return Some(over);
        }
    }
    None
}

#[tactic(auto, using(crate::proofs::Firsts::told_append))]
fn over_in_decl(decl: &Decl) -> Option<TooLarge>
    ensures { result ≡ first_told (decl_counts decl.now) }
{
    let members = decl.members.as_slice();
    over_in_members(members).or(over(Limit::ClassNodes, nodes_of_members(members)))
}

#[tactic(auto, using(crate::proofs::Firsts::found, crate::proofs::Firsts::passed, crate::proofs::Firsts::none_left))]
fn over_in_members(members: &[Member]) -> Option<TooLarge>
    ensures { result ≡ first_told (flat_map member_counts members.now) }
{
    for member in members {
        if let Some(over) = over_in_member(member) {
            return Some(over);
        }
    }
    None
}

fn nodes_of_members(members: &[Member]) -> u64
    ensures { result ≡ min (sum_by member_nodes members.now) (2 ^ 64 - 1) }
{
    let mut total = 0;
    for member in members {
        total = more(total, member_nodes(member));
    }
    total
}

fn over_in_member(member: &Member) -> Option<TooLarge>
    ensures { result ≡ first_told (member_counts member.now) }
{
    long_text(&member.part)
        .or(over(Limit::Parameters, member.params.len() as u64))
        .or(over(Limit::Aliases, aliases(&member.part)))
        .or(over(Limit::Locals, locals(member)))
        .or(over(Limit::BodyNodes, written_nodes(&member.part)))
}
