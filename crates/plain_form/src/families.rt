ghost use Rattle.std.specs.Prelude.{◌≡◌, [], ◌∷◌};
ghost use Rattle.plain_form.specs.Families.{is_body, is_again, repeats_of, repeats};
ghost use Rattle.plain_form.specs.Places.{earlier};

use crate::first::with_place;
use jp_ast::{Member, MemberPart, Place};

/// The best so far, or the first place of a body behind another of its family.
#[tactic(auto, using(crate::proofs::Earliest::no_first))]
pub(crate) fn with_repeats(best: Option<Place>, members: &[Member]) -> Option<Place>
    ensures { result ≡ earlier best (repeats members.now) }
{
    let mut best = best;
    for (i, member) in members.iter().enumerate() {
        best = with_repeats_of(best, member, &members[i + 1..]);
    }
    best
}

/// The same of bodies of the member's family alone.
#[tactic(auto, using(crate::proofs::Earliest::one_behind, crate::proofs::Earliest::none_behind))]
fn with_repeats_of(best: Option<Place>, member: &Member, behind: &[Member]) -> Option<Place>
    ensures { result ≡ earlier best (repeats_of member.now behind.now) }
{
    let mut best = best;
    for other in behind {
        best = with_repeat(best, member, other);
    }
    best
}

/// The best so far, or the place of the second member where it is a body of the first one's family.
#[tactic(auto, using(crate::proofs::Earliest::repeat_here, crate::proofs::Earliest::no_repeat))]
fn with_repeat(best: Option<Place>, member: &Member, other: &Member) -> Option<Place>
    ensures { result ≡ earlier best (repeats_of member.now (other.now ∷ [])) }
{
    if is_again(member, other) {
        with_place(best, other.place)
    } else {
        best
    }
}

/// Whether both are bodies, of one name and number of parameters.
fn is_again(first: &Member, second: &Member) -> bool
    ensures { result ≡ is_again first.now second.now }
{
    is_body(&first.part)
        && is_body(&second.part)
        && first.name == second.name
        && first.params.len() == second.params.len()
}

fn is_body(part: &MemberPart) -> bool
    ensures { result ≡ is_body part.now }
{
    matches!(part, MemberPart::Body { .. })
}
