ghost use Rattle.std.specs.Prelude.{◌≡◌, ◌↔◌, None};
ghost use Rattle.std.specs.List.{flat_map};
ghost use Rattle.std.specs.Option.{ForSome};
ghost use Rattle.plain_form.specs.Places.{earlier, first_place, IsFirst};
ghost use Rattle.plain_form.specs.Forms.{IsPlain, guard_places, decl_lacks, lacks};

use crate::families::with_repeats;
use crate::first::with_place;
use jp_ast::{Decl, Member, MemberPart, Place, SourceUnit};

/// The first place at which a unit lacks the plain form: that of a guard, or of the name of a body behind another of its
/// class or interface with the same name and number of parameters. None where the unit is of the form.
pub fn first_lack(unit: &SourceUnit) -> Option<Place>
    ensures form { (result ≡ None) ↔ IsPlain unit.now }
    ensures first { result ≡ first_place (lacks unit.now) }
    ensures least { ForSome result (IsFirst (lacks unit.now)) }
{
    with_lacks(None, unit.decls.as_slice())
}

/// The best so far, or the first place at which the declarations lack the form.
#[tactic(auto, using(crate::proofs::Earliest::one_more, crate::proofs::Earliest::no_more))]
fn with_lacks(best: Option<Place>, decls: &[Decl]) -> Option<Place>
    ensures { result ≡ earlier best (flat_map decl_lacks decls.now) }
{
    let mut best = best;
    for decl in decls {
        best = with_lacks_of(best, decl);
    }
    best
}

#[tactic(auto, using(crate::proofs::Earliest::then_more))]
fn with_lacks_of(best: Option<Place>, decl: &Decl) -> Option<Place>
    ensures { result ≡ earlier best (decl_lacks decl.now) }
{
    let members = decl.members.as_slice();
    with_repeats(with_guards(best, members), members)
}

#[tactic(auto, using(crate::proofs::Earliest::one_more, crate::proofs::Earliest::no_more))]
fn with_guards(best: Option<Place>, members: &[Member]) -> Option<Place>
    ensures { result ≡ earlier best (flat_map (λ m. guard_places m.part) members.now) }
{
    let mut best = best;
    for member in members {
        best = with_guard(best, &member.part);
    }
    best
}

fn with_guard(best: Option<Place>, part: &MemberPart) -> Option<Place>
    ensures { result ≡ earlier best (guard_places part.now) }
{
    match part {
        MemberPart::Body { guard, .. } => match guard {
            Some(guard) => with_place(best, guard.place),
            None => best,
        },
        MemberPart::Field { .. }
        | MemberPart::Static { .. }
        | MemberPart::Abstract { .. }
        | MemberPart::Constructor { .. } => best,
    }
}
