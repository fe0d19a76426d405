ghost use Rattle.std.specs.Prelude.{◌≡◌, ◌+◌, ◌≤◌, ◌<◌, map, length, if◌then◌else◌};
ghost use Rattle.std.specs.Option.{is_some};
ghost use Rattle.type_rules.specs.Heads.{as_field};
ghost use Rattle.type_rules.specs.Names.{receiver_slots};
ghost use Rattle.type_rules.specs.Statements.{count, most_along, flow};
ghost use Rattle.type_rules.specs.Units.{block_part, is_static_part};
ghost use Rattle.type_decl.specs.Limits.{HasRoom};
ghost use Rattle.type_decl.specs.Parts.{slots_taken};

use crate::parts::block_of;
use jp_ast::{Member, MemberPart};
use type_flow::most;
use type_rules::Scope;

/// The slots of a member whose statements stand in the scope; a field has none.
pub(crate) fn slots(member: &Member, scope: &Scope) -> u8
    requires { HasRoom member.now scope.now }
    ensures taken { result ≡ slots_taken member.now scope.now }
    ensures most { most_along (count scope.now) (map flow (block_part member.now.part)) scope.now ≤ 255 }
{
    let count = scope.variables.len();
    match most(block_of(&member.part), count as u8) {
        Some(most) => with_receiver(member, most),
        None => unreachable!(),
    }
}

/// The slots of a member with at most so many variables at once; a field has none.
fn with_receiver(member: &Member, most: u8) -> u8
    requires { most < 255 }
    ensures { result ≡ (if is_some (as_field member.now) then 0 else receiver_slots (is_static_part member.now.part) + most) }
{
    match &member.part {
        MemberPart::Field { .. } => 0,
        MemberPart::Static { .. } => most,
        MemberPart::Abstract { .. } | MemberPart::Body { .. } | MemberPart::Constructor { .. } =>
            most + 1,
    }
}
