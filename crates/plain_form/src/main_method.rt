ghost use Rattle.std.specs.Prelude.{◌≡◌};
ghost use Rattle.std.specs.List.{list_any};
ghost use Rattle.plain_form.specs.Main.{takes_nothing, is_static_void, is_main, declares_main, has_main};

use jp_ast::{Decl, Member, MemberPart, SourceUnit};
use jp_pred::{Name, Ty};

/// Whether a class of that name declares `static void main()` without parameters that isn't private.
pub fn has_main(unit: &SourceUnit, name: &Name) -> bool
    ensures { result ≡ has_main unit.now name.now }
{
    for decl in unit.decls.as_slice() {
        if declares_main(decl, name) {
            return true;
        }
    }
    false
}

fn declares_main(decl: &Decl, name: &Name) -> bool
    ensures { result ≡ declares_main name.now decl.now }
{
    !decl.is_interface && decl.name == *name && some_is_main(decl.members.as_slice())
}

fn some_is_main(members: &[Member]) -> bool
    ensures { result ≡ list_any is_main members.now }
{
    for member in members {
        if is_main(member) {
            return true;
        }
    }
    false
}

fn is_main(member: &Member) -> bool
    ensures { result ≡ is_main member.now }
{
    !member.is_private
        && member.name.bytes() == b"main".as_slice()
        && takes_nothing(member)
        && is_static_void(&member.part)
}

fn takes_nothing(member: &Member) -> bool
    ensures { result ≡ takes_nothing member.now.params }
{
    member.params.is_empty()
}

fn is_static_void(part: &MemberPart) -> bool
    ensures { result ≡ is_static_void part.now }
{
    match part {
        MemberPart::Static { result, .. } => matches!(result, Ty::Void),
        MemberPart::Field { .. }
        | MemberPart::Abstract { .. }
        | MemberPart::Body { .. }
        | MemberPart::Constructor { .. } => false,
    }
}
