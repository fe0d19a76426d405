ghost use Rattle.std.specs.Prelude.{◌≡◌, ◌==◌, length, false};
ghost use Rattle.std.specs.List.{list_any, filter_map};
ghost use Rattle.std.specs.Option.{option_map_or, is_some};
ghost use Rattle.jp_pred.specs.Names.{same};
ghost use Rattle.type_rules.specs.Heads.{as_field, as_constructor, head, param_types};
ghost use Rattle.type_rules.specs.Lookups.{superclasses};
ghost use Rattle.type_rules.specs.Nodes.{AtMember};
ghost use Rattle.type_rules.specs.RulesOfDeclarations.{rule_2, rule_6, rule_9, rule_10, rule_11, has_field, may_be_private, is_abstract};
ghost use Rattle.type_rules.specs.RulesOfStatements.{rule_38, has_result};
ghost use Rattle.decl_rules.specs.Standing.{IsAbove, member_of};

use crate::standing::{Above, MemberAt};
use iface_codec::Iface;
use jp_ast::{Member, MemberPart};
use jp_pred::Name;
use type_heads::{field_named, is_refused, is_void};

/// Whether the member has a type, beside those of its parameters, that is none.
pub(crate) fn has_refused_type(at: &MemberAt) -> bool
    ensures { result ≡ rule_2 (AtMember (member_of at.now)) }
{
    match &at.member.part {
        MemberPart::Field { ty, .. } => is_refused(ty),
        MemberPart::Static { result, .. } => is_refused(result),
        MemberPart::Abstract { result } => is_refused(result),
        MemberPart::Body { result, .. } => is_refused(result),
        MemberPart::Constructor { .. } => false,
    }
}

/// Whether the member is a field that has the name of one written before it or above it.
pub(crate) fn repeats_field(above: &Above, at: &MemberAt) -> bool
    requires { IsAbove at.now.heads.now at.now.decl.now above.now }
    ensures { result ≡ rule_6 (AtMember (member_of at.now)) }
{
    is_field(at.member) && (is_field_before(at) || is_field_above(above, at))
}

fn is_field(member: &Member) -> bool
    ensures { result ≡ is_some (as_field member.now) }
{
    matches!(&member.part, MemberPart::Field { .. })
}

/// Whether a field that is written before the member has its name.
fn is_field_before(at: &MemberAt) -> bool
    ensures { result ≡ has_field at.now.member.now.name (filter_map as_field at.now.before.now) }
{
    let name = &at.member.name;
    at.before.iter().any(|other| is_field_named(name, other))
}

fn is_field_named(name: &Name, member: &Member) -> bool
    ensures { result ≡ option_map_or (λ f. same f.name name.now) (as_field member.now) false }
{
    match &member.part {
        MemberPart::Field { .. } => member.name == *name,
        _ => false,
    }
}

/// Whether a field of a superclass has the member's name.
fn is_field_above(above: &Above, at: &MemberAt) -> bool
    requires { IsAbove at.now.heads.now at.now.decl.now above.now }
    ensures { result ≡ list_any (λ h. has_field at.now.member.now.name h.fields) (superclasses at.now.heads.now (head at.now.decl.now)) }
{
    let name = &at.member.name;
    above
        .superclasses
        .as_slice()
        .iter()
        .any(|class| has_field(name, class))
}

fn has_field(name: &Name, class: &Iface) -> bool
    ensures { result ≡ has_field name.now class.now.fields }
{
    field_named(name, class.fields.as_slice()).is_some()
}

/// Whether the member is a constructor that isn't called as its class is, or has as many parameters as one written
/// before it.
pub(crate) fn is_odd_constructor(at: &MemberAt) -> bool
    ensures { result ≡ rule_9 (AtMember (member_of at.now)) }
{
    match &at.member.part {
        MemberPart::Constructor { .. } => at.member.name != at.decl.name || repeats_count(at),
        _ => false,
    }
}

/// Whether a constructor that is written before the member has as many parameters.
fn repeats_count(at: &MemberAt) -> bool
    ensures { result ≡ list_any (λ other. length other == length (param_types at.now.member.now)) (filter_map as_constructor at.now.before.now) }
{
    let count = at.member.params.len();
    at.before
        .iter()
        .any(|other| is_constructor_of(count, other))
}

fn is_constructor_of(count: usize, member: &Member) -> bool
    ensures { result ≡ option_map_or (λ params. length params == count) (as_constructor member.now) false }
{
    match &member.part {
        MemberPart::Constructor { .. } => member.params.len() == count,
        _ => false,
    }
}

pub(crate) fn is_constructor(member: &Member) -> bool
    ensures { result ≡ is_some (as_constructor member.now) }
{
    matches!(&member.part, MemberPart::Constructor { .. })
}

/// Whether the member is private, and neither a field nor a static method.
pub(crate) fn is_wrongly_private(at: &MemberAt) -> bool
    ensures { result ≡ rule_10 (AtMember (member_of at.now)) }
{
    at.member.is_private && !may_be_private(&at.member.part)
}

fn may_be_private(part: &MemberPart) -> bool
    ensures { result ≡ may_be_private part.now }
{
    matches!(part, MemberPart::Field { .. } | MemberPart::Static { .. })
}

/// Whether the member is an abstract method of a class that isn't.
pub(crate) fn is_wrongly_abstract(at: &MemberAt) -> bool
    ensures { result ≡ rule_11 (AtMember (member_of at.now)) }
{
    is_abstract(&at.member.part) && !at.decl.is_interface && !at.decl.is_abstract
}

fn is_abstract(part: &MemberPart) -> bool
    ensures { result ≡ is_abstract part.now }
{
    matches!(part, MemberPart::Abstract { .. })
}

/// Whether the member is a method with statements and a result, and these can complete.
pub(crate) fn lacks_result(at: &MemberAt) -> bool
    ensures { result ≡ rule_38 (AtMember (member_of at.now)) }
{
    has_result(&at.member.part) && at.completes
}

fn has_result(part: &MemberPart) -> bool
    ensures { result ≡ has_result part.now }
{
    match part {
        MemberPart::Static { result, .. } => !is_void(result),
        MemberPart::Body { result, .. } => !is_void(result),
        _ => false,
    }
}
