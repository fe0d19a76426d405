ghost use Rattle.std.specs.Prelude.{◌≡◌, ◌++◌, false};
ghost use Rattle.std.specs.List.{list_any, filter_map};
ghost use Rattle.std.specs.Option.{option_map_or};
ghost use Rattle.type_rules.specs.Types.{agree, all_agree};
ghost use Rattle.type_rules.specs.Heads.{as_method};
ghost use Rattle.type_rules.specs.Nodes.{AtMember};
ghost use Rattle.type_rules.specs.RulesOfDeclarations.{rule_7, rule_8, share_family, disagree, collide, some_pair, member_clashes};
ghost use Rattle.decl_rules.specs.Clashes.{clash_of};
ghost use Rattle.decl_rules.specs.Pairs.{agree_at};
ghost use Rattle.decl_rules.specs.Signatures.{types_in, as_told};
ghost use Rattle.decl_rules.specs.Standing.{methods_at, IsAbove, member_of};

use crate::signature::{Params, Signature, param_count, param_type, told, written};
use crate::standing::{Above, MemberAt};
use iface_codec::IfaceMethod;
use jp_ast::Member;
use jp_pred::Ty;
use type_heads::{is_refused, is_static, same_type};

/// How two methods of one name and number of parameters can't stand together.
#[derive(Clone, Copy)]
enum Clash {
    /// Both are of objects, and parameters or results have other types.
    Types,
    /// One of them is static.
    Static,
}

/// Whether of the methods that are inherited two of one name and number of parameters have other types.
pub(crate) fn inherits_other_types(above: &Above) -> bool
    ensures { result ≡ some_pair disagree (methods_at above.now.inherited.items) }
{
    some_pair(Clash::Types, above.inherited.as_slice())
}

/// Whether of the methods that are inherited two have one name and number of parameters, and one is static.
pub(crate) fn inherits_static(above: &Above) -> bool
    ensures { result ≡ some_pair collide (methods_at above.now.inherited.items) }
{
    some_pair(Clash::Static, above.inherited.as_slice())
}

/// Whether the member is a method whose types differ from those of one of its name and number of parameters.
pub(crate) fn has_other_types(above: &Above, at: &MemberAt) -> bool
    requires { IsAbove at.now.heads.now at.now.decl.now above.now }
    ensures { result ≡ rule_7 (AtMember (member_of at.now)) }
{
    member_clashes(Clash::Types, above, at)
}

/// Whether the member is a method that shares its name and number of parameters with another, and one is static.
pub(crate) fn meets_static(above: &Above, at: &MemberAt) -> bool
    requires { IsAbove at.now.heads.now at.now.decl.now above.now }
    ensures { result ≡ rule_8 (AtMember (member_of at.now)) }
{
    member_clashes(Clash::Static, above, at)
}

/// Whether the member is a method that can't stand together with one written before it or inherited.
fn member_clashes(clash: Clash, above: &Above, at: &MemberAt) -> bool
    requires { IsAbove at.now.heads.now at.now.decl.now above.now }
    ensures { result ≡ member_clashes (clash_of clash) (member_of at.now) }
{
    match written(at.member) {
        Some(own) => clashes_with_some(clash, &own, at.before, above.inherited.as_slice()),
        None => false,
    }
}

/// Whether the method can't stand together with one of the members or of the other methods.
#[tactic(auto, using(crate::proofs::Anys::any_both))]
fn clashes_with_some(
    clash: Clash,
    own: &Signature,
    members: &[Member],
    methods: &[&IfaceMethod],
) -> bool
    ensures { result ≡ list_any (clash_of clash (as_told own.now)) (filter_map as_method members.now ++ methods_at methods.now) }
{
    clashes_before(clash, own, members) || clashes_above(clash, own, methods)
}

/// Whether the method can't stand together with one of the members.
fn clashes_before(clash: Clash, own: &Signature, members: &[Member]) -> bool
    ensures { result ≡ list_any (clash_of clash (as_told own.now)) (filter_map as_method members.now) }
{
    members
        .iter()
        .any(|member| clashes_with_member(clash, own, member))
}

fn clashes_with_member(clash: Clash, own: &Signature, member: &Member) -> bool
    ensures { result ≡ option_map_or (clash_of clash (as_told own.now)) (as_method member.now) false }
{
    match written(member) {
        Some(other) => clashes(clash, own, &other),
        None => false,
    }
}

/// Whether the method can't stand together with one of these.
fn clashes_above(clash: Clash, own: &Signature, methods: &[&IfaceMethod]) -> bool
    ensures { result ≡ list_any (clash_of clash (as_told own.now)) (methods_at methods.now) }
{
    methods
        .iter()
        .any(|method| clashes_with_told(clash, own, method))
}

fn clashes_with_told(clash: Clash, own: &Signature, method: &IfaceMethod) -> bool
    ensures { result ≡ clash_of clash (as_told own.now) method.now }
{
    clashes(clash, own, &told(method))
}

/// Whether two of the methods can't stand together.
fn some_pair(clash: Clash, methods: &[&IfaceMethod]) -> bool
    ensures { result ≡ some_pair (clash_of clash) (methods_at methods.now) }
{
    for (i, method) in methods.iter().enumerate() {
        if told_clashes(clash, method, &methods[i + 1..]) {
            return true;
        }
    }
    false
}

/// Whether the method can't stand together with one of the others.
fn told_clashes(clash: Clash, method: &IfaceMethod, others: &[&IfaceMethod]) -> bool
    ensures { result ≡ list_any (clash_of clash method.now) (methods_at others.now) }
{
    clashes_above(clash, &told(method), others)
}

fn clashes(clash: Clash, first: &Signature, second: &Signature) -> bool
    ensures { result ≡ clash_of clash (as_told first.now) (as_told second.now) }
{
    match clash {
        Clash::Types => disagree(first, second),
        Clash::Static => collide(first, second),
    }
}

/// Whether two methods of one name and number of parameters are both of objects, and their types don't agree.
fn disagree(first: &Signature, second: &Signature) -> bool
    ensures { result ≡ disagree (as_told first.now) (as_told second.now) }
{
    share_family(first, second)
        && !is_static(first.kind)
        && !is_static(second.kind)
        && !(all_agree(&first.params, &second.params) && agree(first.gives, second.gives))
}

/// Whether two methods of one name and number of parameters aren't both of objects.
fn collide(first: &Signature, second: &Signature) -> bool
    ensures { result ≡ collide (as_told first.now) (as_told second.now) }
{
    share_family(first, second) && (is_static(first.kind) || is_static(second.kind))
}

fn share_family(first: &Signature, second: &Signature) -> bool
    ensures { result ≡ share_family (as_told first.now) (as_told second.now) }
{
    first.name == second.name && param_count(&first.params) == param_count(&second.params)
}

/// Whether the types of parameters agree, one by one.
fn all_agree(first: &Params, second: &Params) -> bool
    ensures { result ≡ all_agree (types_in first.now) (types_in second.now) }
{
    let count = param_count(first);
    for i in 0..count {
        if !agree_at(first, second, i) {
            return false;
        }
    }
    param_type(second, count).is_none()
}

fn agree_at(first: &Params, second: &Params, index: usize) -> bool
    ensures { result ≡ agree_at (types_in first.now) (types_in second.now) index }
{
    match (param_type(first, index), param_type(second, index)) {
        (Some(ty), Some(other)) => agree(ty, other),
        _ => false,
    }
}

/// Whether two types are equal, or one is refused, so that nothing can be said of it.
fn agree(first: &Ty, second: &Ty) -> bool
    ensures { result ≡ agree first.now second.now }
{
    is_refused(first) || is_refused(second) || same_type(first, second)
}
