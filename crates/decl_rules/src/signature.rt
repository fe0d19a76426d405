ghost use Rattle.std.specs.Prelude.{◌≡◌, [], length};
ghost use Rattle.std.specs.List.{slice_get};
ghost use Rattle.std.specs.Option.{option_copied, option_map};
ghost use Rattle.type_rules.specs.Heads.{as_method, method, param_types};
ghost use Rattle.decl_rules.specs.Signatures.{types_in, as_told, bare};

use decl_heads::static_kind;
use iface_codec::{IfaceMethod, MethodKind};
use jp_ast::{Member, MemberPart, Param};
use jp_pred::{Name, Ty};
use sqlite_items::at;

/// The parameters of a method, as they are written or as its head tells their types.
#[derive(Clone, Copy)]
pub(crate) enum Params<'a> {
    Written(&'a [Param]),
    Told(&'a [Ty]),
}

/// What the rules compare of a method.
#[derive(Clone, Copy)]
pub(crate) struct Signature<'a> {
    pub(crate) name: &'a Name,
    pub(crate) kind: MethodKind,
    pub(crate) params: Params<'a>,
    pub(crate) gives: &'a Ty,
}

/// The signature of a member that is a method.
pub(crate) fn written(member: &Member) -> Option<Signature<'_>>
    ensures { option_map as_told result ≡ as_method member.now }
{
    match &member.part {
        MemberPart::Static { result, .. } => {
            let kind = static_kind(member.is_private);
            Some(signature_of(member, kind, result))
        }
        MemberPart::Abstract { result } => {
            Some(signature_of(member, MethodKind::Abstract, result))
        }
        MemberPart::Body { result, .. } => Some(signature_of(member, MethodKind::Body, result)),
        MemberPart::Field { .. } | MemberPart::Constructor { .. } => None,
    }
}

fn signature_of<'a>(member: &'a Member, kind: MethodKind, gives: &'a Ty) -> Signature<'a>
    ensures { as_told result ≡ method member.now.name kind (param_types member.now) gives.now [] }
{
    Signature {
        name: &member.name,
        kind,
        params: Params::Written(member.params.as_slice()),
        gives,
    }
}

/// The signature of a method as its head tells it.
pub(crate) fn told(method: &IfaceMethod) -> Signature<'_>
    ensures { as_told result ≡ bare method.now }
{
    Signature {
        name: &method.name,
        kind: method.kind,
        params: Params::Told(method.params.as_slice()),
        gives: &method.result,
    }
}

pub(crate) fn param_count(params: &Params) -> usize
    ensures { result ≡ length (types_in params.now) }
{
    match params {
        Params::Written(all) => all.len(),
        Params::Told(types) => types.len(),
    }
}

pub(crate) fn param_type<'a>(params: &Params<'a>, index: usize) -> Option<&'a Ty>
    ensures { option_copied result ≡ slice_get (types_in params.now) index }
{
    match params {
        Params::Written(all) => Some(&at(all, index)?.ty),
        Params::Told(types) => at(types, index),
    }
}
