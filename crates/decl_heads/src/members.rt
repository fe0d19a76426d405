ghost use Rattle.std.specs.Prelude.{◌≡◌, [], map, IfOk};
ghost use Rattle.type_rules.specs.Heads.{as_field, as_constructor, as_method, method, static_kind, param_types};

use crate::language::method;
use iface_codec::{IfaceField, IfaceMethod, MethodKind};
use jp_ast::{Member, MemberPart, Param};
use jp_pred::Ty;
use sqlite_items::Items;
use std::alloc::{AllocError, Global};
use type_heads::copy_ty;

/// The head of a member that is a field.
pub(crate) fn field_head(alloc: Global, member: &Member) -> Result<Option<IfaceField>, AllocError>
    ensures { IfOk result (λ head. head ≡ as_field member.now) }
{
    match &member.part {
        MemberPart::Field { ty, is_static } => Ok(Some(IfaceField {
            name: member.name.copy(alloc)?,
            ty: copy_ty(alloc, ty)?,
            is_private: member.is_private,
            is_static: *is_static,
        })),
        _ => Ok(None),
    }
}

/// The types of the parameters of a member that is a constructor.
pub(crate) fn constructor_head(
    alloc: Global,
    member: &Member,
) -> Result<Option<Items<Ty>>, AllocError>
    ensures { IfOk result (λ head. head ≡ as_constructor member.now) }
{
    match &member.part {
        MemberPart::Constructor { .. } => Ok(Some(types_of(alloc, member.params.as_slice())?)),
        _ => Ok(None),
    }
}

/// The head of a member that is a method, without what it reads on entry.
pub(crate) fn method_head(alloc: Global, member: &Member) -> Result<Option<IfaceMethod>, AllocError>
    ensures { IfOk result (λ head. head ≡ as_method member.now) }
{
    match &member.part {
        MemberPart::Static { result, .. } => {
            let kind = static_kind(member.is_private);
            Ok(Some(method_of(alloc, member, kind, result)?))
        }
        MemberPart::Abstract { result } => {
            Ok(Some(method_of(alloc, member, MethodKind::Abstract, result)?))
        }
        MemberPart::Body { result, .. } => {
            Ok(Some(method_of(alloc, member, MethodKind::Body, result)?))
        }
        MemberPart::Field { .. } | MemberPart::Constructor { .. } => Ok(None),
    }
}

/// What a static method is, which may be private.
pub fn static_kind(is_private: bool) -> MethodKind
    ensures { result ≡ static_kind is_private }
{
    if is_private {
        MethodKind::PrivateStatic
    } else {
        MethodKind::Static
    }
}

fn method_of(
    alloc: Global,
    member: &Member,
    kind: MethodKind,
    gives: &Ty,
) -> Result<IfaceMethod, AllocError>
    ensures { IfOk result (λ head. head ≡ method member.now.name kind (param_types member.now) gives.now []) }
{
    let name = member.name.copy(alloc)?;
    let params = types_of(alloc, member.params.as_slice())?;
    let gives = copy_ty(alloc, gives)?;
    Ok(method(alloc, name, kind, params, gives))
}

fn types_of(alloc: Global, params: &[Param]) -> Result<Items<Ty>, AllocError>
    ensures { IfOk result (λ types. types ≡ map (λ p. p.ty) params.now) }
{
    let mut types = Items::new(alloc);
    for param in params {
        types.push(copy_ty(alloc, &param.ty)?)?;
    }
    Ok(types)
}
