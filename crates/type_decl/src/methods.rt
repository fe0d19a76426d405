ghost use Rattle.std.specs.Prelude.{◌≡◌, map, IfOk};
ghost use Rattle.type_rules.specs.Heads.{as_method_with, method, static_kind, param_types};

use iface_codec::{IfaceMethod, MethodKind};
use jp_ast::{Member, MemberPart, Param};
use jp_pred::{Guard, Path, Ty};
use sqlite_items::Items;
use std::alloc::{AllocError, Global};
use type_heads::copy_ty;

/// The head of a member that is a method, with what its body reads on entry.
pub(crate) fn method_head(
    alloc: Global,
    member: &Member,
    entry: Items<(Path, Ty)>,
) -> Result<Option<IfaceMethod>, AllocError>
    ensures { IfOk result (λ head. head ≡ as_method_with entry member.now) }
{
    match &member.part {
        MemberPart::Static { result, .. } => {
            let kind = static_kind(member.is_private);
            Ok(Some(method(alloc, member, kind, result, Items::new(alloc))?))
        }
        MemberPart::Abstract { result } => {
            let kind = MethodKind::Abstract;
            Ok(Some(method(alloc, member, kind, result, Items::new(alloc))?))
        }
        MemberPart::Body { result, .. } => {
            Ok(Some(method(alloc, member, MethodKind::Body, result, entry)?))
        }
        MemberPart::Field { .. } | MemberPart::Constructor { .. } => Ok(None),
    }
}

fn static_kind(is_private: bool) -> MethodKind
    ensures { result ≡ static_kind is_private }
{
    if is_private {
        MethodKind::PrivateStatic
    } else {
        MethodKind::Static
    }
}

fn method(
    alloc: Global,
    member: &Member,
    kind: MethodKind,
    gives: &Ty,
    entry: Items<(Path, Ty)>,
) -> Result<IfaceMethod, AllocError>
    ensures { IfOk result (λ head. head ≡ method member.now.name kind (param_types member.now) gives.now entry) }
{
    let name = member.name.copy(alloc)?;
    let params = types_of(alloc, member.params.as_slice())?;
    let gives = copy_ty(alloc, gives)?;
    Ok(IfaceMethod {
        name,
        kind,
        params,
        result: gives,
        guard: Guard::True,
        aliases: entry,
    })
}

fn types_of(alloc: Global, params: &[Param]) -> Result<Items<Ty>, AllocError>
    ensures { IfOk result (λ types. types ≡ map (λ p. p.ty) params.now) }
{
    let mut types = Items::new(alloc);
    for param in params {
        types.push(copy_ty(alloc, &param.ty)?)?;
    }
    Ok(types)
}
