ghost use Rattle.std.specs.Prelude.{◌≡◌, ◌++◌, map, IfOk, OnOk};
ghost use Rattle.type_rules.specs.Units.{guard_scope, is_static_part, result_part};
ghost use Rattle.type_decl.specs.Parts.{seat_of, param_variable, alias_variable, alias_entry, scope_behind};

use crate::copies::copy_path;
use iface_codec::Iface;
use jp_ast::{Decl, Member, MemberPart, Param};
use jp_pred::{Path, Ty};
use sqlite_items::Items;
use std::alloc::{AllocError, Global};
use type_heads::copy_ty;
use type_rules::{Alias, GuardScope, Scope, Variable};

/// The scope of a member's guard.
pub(crate) fn guard_scope(
    alloc: Global,
    heads: Items<Iface>,
    decl: &Decl,
    member: &Member,
) -> Result<GuardScope, AllocError>
    ensures { IfOk result (λ c. c ≡ guard_scope (seat_of heads decl.now) member.now) }
{
    let class = decl.name.copy(alloc)?;
    let params = variables_of(alloc, member.params.as_slice())?;
    Ok(GuardScope {
        heads,
        class,
        params,
        aliases: Items::new(alloc),
        tests: Items::new(alloc),
        is_outermost: true,
    })
}

/// Parameters, as variables.
fn variables_of(alloc: Global, params: &[Param]) -> Result<Items<Variable>, AllocError>
    ensures { IfOk result (λ all. all ≡ map param_variable params.now) }
{
    let mut all = Items::new(alloc);
    for param in params {
        let name = param.name.copy(alloc)?;
        let ty = copy_ty(alloc, &param.ty)?;
        all.push(Variable { name, ty })?;
    }
    Ok(all)
}

/// What a body with these aliases reads on entry.
pub(crate) fn entry_of(alloc: Global, aliases: &[Alias]) -> Result<Items<(Path, Ty)>, AllocError>
    ensures { IfOk result (λ all. all ≡ map alias_entry aliases.now) }
{
    let mut all = Items::new(alloc);
    for alias in aliases {
        let path = copy_path(alloc, &alias.path)?;
        let ty = copy_ty(alloc, &alias.ty)?;
        all.push((path, ty))?;
    }
    Ok(all)
}

/// The scope of a member's statements, behind its guard: the parameters are in scope, and then the aliases.
pub(crate) fn body_scope(
    alloc: Global,
    scope: GuardScope,
    part: &MemberPart,
) -> Result<Scope, AllocError>
    ensures { IfOk result (λ c. c ≡ scope_behind scope part.now) }
{
    let GuardScope {
        heads,
        class,
        params,
        aliases,
        ..
    } = scope;
    let mut variables = params;
    add_aliases(alloc, aliases.as_slice(), &mut variables)?;
    let gives = result_of(alloc, part)?;
    Ok(Scope {
        heads,
        class,
        is_static: is_static(part),
        result: gives,
        is_in_loop: false,
        variables,
    })
}

fn add_aliases(
    alloc: Global,
    aliases: &[Alias],
    variables: &mut Items<Variable>,
) -> Result<(), AllocError>
    ensures { OnOk result (variables.new ≡ variables.old ++ map alias_variable aliases.now) }
{
    for alias in aliases {
        let name = alias.name.copy(alloc)?;
        let ty = copy_ty(alloc, &alias.ty)?;
        variables.push(Variable { name, ty })?;
    }
    Ok(())
}

/// Whether it is a static method.
fn is_static(part: &MemberPart) -> bool
    ensures { result ≡ is_static_part part.now }
{
    matches!(part, MemberPart::Static { .. })
}

/// The result of a method, and void of another member.
fn result_of(alloc: Global, part: &MemberPart) -> Result<Ty, AllocError>
    ensures { IfOk result (λ copy. copy ≡ result_part part.now) }
{
    match part {
        MemberPart::Static { result, .. }
        | MemberPart::Abstract { result }
        | MemberPart::Body { result, .. } => copy_ty(alloc, result),
        MemberPart::Field { .. } | MemberPart::Constructor { .. } => Ok(Ty::Void),
    }
}
