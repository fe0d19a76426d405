ghost use Rattle.std.specs.Prelude.{◌≡◌, length, Some, IfOk};
ghost use Rattle.jp_ast.specs.declared.expr.ExprKind.TheOpen as e;
ghost use Rattle.type_rules.specs.Names.{super_method};
ghost use Rattle.type_expr.specs.Settling.{Looks, Settles};

use crate::arguments::arguments;
use crate::spot::Spot;
use crate::values::value;
use iface_codec::IfaceMethod;
use jp_meaning::TypedKind;
use jp_pred::Name;
use std::alloc::{AllocError, Global};
use type_heads::{First, copy_ty, copy_types, is_void, some_misfit, super_method};
use type_rules::{Role, Scope, Seen};

/// `super.name(args)`
#[tactic(auto, unfolding(crate::specs::Settling::faults_at))]
pub(crate) fn super_call(
    alloc: Global,
    scope: &Scope,
    spot: Spot,
    name: &Name,
    args: Vec<Seen>,
    first: &mut First,
) -> Result<Seen, AllocError>
    ensures { IfOk result (λ seen. Settles scope.now spot (e.SuperCall name.now args.items) first.old.fault first.new.fault seen) }
{
    match super_method(alloc, scope, name, args.len())? {
        Some((class, method)) => found_call(alloc, scope, spot, name, class, method, args, first),
        None => {
            first.add_if(spot.place, 23, scope.is_static);
            first.add(spot.place, 34);
            Ok(Seen::Faulty)
        }
    }
}

/// A call of a method that is found.
fn found_call(
    alloc: Global,
    scope: &Scope,
    spot: Spot,
    name: &Name,
    class: &Name,
    method: &IfaceMethod,
    args: Vec<Seen>,
    first: &mut First,
) -> Result<Seen, AllocError>
    requires { super_method scope.now name.now (length args.items) ≡ Some (class.now, method.now) }
    ensures { IfOk result (λ seen. Settles scope.now spot (e.SuperCall name.now args.items) first.old.fault first.new.fault seen) }
{
    if !call_rules(scope, spot, name, class, method, args.as_slice(), first) {
        return Ok(Seen::Faulty);
    }
    let Some(args) = arguments(alloc, args)? else {
        return Ok(Seen::Faulty);
    };
    let kind = TypedKind::CallSuper {
        class: class.copy(alloc)?,
        name: name.copy(alloc)?,
        params: copy_types(alloc, method.params.as_slice())?,
        args,
    };
    value(alloc, spot.place, copy_ty(alloc, &method.result)?, kind)
}

#[tactic(auto, unfolding(crate::specs::Settling::faults_at))]
fn call_rules(
    scope: &Scope,
    spot: Spot,
    name: &Name,
    class: &Name,
    method: &IfaceMethod,
    args: &[Seen],
    first: &mut First,
) -> bool
    requires { super_method scope.now name.now (length args.now) ≡ Some (class.now, method.now) }
    ensures { Looks scope.now spot (e.SuperCall name.now args.now) first.old.fault first.new.fault result }
{
    let is_there = first.add_if(spot.place, 23, scope.is_static);
    let is_misused = is_void(&method.result) && spot.role != Role::Alone;
    let is_used = first.add_if(spot.place, 32, is_misused);
    let heads = scope.heads.as_slice();
    let is_misfit = some_misfit(heads, args, method.params.as_slice());
    let is_fit = first.add_if(spot.place, 34, is_misfit);
    is_there && is_used && is_fit
}
