ghost use Rattle.std.specs.Prelude.{◌≡◌, length, Some, None, IfOk};
ghost use Rattle.jp_ast.specs.declared.expr.ExprKind.TheOpen as e;
ghost use Rattle.type_rules.specs.Names.{called};
ghost use Rattle.type_expr.specs.Settling.{Looks, Settles};

use crate::arguments::arguments;
use crate::calls::own_call;
use crate::spot::Spot;
use iface_codec::IfaceMethod;
use jp_pred::Name;
use std::alloc::{AllocError, Global};
use type_heads::{First, is_static, is_void, own_method, some_misfit};
use type_rules::{Role, Scope, Seen};

/// `name(args)`
#[tactic(auto, unfolding(crate::specs::Settling::faults_at))]
pub(crate) fn call(
    alloc: Global,
    scope: &Scope,
    spot: Spot,
    name: &Name,
    args: Vec<Seen>,
    first: &mut First,
) -> Result<Seen, AllocError>
    ensures { IfOk result (λ seen. Settles scope.now spot (e.Call None name.now args.items) first.old.fault first.new.fault seen) }
{
    match own_method(alloc, scope, name, args.len())? {
        Some((class, method)) => found_call(alloc, scope, spot, name, class, method, args, first),
        None => {
            first.add(spot.place, 32);
            Ok(Seen::Faulty)
        }
    }
}

/// A call of a method that is found.
fn found_call(
    alloc: Global,
    scope: &Scope,
    spot: Spot,
    name: &Name,
    class: &Name,
    method: &IfaceMethod,
    args: Vec<Seen>,
    first: &mut First,
) -> Result<Seen, AllocError>
    requires { called scope.now None name.now (length args.items) ≡ Some (class.now, method.now) }
    ensures { IfOk result (λ seen. Settles scope.now spot (e.Call None name.now args.items) first.old.fault first.new.fault seen) }
{
    if !call_rules(scope, spot, name, class, method, args.as_slice(), first) {
        return Ok(Seen::Faulty);
    }
    let Some(args) = arguments(alloc, args)? else {
        return Ok(Seen::Faulty);
    };
    own_call(alloc, scope, spot.place, class, method, args)
}

#[tactic(auto, unfolding(crate::specs::Settling::faults_at))]
fn call_rules(
    scope: &Scope,
    spot: Spot,
    name: &Name,
    class: &Name,
    method: &IfaceMethod,
    args: &[Seen],
    first: &mut First,
) -> bool
    requires { called scope.now None name.now (length args.now) ≡ Some (class.now, method.now) }
    ensures { Looks scope.now spot (e.Call None name.now args.now) first.old.fault first.new.fault result }
{
    let is_there = first.add_if(spot.place, 23, scope.is_static && !is_static(method.kind));
    let is_misused = is_void(&method.result) && spot.role != Role::Alone;
    let heads = scope.heads.as_slice();
    let is_misfit = some_misfit(heads, args, method.params.as_slice());
    let is_called = first.add_if(spot.place, 32, is_misfit || is_misused);
    is_there && is_called
}
