ghost use Rattle.std.specs.Prelude.{◌≡◌, length, Some, true, IfOk};
ghost use Rattle.std.specs.Option.{option_map_or};
ghost use Rattle.jp_ast.specs.declared.expr.ExprKind.TheOpen as e;
ghost use Rattle.type_rules.specs.Names.{called};
ghost use Rattle.type_rules.specs.RulesOfExpressions.{is_judged, is_of_wrong_kind, miscalled};
ghost use Rattle.type_heads.specs.Members.{method_at};
ghost use Rattle.type_expr.specs.DotCalls.{unknown_call, class_call, value_call, found_call};
ghost use Rattle.type_expr.specs.Settling.{Looks, Settles};

use crate::arguments::{are_texts, arguments, text_of};
use crate::calls::{static_call, virtual_call};
use crate::spot::Spot;
use crate::values::value;
use iface_codec::IfaceMethod;
use jp_ast::Place;
use jp_meaning::{TypedExpr, TypedKind};
use jp_pred::{Name, Ty};
use sqlite_items::Items;
use std::alloc::{AllocError, Global};
use type_heads::{
    First, called, class_of_value, is_static, is_text_call, is_unknown, is_void, some_misfit, typed,
};
use type_rules::{Known, Role, Scope, Seen};

/// `object.name(args)`
#[tactic(auto, using(crate::proofs::Found::found_is))]
pub(crate) fn call_on(
    alloc: Global,
    scope: &Scope,
    spot: Spot,
    object: Seen,
    name: &Name,
    args: Vec<Seen>,
    first: &mut First,
) -> Result<Seen, AllocError>
    ensures { IfOk result (λ seen. Settles scope.now spot (e.Call (Some object) name.now args.items) first.old.fault first.new.fault seen) }
{
    let found = called(alloc, scope, &object, name, args.len())?;
    if !call_rules(scope, spot, &object, name, args.as_slice(), found, first) {
        return Ok(Seen::Faulty);
    }
    if is_text_call(&object, name) {
        let text = text_of(alloc, args.as_slice())?;
        return value(alloc, spot.place, Ty::Void, TypedKind::Show(text));
    }
    let Some(args) = arguments(alloc, args)? else {
        return Ok(Seen::Faulty);
    };
    resolved_call(alloc, scope, spot.place, object, name, found, args)
}

#[tactic(auto, unfolding(crate::specs::Settling::faults_at))]
fn call_rules(
    scope: &Scope,
    spot: Spot,
    object: &Seen,
    name: &Name,
    args: &[Seen],
    found: Option<(&Name, &IfaceMethod)>,
    first: &mut First,
) -> bool
    requires { method_at found ≡ called scope.now (Some object.now) name.now (length args.now) }
    ensures { Looks scope.now spot (e.Call (Some object.now) name.now args.now) first.old.fault first.new.fault result }
{
    let is_wrong = is_miscalled(scope, spot.role, object, args, found)
        || (is_text_call(object, name) && !are_texts(args));
    first.add_if(spot.place, 32, is_judged(object) && is_wrong)
}

/// Whether it is known what stands before the dot.
fn is_judged(object: &Seen) -> bool
    ensures { result ≡ is_judged (Some object.now) }
{
    match object {
        Seen::Class(_) => true,
        _ => typed(object).is_some(),
    }
}

/// Whether the call breaks the rule: there is no such method, or by its kind, its arguments, or as a value that it
/// doesn't have.
fn is_miscalled(
    scope: &Scope,
    role: Role,
    object: &Seen,
    args: &[Seen],
    found: Option<(&Name, &IfaceMethod)>,
) -> bool
    ensures { result ≡ option_map_or (miscalled scope.now role (Some object.now) args.now) (method_at found.entry) true }
{
    let Some((_, method)) = found else {
        return true;
    };
    let is_misused = is_void(&method.result) && role != Role::Alone;
    is_of_wrong_kind(object, method)
        || some_misfit(scope.heads.as_slice(), args, method.params.as_slice())
        || is_misused
}

/// Whether the method isn't static behind a class, or is behind a value.
fn is_of_wrong_kind(object: &Seen, method: &IfaceMethod) -> bool
    ensures { result ≡ is_of_wrong_kind (Some object.now) method.now }
{
    match object {
        Seen::Class(_) => !is_static(method.kind),
        _ => is_static(method.kind),
    }
}

fn resolved_call(
    alloc: Global,
    scope: &Scope,
    place: Place,
    object: Seen,
    name: &Name,
    found: Option<(&Name, &IfaceMethod)>,
    args: Items<TypedExpr>,
) -> Result<Seen, AllocError>
    ensures { IfOk result (λ seen. seen ≡ found_call scope.now place object name.now (method_at found.entry) args) }
{
    match object {
        Seen::Class(_class) => class_call(alloc, place, found, args),
        Seen::Value(known) => value_call(alloc, scope, place, known, name, found, args),
        Seen::Faulty | Seen::Text(_) => Ok(Seen::Faulty),
    }
}

fn class_call(
    alloc: Global,
    place: Place,
    found: Option<(&Name, &IfaceMethod)>,
    args: Items<TypedExpr>,
) -> Result<Seen, AllocError>
    ensures { IfOk result (λ seen. seen ≡ class_call place (method_at found.entry) args) }
{
    match found {
        Some((class, method)) => static_call(alloc, place, class, method, args),
        None => Ok(Seen::Faulty),
    }
}

fn value_call(
    alloc: Global,
    scope: &Scope,
    place: Place,
    known: Known,
    name: &Name,
    found: Option<(&Name, &IfaceMethod)>,
    args: Items<TypedExpr>,
) -> Result<Seen, AllocError>
    ensures { IfOk result (λ seen. seen ≡ value_call scope.now place known name.now (method_at found.entry) args) }
{
    if is_unknown(&known.expr.get().ty) {
        return unknown_call(alloc, place, known, name, args);
    }
    let Some(class) = class_of_value(&known) else {
        return Ok(Seen::Faulty);
    };
    let class = class.copy(alloc)?;
    let Some((_, method)) = found else {
        return Ok(Seen::Faulty);
    };
    virtual_call(alloc, scope, place, known.expr, class, method, args)
}

/// A call on a value of unknown type, of which nothing is known.
fn unknown_call(
    alloc: Global,
    place: Place,
    known: Known,
    name: &Name,
    args: Items<TypedExpr>,
) -> Result<Seen, AllocError>
    ensures { IfOk result (λ seen. seen ≡ unknown_call place known name.now args) }
{
    let kind = TypedKind::CallVirtual {
        object: known.expr,
        class: Name::from_bytes(alloc, b"")?,
        is_interface: false,
        name: name.copy(alloc)?,
        params: Items::new(alloc),
        args,
    };
    value(alloc, place, Ty::Void, kind)
}
