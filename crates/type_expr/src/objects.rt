ghost use Rattle.std.specs.Prelude.{◌≡◌, ◌||◌, length, Some, None, true, not, option_and_then, IfOk};
ghost use Rattle.std.specs.Option.{option_copied, option_map_or};
ghost use Rattle.jp_ast.specs.declared.expr.ExprKind.TheOpen as e;
ghost use Rattle.type_rules.specs.Heads.{head_of, is_concrete};
ghost use Rattle.type_rules.specs.Lookups.{constructor_of};
ghost use Rattle.type_rules.specs.RulesOfDeclarations.{cant_construct};
ghost use Rattle.type_expr.specs.Settling.{Looks, Settles};

use crate::arguments::arguments;
use crate::spot::Spot;
use crate::values::value;
use iface_codec::Iface;
use jp_meaning::TypedKind;
use jp_pred::{Name, Ty};
use std::alloc::{AllocError, Global};
use type_heads::{
    First, constructor_of, copy_types, head_of, is_concrete, is_reserved, some_misfit,
};
use type_rules::{Scope, Seen};

/// `new class(args)`
pub(crate) fn new_object(
    alloc: Global,
    scope: &Scope,
    spot: Spot,
    class: &Name,
    args: Vec<Seen>,
    first: &mut First,
) -> Result<Seen, AllocError>
    ensures { IfOk result (λ seen. Settles scope.now spot (e.New class.now args.items) first.old.fault first.new.fault seen) }
{
    if !new_rules(scope, spot, class, args.as_slice(), first) {
        return Ok(Seen::Faulty);
    }
    let params = constructor_named(scope, class, args.len());
    let Some(args) = arguments(alloc, args)? else {
        return Ok(Seen::Faulty);
    };
    let Some(params) = params else {
        return Ok(Seen::Faulty);
    };
    let kind = TypedKind::New {
        class: class.copy(alloc)?,
        params: copy_types(alloc, params)?,
        args,
    };
    value(alloc, spot.place, Ty::Class(class.copy(alloc)?), kind)
}

#[tactic(auto, unfolding(crate::specs::Settling::faults_at))]
fn new_rules(scope: &Scope, spot: Spot, class: &Name, args: &[Seen], first: &mut First) -> bool
    ensures { Looks scope.now spot (e.New class.now args.now) first.old.fault first.new.fault result }
{
    let is_type = first.add_if(spot.place, 2, is_reserved(class));
    let heads = scope.heads.as_slice();
    let is_made = first.add_if(spot.place, 33, cant_make(heads, class, args));
    is_type && is_made
}

/// Whether no object is made so: there is no such class, or none with objects, or no constructor that takes the
/// arguments.
fn cant_make(heads: &[Iface], class: &Name, args: &[Seen]) -> bool
    ensures { result ≡ option_map_or (λ h. not (is_concrete h) || cant_construct heads.now args.now h) (head_of heads.now class.now) true }
{
    match head_of(heads, class) {
        Some(head) => !is_concrete(head) || cant_construct(heads, args, head),
        None => true,
    }
}

/// Whether the class has no constructor that takes these arguments.
pub fn cant_construct(heads: &[Iface], args: &[Seen], class: &Iface) -> bool
    ensures { result ≡ cant_construct heads.now args.now class.now }
{
    match constructor_of(class, args.len()) {
        Some(params) => some_misfit(heads, args, params),
        None => true,
    }
}

/// The types of the parameters of the constructor of that count of the class.
fn constructor_named<'a>(scope: &'a Scope, class: &Name, count: usize) -> Option<&'a [Ty]>
    ensures { option_copied result ≡ option_and_then (λ h. constructor_of h count) (head_of scope.now.heads class.now) }
{
    constructor_of(head_of(scope.heads.as_slice(), class)?, count)
}
