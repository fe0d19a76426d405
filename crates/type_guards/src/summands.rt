ghost use Rattle.std.specs.Prelude.{◌≡◌, ◌≤◌, length, IfOk};
ghost use Rattle.type_guards.specs.Summands.{FindsPart, FindsSummand, FindsSummands, LooksAtSummand, with_summand};

use crate::paths::path;
use jp_ast::{PathText, Summand};
use jp_meaning::{TypedPath, TypedSummand};
use sqlite_items::Items;
use std::alloc::{AllocError, Global};
use type_heads::First;
use type_rules::GuardScope;

/// The resolved summands of a side of a comparison, where none has a fault.
pub(crate) fn summands(
    alloc: Global,
    scope: &GuardScope,
    all: &[Summand],
    first: &mut First,
) -> Result<Option<Items<TypedSummand>>, AllocError>
    requires { length scope.now.params ≤ 255 }
    ensures { IfOk result (λ found. FindsSummands scope.now all.now first.old.fault first.new.fault found) }
{
    let mut done = Some(Items::new(alloc));
    for one in all {
        let found = summand(alloc, scope, one, first)?;
        done = with_summand(done, found)?;
    }
    Ok(done)
}

fn with_summand(
    done: Option<Items<TypedSummand>>,
    found: Option<TypedSummand>,
) -> Result<Option<Items<TypedSummand>>, AllocError>
    ensures { IfOk result (λ more. more ≡ with_summand done found) }
{
    let Some(mut done) = done else {
        return Ok(None);
    };
    let Some(found) = found else {
        return Ok(None);
    };
    done.push(found)?;
    Ok(Some(done))
}

fn summand(
    alloc: Global,
    scope: &GuardScope,
    summand: &Summand,
    first: &mut First,
) -> Result<Option<TypedSummand>, AllocError>
    requires { length scope.now.params ≤ 255 }
    ensures { IfOk result (λ found. FindsSummand scope.now summand.now first.old.fault first.new.fault found) }
{
    let path = path_of(alloc, scope, &summand.path, first)?;
    let sound = number_rules(summand, first);
    if !sound {
        return Ok(None);
    }
    let Some(path) = path else {
        return Ok(None);
    };
    Ok(Some(TypedSummand {
        place: summand.place,
        negative: summand.negative,
        factor: summand.factor,
        path,
    }))
}

/// The path of a summand, where it has none or one without a fault.
fn path_of(
    alloc: Global,
    scope: &GuardScope,
    text: &Option<PathText>,
    first: &mut First,
) -> Result<Option<Option<TypedPath>>, AllocError>
    requires { length scope.now.params ≤ 255 }
    ensures { IfOk result (λ found. FindsPart scope.now text.now first.old.fault first.new.fault found) }
{
    let Some(text) = text else {
        return Ok(Some(None));
    };
    match path(alloc, scope, true, text, first)? {
        Some(path) => Ok(Some(Some(path))),
        None => Ok(None),
    }
}

#[tactic(auto, unfolding(crate::specs::Finding::faults_at))]
fn number_rules(summand: &Summand, first: &mut First) -> bool
    ensures { LooksAtSummand summand.now first.old.fault first.new.fault result }
{
    let is_too_large = match summand.factor {
        Some((value, hex)) => value == 2_147_483_648 && !hex,
        None => false,
    };
    first.add_if(summand.place, 21, is_too_large && !summand.negative)
}
