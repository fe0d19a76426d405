ghost use Rattle.std.specs.Prelude.{◌≡◌, [], ◌∷◌, IfOk};
ghost use Rattle.std.specs.List.{flat_map};
ghost use Rattle.jp_pred.specs.Hierarchy.{parents, or_none};
ghost use Rattle.jp_meaning.specs.Classes.{hier_in};
ghost use Rattle.type_rules.specs.Types.{is_among};
ghost use Rattle.type_heads.specs.Supertypes.{words_at};
ghost use Rattle.whole_classes.specs.Above.{IsJoined, StaysJoined, HoldsAbove};

use crate::classes::class_in;
use jp_meaning::TypedClass;
use jp_pred::Name;
use std::alloc::{AllocError, Global};

/// A class's name and those of all that is above it, each once. Object is there only where a class names it.
pub(crate) fn names_above<'a>(
    alloc: Global,
    classes: &'a [TypedClass],
    name: &'a Name,
) -> Result<Vec<&'a Name>, AllocError>
    ensures { IfOk result (λ names. HoldsAbove classes.now name.now (words_at names.items)) }
{
    let mut met = vec![in alloc; name]?;
    let mut frontier = vec![in alloc; name]?;
    for _i in 0..classes.len() {
        frontier = go_up(alloc, classes, frontier.as_slice(), &mut met)?;
    }
    Ok(met)
}

/// Adds the supertypes of classes to the names that were met, and answers the fresh ones.
fn go_up<'a>(
    alloc: Global,
    classes: &'a [TypedClass],
    frontier: &[&'a Name],
    met: &mut Vec<&'a Name>,
) -> Result<Vec<&'a Name>, AllocError>
    ensures met { IfOk result (λ _. IsJoined (words_at met.new.items) (words_at met.old.items)
        (flat_map (parents (hier_in classes.now)) (words_at frontier.now))) }
    ensures fresh { IfOk result (λ fresh. IsJoined (words_at met.new.items) (words_at met.old.items) (words_at fresh.items)) }
{
    let mut fresh = Vec::new(alloc);
    for name in frontier {
        add_supertypes(classes, name, met, &mut fresh)?;
    }
    Ok(fresh)
}

/// Adds what the first class of that name extends and implements.
fn add_supertypes<'a>(
    classes: &'a [TypedClass],
    name: &Name,
    met: &mut Vec<&'a Name>,
    fresh: &mut Vec<&'a Name>,
) -> Result<(), AllocError>
    ensures met { IfOk result (λ _. IsJoined (words_at met.new.items) (words_at met.old.items) (parents (hier_in classes.now) name.now)) }
    ensures fresh { IfOk result (λ _. StaysJoined (words_at met.old.items) (words_at fresh.old.items) (words_at met.new.items) (words_at fresh.new.items)) }
{
    let Some(class) = class_in(classes, name) else {
        return Ok(());
    };
    add_superclass(&class.head.superclass, met, fresh)?;
    add_names(class.head.interfaces.as_slice(), met, fresh)?;
    Ok(())
}

fn add_superclass<'a>(
    superclass: &'a Option<Name>,
    met: &mut Vec<&'a Name>,
    fresh: &mut Vec<&'a Name>,
) -> Result<(), AllocError>
    ensures met { IfOk result (λ _. IsJoined (words_at met.new.items) (words_at met.old.items) (or_none superclass.now)) }
    ensures fresh { IfOk result (λ _. StaysJoined (words_at met.old.items) (words_at fresh.old.items) (words_at met.new.items) (words_at fresh.new.items)) }
{
    match superclass {
        Some(name) => add_name(name, met, fresh),
        None => Ok(()),
    }
}

fn add_names<'a>(
    names: &'a [Name],
    met: &mut Vec<&'a Name>,
    fresh: &mut Vec<&'a Name>,
) -> Result<(), AllocError>
    ensures met { IfOk result (λ _. IsJoined (words_at met.new.items) (words_at met.old.items) names.now) }
    ensures fresh { IfOk result (λ _. StaysJoined (words_at met.old.items) (words_at fresh.old.items) (words_at met.new.items) (words_at fresh.new.items)) }
{
    for name in names {
        add_name(name, met, fresh)?;
    }
    Ok(())
}

/// Adds a name to those that were met, and to the fresh ones, where it wasn't met before.
fn add_name<'a>(
    name: &'a Name,
    met: &mut Vec<&'a Name>,
    fresh: &mut Vec<&'a Name>,
) -> Result<(), AllocError>
    ensures met { IfOk result (λ _. IsJoined (words_at met.new.items) (words_at met.old.items) (name.now ∷ [])) }
    ensures fresh { IfOk result (λ _. StaysJoined (words_at met.old.items) (words_at fresh.old.items) (words_at met.new.items) (words_at fresh.new.items)) }
{
    if is_among(name, met.as_slice()) {
        return Ok(());
    }
    met.push(name)?;
    fresh.push(name)?;
    Ok(())
}

/// Whether the name stands among the names.
pub(crate) fn is_among(name: &Name, names: &[&Name]) -> bool
    ensures { result ≡ is_among name.now (words_at names.now) }
{
    for other in names {
        if *other == name {
            return true;
        }
    }
    false
}
