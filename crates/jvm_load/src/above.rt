ghost use Rattle.std.specs.Prelude.{◌≡◌, ◌<◌, ◌^◌, ℕ, List, [], ◌∷◌, ◌++◌, length, map, IfOk};
ghost use Rattle.std.specs.Option.{option_map_or};
ghost use Rattle.std.specs.List.{flat_map, filter_map};
ghost use Rattle.jp_store.specs.Classes.{place_of, supers_of};
ghost use Rattle.jvm_load.specs.FileClasses.{class_text_at, classes_of};
ghost use Rattle.jvm_load.specs.Above.{IsJoined, HoldsAbove, AreAbove};

use crate::names::{class_text, find_class, super_place};
use crate::number_set::NumberSet;
use class_form::ClassFile;
use std::alloc::{AllocError, Global};

fn push_place(places: &mut Vec<u32>, place: Option<u32>) -> Result<(), AllocError>
    ensures { IfOk result (λ _. places.new.items ≡ places.old.items ++ option_map_or (λ at. at ∷ []) place []) }
{
    if let Some(at) = place {
        places.push(at)?;
    }
    Ok(())
}

fn push_interfaces(
    places: &mut Vec<u32>,
    files: &[ClassFile],
    file: &ClassFile,
    names: &[u16],
) -> Result<(), AllocError>
    requires { length files.now < 2 ^ 32 }
    ensures { IfOk result (λ _. places.new.items
        ≡ places.old.items ++ filter_map (place_of (classes_of files.now)) (map (class_text_at file.now) names.now)) }
{
    for name in names {
        push_place(places, find_class(files, class_text(file, *name)))?;
    }
    Ok(())
}

// Where the super types stand that the class at a position names: the super class, then the interfaces.
fn supers_at(alloc: Global, files: &[ClassFile], at: u32) -> Result<Vec<u32>, AllocError>
    requires { length files.now < 2 ^ 32 }
    ensures { IfOk result (λ supers. supers.items ≡ supers_of (classes_of files.now) at) }
{
    let mut supers = Vec::new(alloc);
    if let Some(file) = files.get(at as usize) {
        push_place(&mut supers, super_place(files, at))?;
        push_interfaces(&mut supers, files, file, file.interfaces.as_slice())?;
    }
    Ok(supers)
}

// Adds a position to those that were met, and to the fresh ones, if it wasn't met before.
fn add_new(met: &mut Vec<u32>, fresh: &mut Vec<u32>, at: u32) -> Result<(), AllocError>
    ensures met { IfOk result (λ _. IsJoined met.new.items met.old.items (at ∷ [])) }
    ensures fresh { IfOk result (λ _. (base : List ℕ) → IsJoined met.old.items base fresh.old.items
        → IsJoined met.new.items base fresh.new.items) }
{
    if !met.as_slice().contains(&at) {
        met.push(at)?;
        fresh.push(at)?;
    }
    Ok(())
}

fn add_all(met: &mut Vec<u32>, fresh: &mut Vec<u32>, supers: &[u32]) -> Result<(), AllocError>
    ensures met { IfOk result (λ _. IsJoined met.new.items met.old.items supers.now) }
    ensures fresh { IfOk result (λ _. (base : List ℕ) → IsJoined met.old.items base fresh.old.items
        → IsJoined met.new.items base fresh.new.items) }
{
    for at in supers {
        add_new(met, fresh, *at)?;
    }
    Ok(())
}

// Adds the super types of classes to those that were met, and answers the fresh ones.
fn go_up(
    alloc: Global,
    files: &[ClassFile],
    frontier: &[u32],
    met: &mut Vec<u32>,
) -> Result<Vec<u32>, AllocError>
    requires { length files.now < 2 ^ 32 }
    ensures met { IfOk result (λ _. IsJoined met.new.items met.old.items (flat_map (supers_of (classes_of files.now)) frontier.now)) }
    ensures fresh { IfOk result (λ fresh. IsJoined met.new.items met.old.items fresh.items) }
{
    let mut fresh = Vec::new(alloc);
    for at in frontier {
        let supers = supers_at(alloc, files, *at)?;
        add_all(met, &mut fresh, supers.as_slice())?;
    }
    Ok(fresh)
}

// The positions of the classes that the class at a position is or is below, each visited once.
fn find_above(alloc: Global, files: &[ClassFile], at: u32) -> Result<Vec<u32>, AllocError>
    requires { length files.now < 2 ^ 32 }
    ensures { IfOk result (λ met. HoldsAbove (classes_of files.now) at met.items) }
{
    let mut met = vec![in alloc; at]?;
    let mut frontier = vec![in alloc; at]?;
    for _i in 0..files.len() {
        frontier = go_up(alloc, files, frontier.as_slice(), &mut met)?;
    }
    Ok(met)
}

pub(crate) fn all_above(alloc: Global, files: &[ClassFile]) -> Result<Vec<NumberSet>, AllocError>
    requires { length files.now < 2 ^ 32 }
    ensures { IfOk result (λ lists. AreAbove (classes_of files.now) (length files.now) lists.items) }
{
    let mut lists = Vec::new(alloc);
    for at in 0..files.len() {
        lists.push(NumberSet::new(find_above(alloc, files, at as u32)?))?;
    }
    Ok(lists)
}
