ghost use Rattle.std.specs.Prelude.{◌≡◌, [], ◌∷◌, ◌++◌, ◌≤◌, length, drop, IfOk};
ghost use Rattle.std.specs.List.{flat_map, filter_map};
ghost use Rattle.type_rules.specs.Types.{is_among};
ghost use Rattle.type_rules.specs.Heads.{head_of};
ghost use Rattle.type_rules.specs.Lookups.{superclasses, supertypes, unmet, interfaces_of, class_names, interfaces_above};
ghost use Rattle.type_heads.specs.Supertypes.{classes_at, words_at};

use crate::heads::head_of;
use iface_codec::Iface;
use jp_pred::Name;
use std::alloc::{AllocError, Global};

/// The proper supertypes of a class, each once: its superclasses upwards, then the interfaces of it and of these,
/// breadth first.
pub fn supertypes<'a>(
    alloc: Global,
    heads: &'a [Iface],
    class: &'a Iface,
) -> Result<Vec<&'a Iface>, AllocError>
    ensures { IfOk result (λ above. classes_at above.items ≡ supertypes heads.now class.now) }
{
    let mut above = line_of(alloc, heads, class)?;
    let mut interfaces = interfaces_above(alloc, heads, above.as_slice())?;
    above.remove(0);
    above.append(&mut interfaces)?;
    Ok(above)
}

/// A class and its superclasses upwards, each once.
pub(crate) fn line_of<'a>(
    alloc: Global,
    heads: &'a [Iface],
    class: &'a Iface,
) -> Result<Vec<&'a Iface>, AllocError>
    ensures { IfOk result (λ line. classes_at line.items ≡ class.now ∷ superclasses heads.now class.now) }
{
    let mut line = Vec::new(alloc);
    line.push(class)?;
    let mut next = &class.superclass;
    for _i in 0..heads.len() {
        let Some(name) = next else {
            return Ok(line);
        };
        if names_one(line.as_slice(), name) {
            return Ok(line);
        }
        let Some(class) = head_of(heads, name) else {
            return Ok(line);
        };
        line.push(class)?;
        next = &class.superclass;
    }
    Ok(line)
}

/// Whether one of the classes has the name.
fn names_one(classes: &[&Iface], name: &Name) -> bool
    ensures { result ≡ is_among name.now (class_names (classes_at classes.now)) }
{
    for class in classes {
        if class.name == *name {
            return true;
        }
    }
    false
}

/// Whether the name stands among the names.
fn is_among(name: &Name, names: &[&Name]) -> bool
    ensures { result ≡ is_among name.now (words_at names.now) }
{
    for other in names {
        if *other == name {
            return true;
        }
    }
    false
}

/// The interfaces that these classes name, and all that those extend, each once, breadth first.
pub(crate) fn interfaces_above<'a>(
    alloc: Global,
    heads: &'a [Iface],
    classes: &[&'a Iface],
) -> Result<Vec<&'a Iface>, AllocError>
    ensures { IfOk result (λ above. classes_at above.items ≡ interfaces_above heads.now (classes_at classes.now)) }
{
    let mut met = names_of(alloc, classes)?;
    let mut begin = met.len();
    add_named(&mut met, classes)?;
    let mut above = Vec::new(alloc);
    for _i in 0..heads.len() {
        let end = met.len();
        add_level(heads, begin, &mut met, &mut above)?;
        begin = end;
    }
    Ok(above)
}

fn names_of<'a>(alloc: Global, classes: &[&'a Iface]) -> Result<Vec<&'a Name>, AllocError>
    ensures { IfOk result (λ names. words_at names.items ≡ class_names (classes_at classes.now)) }
{
    let mut names = Vec::new(alloc);
    for class in classes {
        names.push(&class.name)?;
    }
    Ok(names)
}

/// Adds the interfaces that the classes name and that aren't met, each once.
fn add_named<'a>(met: &mut Vec<&'a Name>, classes: &[&'a Iface]) -> Result<(), AllocError>
    ensures { IfOk result (λ _. words_at met.new.items
        ≡ words_at met.old.items ++ unmet (words_at met.old.items) (flat_map (λ h. h.interfaces) (classes_at classes.now))) }
{
    for class in classes {
        add_unmet(met, class.interfaces.as_slice())?;
    }
    Ok(())
}

/// Adds the classes of the names from `begin` on to `above`, and the interfaces that they name, where they aren't met,
/// to the names.
fn add_level<'a>(
    heads: &'a [Iface],
    begin: usize,
    met: &mut Vec<&'a Name>,
    above: &mut Vec<&'a Iface>,
) -> Result<(), AllocError>
    requires { begin ≤ length met.old.items }
    ensures met { IfOk result (λ _. words_at met.new.items
        ≡ words_at met.old.items ++ unmet (words_at met.old.items) (flat_map (interfaces_of heads.now) (drop begin (words_at met.old.items)))) }
    ensures above { IfOk result (λ _. classes_at above.new.items
        ≡ classes_at above.old.items ++ filter_map (head_of heads.now) (drop begin (words_at met.old.items))) }
{
    for at in begin..met.len() {
        add_class(heads, met[at], met, above)?;
    }
    Ok(())
}

/// Adds the class of that name, where it is among the heads, and the interfaces that it names, where they aren't met.
fn add_class<'a>(
    heads: &'a [Iface],
    name: &Name,
    met: &mut Vec<&'a Name>,
    above: &mut Vec<&'a Iface>,
) -> Result<(), AllocError>
    ensures met { IfOk result (λ _. words_at met.new.items
        ≡ words_at met.old.items ++ unmet (words_at met.old.items) (interfaces_of heads.now name.now)) }
    ensures above { IfOk result (λ _. classes_at above.new.items
        ≡ classes_at above.old.items ++ filter_map (head_of heads.now) (name.now ∷ [])) }
{
    let Some(class) = head_of(heads, name) else {
        return Ok(());
    };
    above.push(class)?;
    add_unmet(met, class.interfaces.as_slice())
}

/// Adds the names that aren't met, each once.
fn add_unmet<'a>(met: &mut Vec<&'a Name>, names: &'a [Name]) -> Result<(), AllocError>
    ensures { IfOk result (λ _. words_at met.new.items ≡ words_at met.old.items ++ unmet (words_at met.old.items) names.now) }
{
    for name in names {
        add_one(met, name)?;
    }
    Ok(())
}

fn add_one<'a>(met: &mut Vec<&'a Name>, name: &'a Name) -> Result<(), AllocError>
    ensures { IfOk result (λ _. words_at met.new.items ≡ words_at met.old.items ++ unmet (words_at met.old.items) (name.now ∷ [])) }
{
    if is_among(name, met.as_slice()) {
        return Ok(());
    }
    met.push(name)?;
    Ok(())
}
