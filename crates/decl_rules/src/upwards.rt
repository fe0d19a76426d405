ghost use Rattle.std.specs.Prelude.{◌≡◌, ◌∷◌, ◌++◌, IfOk};
ghost use Rattle.std.specs.List.{flat_map};
ghost use Rattle.type_rules.specs.Types.{is_among};
ghost use Rattle.type_rules.specs.Lookups.{superclasses, supertypes, class_names};
ghost use Rattle.type_heads.specs.Supertypes.{classes_at};
ghost use Rattle.decl_rules.specs.Inherited.{methods_named};
ghost use Rattle.decl_rules.specs.Standing.{methods_at, IsAbove};

use crate::standing::Above;
use decl_heads::head;
use iface_codec::{Iface, IfaceMethod};
use jp_ast::Decl;
use jp_pred::Name;
use std::alloc::{AllocError, Global};
use type_heads::{head_of, supertypes};

/// What stands above a declaration, in the heads that it sees. The error comes where there is no memory left.
pub fn above<'a>(alloc: Global, heads: &'a [Iface], decl: &Decl) -> Result<Above<'a>, AllocError>
    ensures { IfOk result (λ a. IsAbove heads.now decl.now a) }
{
    let own = head(alloc, decl)?;
    let superclasses = line_above(alloc, heads, &own)?;
    let inherited = methods_above(alloc, heads, &own)?;
    Ok(Above {
        superclasses,
        inherited,
    })
}

/// The superclasses of a class upwards, each once.
fn line_above<'a>(
    alloc: Global,
    heads: &'a [Iface],
    own: &Iface,
) -> Result<Vec<&'a Iface>, AllocError>
    ensures { IfOk result (λ line. classes_at line.items ≡ superclasses heads.now own.now) }
{
    let mut line = Vec::new(alloc);
    let mut next = &own.superclass;
    for _i in 0..heads.len() {
        let Some(name) = next else {
            return Ok(line);
        };
        if is_met(own, line.as_slice(), name) {
            return Ok(line);
        }
        let Some(class) = head_of(heads, name) else {
            return Ok(line);
        };
        line.push(class)?;
        next = &class.superclass;
    }
    Ok(line)
}

/// Whether the class or one of the others has the name.
fn is_met(own: &Iface, classes: &[&Iface], name: &Name) -> bool
    ensures { result ≡ is_among name.now (class_names (own.now ∷ classes_at classes.now)) }
{
    own.name == *name || names_one(classes, name)
}

/// Whether one of the classes has the name.
fn names_one(classes: &[&Iface], name: &Name) -> bool
    ensures { result ≡ is_among name.now (class_names (classes_at classes.now)) }
{
    for class in classes {
        if class.name == *name {
            return true;
        }
    }
    false
}

/// The methods of all supertypes of a class.
fn methods_above<'a>(
    alloc: Global,
    heads: &'a [Iface],
    own: &Iface,
) -> Result<Vec<&'a IfaceMethod>, AllocError>
    ensures { IfOk result (λ all. methods_at all.items ≡ flat_map (λ h. h.methods) (supertypes heads.now own.now)) }
{
    let classes = supertypes(alloc, heads, own)?;
    methods_of(alloc, heads, classes.as_slice())
}

/// The methods of the classes of these names, which are looked up again, so that they outlive `classes`.
fn methods_of<'a>(
    alloc: Global,
    heads: &'a [Iface],
    classes: &[&Iface],
) -> Result<Vec<&'a IfaceMethod>, AllocError>
    ensures { IfOk result (λ all. methods_at all.items ≡ flat_map (λ h. methods_named heads.now h.name) (classes_at classes.now)) }
{
    let mut all = Vec::new(alloc);
    for class in classes {
        add_named(heads, &class.name, &mut all)?;
    }
    Ok(all)
}

/// Adds the methods of the first class of that name.
fn add_named<'a>(
    heads: &'a [Iface],
    name: &Name,
    all: &mut Vec<&'a IfaceMethod>,
) -> Result<(), AllocError>
    ensures { IfOk result (λ _. methods_at all.new.items ≡ methods_at all.old.items ++ methods_named heads.now name.now) }
{
    match head_of(heads, name) {
        Some(class) => add_methods(class.methods.as_slice(), all),
        None => Ok(()),
    }
}

fn add_methods<'a>(
    methods: &'a [IfaceMethod],
    all: &mut Vec<&'a IfaceMethod>,
) -> Result<(), AllocError>
    ensures { IfOk result (λ _. methods_at all.new.items ≡ methods_at all.old.items ++ methods.now) }
{
    for method in methods {
        all.push(method)?;
    }
    Ok(())
}
