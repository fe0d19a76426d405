ghost use Rattle.std.specs.Prelude.{◌≡◌, ◌↔◌, None, IfOk, IfSome};
ghost use Rattle.std.specs.List.{list_any};
ghost use Rattle.type_heads.specs.Supertypes.{words_at};
ghost use Rattle.type_rules.specs.Types.{is_among};
ghost use Rattle.jp_pred.specs.Names.{object, same};
ghost use Rattle.whole_classes.specs.Whole.{AreWhole, IsFirstLacking};
ghost use Rattle.whole_classes.specs.Bodies.{typed_at, is_at_or_above, lacks_of, lacks_body};

use crate::above::{is_among, names_above};
use crate::bodies::lacks_some;
use crate::classes::line_of;
use jp_meaning::TypedClass;
use jp_pred::Name;
use std::alloc::{AllocError, Global};
use type_heads::is_concrete;

/// The position of the first class that is concrete, so neither abstract nor an interface, and lacks a body for one of its
/// families: those of the virtual methods that it, or a class or interface above it, declares. A body is of a family where
/// it has the name and the descriptor of the method, and it may be the class's own or that of a superclass.
///
/// None where each concrete class has a body for each of its families. The error comes where memory is wanting. What is
/// above a class is visited once for each class.
pub fn first_without_body(
    alloc: Global,
    classes: &[TypedClass],
) -> Result<Option<usize>, AllocError>
    ensures whole { IfOk result (λ first. (first ≡ None) ↔ AreWhole classes.now) }
    ensures first { IfOk result (λ first. IfSome first (IsFirstLacking classes.now)) }
{
    for (at, class) in classes.iter().enumerate() {
        let lacks = lacks_body(alloc, classes, class)?;
        if lacks {
            return Ok(Some(at));
        }
    }
    Ok(None)
}

/// Whether the class is concrete and lacks a body for one of its families.
fn lacks_body(alloc: Global, classes: &[TypedClass], class: &TypedClass) -> Result<bool, AllocError>
    ensures { IfOk result (λ lacks. lacks ≡ lacks_body classes.now class.now) }
{
    if !is_concrete(&class.head) {
        return Ok(false);
    }
    let line = line_of(alloc, classes, &class.head.name)?;
    let above = names_above(alloc, classes, &class.head.name)?;
    let lacks = some_lacks(alloc, classes, above.as_slice(), line.as_slice())?;
    Ok(lacks)
}

/// Whether one of the classes that are named, or Object, declares a method of a family of which the line has no body.
fn some_lacks(
    alloc: Global,
    classes: &[TypedClass],
    above: &[&Name],
    line: &[&TypedClass],
) -> Result<bool, AllocError>
    ensures { IfOk result (λ lacks. lacks ≡ list_any (lacks_of (words_at above.now) (typed_at line.now)) classes.now) }
{
    for class in classes {
        if is_at_or_above(&class.head.name, above)
            && lacks_some(alloc, line, class.head.methods.as_slice())?
        {
            return Ok(true);
        }
    }
    Ok(false)
}

/// Whether the name is Object's or one of those above.
fn is_at_or_above(name: &Name, above: &[&Name]) -> bool
    ensures { result ≡ is_at_or_above (words_at above.now) name.now }
{
    name.bytes() == b"Object".as_slice() || is_among(name, above)
}
