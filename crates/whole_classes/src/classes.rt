ghost use Rattle.std.specs.Prelude.{◌≡◌, length, IfOk};
ghost use Rattle.std.specs.Option.{option_copied};
ghost use Rattle.jp_meaning.specs.Classes.{class_in, upwards};
ghost use Rattle.whole_classes.specs.Bodies.{typed_at};

use jp_meaning::TypedClass;
use jp_pred::Name;
use std::alloc::{AllocError, Global};

/// The first class of that name.
pub(crate) fn class_in<'a>(classes: &'a [TypedClass], name: &Name) -> Option<&'a TypedClass>
    ensures { option_copied result ≡ class_in classes.now name.now }
{
    for class in classes {
        if class.head.name == *name {
            return Some(class);
        }
    }
    None
}

/// A class and its superclasses upwards, at most as many as there are classes.
pub(crate) fn line_of<'a>(
    alloc: Global,
    classes: &'a [TypedClass],
    name: &'a Name,
) -> Result<Vec<&'a TypedClass>, AllocError>
    ensures { IfOk result (λ line. typed_at line.items ≡ upwards (length classes.now) classes.now name.now) }
{
    let mut line = Vec::new(alloc);
    let mut name = name;
    for _i in 0..classes.len() {
        let Some(class) = class_in(classes, name) else {
            return Ok(line);
        };
        line.push(class)?;
        let Some(superclass) = &class.head.superclass else {
            return Ok(line);
        };
        name = superclass;
    }
    Ok(line)
}
