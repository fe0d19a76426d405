ghost use Rattle.std.specs.Prelude.{◌≡◌};
ghost use Rattle.unit_build.specs.Form.{is_class_called, declares_class, first_name, Suits};

use jp_ast::{Decl, Place, SourceUnit};
use jp_pred::Name;
use plain_form::first_lack;

/// Whether a unit has the form of those whose classes can be written yet, with a class of this name, or the place at which
/// it lacks that.
pub(crate) fn suits(unit: &SourceUnit, main: &Name) -> Result<(), Place>
    ensures { Suits unit.now main.now result }
{
    if let Some(place) = first_lack(unit) {
        return Err(place);
    }
    if declares_class(unit, main) {
        Ok(())
    } else {
        Err(first_name(unit))
    }
}

/// Whether the unit has a class of that name.
fn declares_class(unit: &SourceUnit, name: &Name) -> bool
    ensures { result ≡ declares_class unit.now name.now }
{
    for decl in unit.decls.as_slice() {
        if is_class_called(decl, name) {
            return true;
        }
    }
    false
}

fn is_class_called(decl: &Decl, name: &Name) -> bool
    ensures { result ≡ is_class_called name.now decl.now }
{
    !decl.is_interface && decl.name == *name
}

/// Where the name of the first declaration stands.
pub(crate) fn first_name(unit: &SourceUnit) -> Place
    ensures { result ≡ first_name unit.now }
{
    match unit.decls.as_slice() {
        [first, ..] => first.place,
        [] => Place { line: 1, col: 1 },
    }
}
