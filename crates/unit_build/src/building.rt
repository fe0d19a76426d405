ghost use Rattle.std.specs.Prelude.{map, string_bytes, IfOk};
ghost use Rattle.jp_meaning.specs.Classes.{hier_in};
ghost use Rattle.unit_build.specs.Files.{AreWritable};
ghost use Rattle.unit_build.specs.Building.{IsBuilt, Builds};

use crate::BuildErr;
use crate::files::{files_of, names_of};
use crate::form::{first_name, suits};
use class_form::ClassFile;
use code_asm::AsmFault;
use gen_code::BodyFault;
use jp_meaning::TypedClass;
use jp_pred::Name;
use plain_form::has_main;
use sqlite_items::Items;
use std::alloc::Global;
use unit_check::{Sound, check_text};

/// The class files of a unit, in the order of its declarations, each with the name of its class, and whether the class that
/// is asked for has a `static void main()` that isn't private.
#[derive(Debug, Drop)]
pub struct Built {
    pub names: Items<String>,
    pub files: Items<ClassFile>,
    pub has_main: bool,
}

/// Builds the class files of the unit that a text is, to be run from the `main` of the class of this name.
///
/// `Refused` comes for texts that `check_text` refuses, and with `NotYet` for units that break no rule and can't be run
/// yet: those with a guard or with two bodies of one family in a class or an interface, with the first such place in the
/// order of the text; those without a class of the name that is asked for, and those of which a class file can't be
/// written, with the place of the first declaration's name. `OutOfMemory` comes where memory is wanting.
pub fn build(alloc: Global, main: &Name, text: &[u8]) -> Result<Built, BuildErr>
    ensures { Builds main.now text.now result }
{
    let Sound { unit, tree } = check_text(alloc, text)?;
    suits(&unit, main)?;
    match build_classes(alloc, tree.classes.as_slice()) {
        Ok(classes) => {
            let (names, files) = classes;
            Ok(Built {
                names,
                files,
                has_main: has_main(&unit, main),
            })
        }
        Err(BodyFault::Asm(AsmFault::OutOfMemory)) => Err(BuildErr::OutOfMemory),
        Err(_) => Err(BuildErr::from(first_name(&unit))),
    }
}

/// The names of classes and their class files. Faults are those of `names_of` and `files_of`.
fn build_classes(
    alloc: Global,
    classes: &[TypedClass],
) -> Result<(Items<String>, Items<ClassFile>), BodyFault>
    requires { AreWritable (hier_in classes.now) classes.now }
    ensures { IfOk result (λ built. IsBuilt classes.now (map string_bytes built.0) built.1) }
{
    let names = names_of(alloc, classes)?;
    let files = files_of(alloc, classes)?;
    Ok((names, files))
}
