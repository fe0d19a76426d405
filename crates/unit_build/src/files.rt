ghost use Rattle.std.specs.Prelude.{◌≡◌, map, string_bytes, IfOk};
ghost use Rattle.jp_meaning.specs.Classes.{hier_in};
ghost use Rattle.unit_build.specs.Files.{AreWritable, AreCompiled, AreFlagged, AreFormed};

use class_form::ClassFile;
use gen_class::{class_file, hier_of};
use gen_code::BodyFault;
use jp_meaning::TypedClass;
use sqlite_items::Items;
use std::alloc::Global;

/// The class files of classes, in their order. Faults are those of `class_file`.
pub(crate) fn files_of(alloc: Global, classes: &[TypedClass]) -> Result<Items<ClassFile>, BodyFault>
    requires { AreWritable (hier_in classes.now) classes.now }
    ensures compiled { IfOk result (λ files. AreCompiled (hier_in classes.now) classes.now files) }
    ensures flagged { IfOk result (λ files. AreFlagged classes.now files) }
    ensures formed { IfOk result (λ files. AreFormed files) }
{
    let hier = hier_of(alloc, classes)?;
    let mut files = Items::new(alloc);
    for class in classes {
        files.push(class_file(alloc, &hier, class)?)?;
    }
    Ok(files)
}

/// The names of classes, in their order, as texts. `Unfit` comes where one is no text in UTF-8, as no name that is read is.
pub(crate) fn names_of(alloc: Global, classes: &[TypedClass]) -> Result<Items<String>, BodyFault>
    ensures { IfOk result (λ names. map string_bytes names ≡ map (λ c. c.head.name) classes.now) }
{
    let mut names = Items::new(alloc);
    for class in classes {
        match str::from_utf8(class.head.name.bytes()) {
            Ok(name) => names.push(name.to_string(alloc)?)?,
            Err(_) => return Err(BodyFault::Unfit),
        }
    }
    Ok(names)
}
