ghost use Rattle.std.specs.Prelude.{◌≡◌, MatchResult};
ghost use Rattle.class_form.specs.WellFormed.{WellFormed};
ghost use Rattle.class_reader.specs.declared.fault.ClassErr.TheVariants.{OutOfMemory};

use class_form::ClassFile;
use class_reader::{ClassErr, read_class};
use class_writer::write_class;
use std::alloc::Global;

/// A well-formed class file, written and read again: the same file, unless memory runs out.
pub fn written_and_read(alloc: Global, file: &ClassFile) -> Result<ClassFile, ClassErr>
    requires { WellFormed file.now }
    ensures { MatchResult result (λ again. again ≡ file.now) (λ why. why ≡ OutOfMemory) }
{
    match write_class(alloc, file) {
        Ok(bytes) => read_class(alloc, bytes.as_slice()),
        Err(_) => Err(ClassErr::OutOfMemory),
    }
}
