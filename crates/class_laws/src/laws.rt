//! Laws of writing and reading, each as the contract of a function that does nothing.

ghost use Rattle.class_laws.specs.RoundTrip.{WrittenIsRead, ReadIsWritten};

use class_reader::{encodings_are_read, files_are_encoded};
use class_writer::written_encodes;

/// What is written for a well-formed class file is read as that file.
pub fn written_is_read()
    ensures { WrittenIsRead }
{
    written_encodes();
    encodings_are_read();
}

/// What is read is written as bytes that are read as the same file.
pub fn read_is_written()
    ensures { ReadIsWritten }
{
    files_are_encoded();
    written_is_read();
}
