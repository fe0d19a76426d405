ghost use Rattle.class_writer.specs.Laws.{WrittenEncodes};

/// What is written for a well-formed class file is an encoding of it: a law, as the contract of a function that
/// does nothing.
pub fn written_encodes()
    ensures { WrittenEncodes }
{}
