ghost use Rattle.code_fits.specs.Laws.{FittingIsMeant, CodeIsLabelled, CodeMarksOnce, CodeHasOpcodes, CodeLands, FittingIsWritten};

/// The code of a member that fits and calls ordinary methods names each with the signature of its descriptor.
pub fn fitting_is_meant()
    ensures { FittingIsMeant }
{}

/// The labels of a member's code are below its number of labels.
pub fn code_is_labelled()
    ensures { CodeIsLabelled }
{}

/// No label is marked twice in a member's code.
pub fn code_marks_once()
    ensures { CodeMarksOnce }
{}

/// There is an opcode for each line of an encodable member's code.
pub fn code_has_opcodes()
    ensures { CodeHasOpcodes }
{}

/// The label of each jump is marked in the code of a member in which each `break` and `continue` stands in a loop.
pub fn code_lands()
    ensures { CodeLands }
{}

/// The lines of an encodable member's code can be laid out.
pub fn fitting_is_written()
    ensures { FittingIsWritten }
{}
