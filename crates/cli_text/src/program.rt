ghost use Rattle.cli_text.specs.Programs.{ReadsProgram};

use crate::{Ending, Refusal};
use jp_read::{ReadFault, read};
use print_form::{NoProgram, print_program};
use std::alloc::Global;

/// The numbers, in order, that a text prints as the program of the class with this name.
///
/// `Ending::Refused` comes exactly for another text: `Lex` with its first lexical fault, `Syntax` with the first token
/// with which no unit goes on, and `NotYet` for a unit that is no program of that class in the form that can be run so
/// far. `Ending::OutOfMemory` comes where memory is wanting, and no other ending comes.
pub fn read_program(alloc: Global, main: &str, text: &[u8]) -> Result<Vec<i32>, Ending>
    ensures { ReadsProgram main.now text.now result }
{
    let unit = read(alloc, text)?;
    Ok(print_program(alloc, main.as_bytes(), &unit)?)
}

impl From<ReadFault> for Ending {
    ghost use Rattle.std.specs.Prelude.{◌≡◌};
    ghost use Rattle.cli_text.specs.Endings.{of_read_fault};

    ghost from_gives = { λ fault ending. ending ≡ of_read_fault fault };

    fn from(fault: ReadFault) -> Ending {
        match fault {
            ReadFault::Lex(fault) => Ending::Refused(Refusal::Lex(fault)),
            ReadFault::Parse(fault) => Ending::Refused(Refusal::Syntax(fault)),
            ReadFault::OutOfMemory => Ending::OutOfMemory,
        }
    }
}

impl From<NoProgram> for Ending {
    ghost use Rattle.std.specs.Prelude.{◌≡◌};
    ghost use Rattle.cli_text.specs.Endings.{of_no_program};

    ghost from_gives = { λ e ending. ending ≡ of_no_program e };

    fn from(e: NoProgram) -> Ending {
        match e {
            NoProgram::NotYet(place) => Ending::Refused(Refusal::NotYet(place)),
            NoProgram::OutOfMemory => Ending::OutOfMemory,
        }
    }
}
