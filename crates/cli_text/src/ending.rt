ghost use Rattle.std.specs.Prelude.{◌≡◌};
ghost use Rattle.cli_text.specs.declared.ending.Ending.TheVariants.{OutOfMemory};

use crate::Refusal;
use std::alloc::{AllocError, AllocFailed};

/// How a command ended.
#[derive(Debug, Drop)]
pub enum Ending {
    /// It was done.
    Done,
    /// The words ask for nothing.
    NoCommand,
    /// The unit was refused.
    Refused(Refusal),
    /// The store has no file of the unit's name.
    Missing,
    /// The store failed at the unit.
    UnitFault,
    /// The store failed at the class file.
    ClassFault,
    /// The output failed.
    OutputFault,
    /// There was no memory.
    OutOfMemory,
}

impl From<AllocError> for Ending {
    ghost from_gives = { λ _ ending. ending ≡ OutOfMemory };

    fn from(_: AllocError) -> Ending {
        Ending::OutOfMemory
    }
}

impl<T: Drop> From<AllocFailed<T>> for Ending {
    ghost from_gives = { λ _ ending. ending ≡ OutOfMemory };

    fn from(_: AllocFailed<T>) -> Ending {
        Ending::OutOfMemory
    }
}
