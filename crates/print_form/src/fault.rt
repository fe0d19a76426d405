ghost use Rattle.std.specs.Prelude.{◌≡◌};
ghost use Rattle.print_form.specs.declared.fault.NoProgram.TheVariants.{NotYet, OutOfMemory};

use jp_ast::Place;
use std::alloc::{AllocError, AllocFailed};

/// Why a unit gives no numbers.
#[derive(Clone, Copy, Debug, PartialEq, Eq)]
pub enum NoProgram {
    /// It isn't a program of the form that can be run so far. The place is that of the first node, in the order of the
    /// text, that the form lacks.
    NotYet(Place),
    /// There was too little memory.
    OutOfMemory,
}

impl From<Place> for NoProgram {
    ghost from_gives = { λ place e. e ≡ NotYet place };

    fn from(place: Place) -> NoProgram {
        NoProgram::NotYet(place)
    }
}

impl From<AllocError> for NoProgram {
    ghost from_gives = { λ _ e. e ≡ OutOfMemory };

    fn from(_: AllocError) -> NoProgram {
        NoProgram::OutOfMemory
    }
}

impl<T: Drop> From<AllocFailed<T>> for NoProgram {
    ghost from_gives = { λ _ e. e ≡ OutOfMemory };

    fn from(_: AllocFailed<T>) -> NoProgram {
        NoProgram::OutOfMemory
    }
}
