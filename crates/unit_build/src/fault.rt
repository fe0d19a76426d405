ghost use Rattle.std.specs.Prelude.{◌≡◌};
ghost use Rattle.unit_faults.specs.declared.refusal.Refusal.TheVariants.{NotYet};
ghost use Rattle.unit_build.specs.Building.{of_check_err};
ghost use Rattle.unit_build.specs.declared.fault.BuildErr.TheVariants.{Refused};

use jp_ast::Place;
use unit_check::CheckErr;
use unit_faults::Refusal;

/// Why there are no class files.
#[derive(Debug, Drop)]
pub enum BuildErr {
    /// The unit is refused.
    Refused(Refusal),
    /// There was too little memory.
    OutOfMemory,
}

impl From<CheckErr> for BuildErr {
    ghost from_gives = { λ err e. e ≡ of_check_err err };

    fn from(err: CheckErr) -> BuildErr {
        match err {
            CheckErr::Refused(refusal) => BuildErr::Refused(refusal),
            CheckErr::OutOfMemory => BuildErr::OutOfMemory,
        }
    }
}

/// A unit that can't be run yet, for what stands at a place.
impl From<Place> for BuildErr {
    ghost from_gives = { λ place e. e ≡ Refused (NotYet place) };

    fn from(place: Place) -> BuildErr {
        BuildErr::Refused(Refusal::NotYet(place))
    }
}
