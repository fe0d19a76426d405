ghost use Rattle.std.specs.Prelude.{◌≡◌};
ghost use Rattle.unit_check.specs.Texts.{of_read_fault, of_type_err};
ghost use Rattle.unit_check.specs.declared.fault.CheckErr.TheVariants.{Refused};
ghost use Rattle.unit_faults.specs.declared.refusal.Refusal.TheVariants.{TooLarge};

use jp_read::ReadFault;
use type_heads::TypeErr;
use unit_faults::Refusal;
use unit_limits::TooLarge;

/// Why a text has no resolved tree.
#[derive(Debug, Drop)]
pub enum CheckErr {
    /// It is refused. `NotYet` comes where it names a class outside itself.
    Refused(Refusal),
    /// There was too little memory.
    OutOfMemory,
}

impl From<ReadFault> for CheckErr {
    ghost from_gives = { λ fault e. e ≡ of_read_fault fault };

    fn from(fault: ReadFault) -> CheckErr {
        match fault {
            ReadFault::Lex(fault) => CheckErr::Refused(Refusal::Lex(fault)),
            ReadFault::Parse(fault) => CheckErr::Refused(Refusal::Syntax(fault)),
            ReadFault::OutOfMemory => CheckErr::OutOfMemory,
        }
    }
}

impl From<TypeErr> for CheckErr {
    ghost from_gives = { λ fault e. e ≡ of_type_err fault };

    fn from(err: TypeErr) -> CheckErr {
        match err {
            TypeErr::Fault(fault) => CheckErr::Refused(Refusal::Type(fault)),
            TypeErr::OutOfMemory => CheckErr::OutOfMemory,
        }
    }
}

impl From<TooLarge> for CheckErr {
    ghost from_gives = { λ over e. e ≡ Refused (TooLarge over) };

    fn from(over: TooLarge) -> CheckErr {
        CheckErr::Refused(Refusal::TooLarge(over))
    }
}
