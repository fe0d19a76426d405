use std::alloc::{AllocError, AllocFailed};

/// Why constants or code can't be made.
#[derive(Clone, Copy, Debug, PartialEq, Eq)]
pub enum AsmFault {
    /// The constants, with index 0 counted, would be more than 65,535.
    Full,
    /// The code would have so many bytes, which are more than 65,535.
    TooLong(u64),
    /// A jump would lead so far from its opcode, which two signed bytes can't hold.
    FarJump(i64),
    /// There was too little memory.
    OutOfMemory,
}

impl From<AllocError> for AsmFault {
    ghost use Rattle.std.specs.Prelude.{◌≡◌};
    ghost use Rattle.code_asm.specs.declared.fault.AsmFault.TheVariants.{OutOfMemory};

    ghost from_gives = { λ _ fault. fault ≡ OutOfMemory };

    fn from(_: AllocError) -> AsmFault {
        AsmFault::OutOfMemory
    }
}

impl<T: Drop> From<AllocFailed<T>> for AsmFault {
    ghost use Rattle.std.specs.Prelude.{◌≡◌};
    ghost use Rattle.code_asm.specs.declared.fault.AsmFault.TheVariants.{OutOfMemory};

    ghost from_gives = { λ _ fault. fault ≡ OutOfMemory };

    fn from(_: AllocFailed<T>) -> AsmFault {
        AsmFault::OutOfMemory
    }
}
