use code_asm::AsmFault;
use std::alloc::AllocError;

/// Why lines have no code.
#[derive(Clone, Copy, Debug, PartialEq, Eq)]
pub enum BodyFault {
    /// There is no opcode for a line, or a label is no number below how many there are, is marked twice, or isn't marked
    /// where a jump leads to it.
    Unfit,
    /// The constants, the code or a jump's distance would be too great, or there was too little memory.
    Asm(AsmFault),
}

impl From<AsmFault> for BodyFault {
    ghost use Rattle.std.specs.Prelude.{◌≡◌};
    ghost use Rattle.gen_code.specs.declared.fault.BodyFault.TheVariants.{Asm};

    ghost from_gives = { λ fault result. result ≡ Asm fault };

    fn from(fault: AsmFault) -> BodyFault {
        BodyFault::Asm(fault)
    }
}

impl From<AllocError> for BodyFault {
    ghost use Rattle.std.specs.Prelude.{◌≡◌};
    ghost use Rattle.code_asm.specs.declared.fault.AsmFault.TheVariants.{OutOfMemory};
    ghost use Rattle.gen_code.specs.declared.fault.BodyFault.TheVariants.{Asm};

    ghost from_gives = { λ _ fault. fault ≡ Asm OutOfMemory };

    fn from(_: AllocError) -> BodyFault {
        BodyFault::Asm(AsmFault::OutOfMemory)
    }
}
