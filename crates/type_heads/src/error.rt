ghost use Rattle.std.specs.Prelude.{◌≡◌};
ghost use Rattle.type_heads.specs.declared.error.TypeErr.TheVariants.{OutOfMemory};

use std::alloc::AllocError;
use type_rules::TypeFault;

/// Why there is no resolved tree.
#[derive(Clone, Copy, Debug, PartialEq, Eq)]
pub enum TypeErr {
    /// The first fault: the first place, and there the least rule.
    Fault(TypeFault),
    OutOfMemory,
}

impl From<AllocError> for TypeErr {
    ghost from_gives = { λ _ e. e ≡ OutOfMemory };

    fn from(_e: AllocError) -> TypeErr {
        TypeErr::OutOfMemory
    }
}
