ghost use Rattle.std.specs.Prelude.{◌≡◌};
ghost use Rattle.class_reader.specs.declared.fault.Stop.TheVariants.{OutOfMemory};

use std::alloc::{AllocError, AllocFailed};

/// What is wrong with the bytes of a class file.
#[derive(Clone, Copy, Debug, PartialEq, Eq)]
pub enum ClassKind {
    /// A byte is wanted behind the end; at the input's length.
    Truncated,
    /// The first four bytes aren't the magic number; at 0.
    Magic,
    /// The version isn't 48.0; at its first byte, 4.
    Version,
    /// No constant has this tag, or the constant of two indices would be the last; at the tag.
    Tag,
    /// An index names no constant of the wanted kind; at the index.
    Index,
    /// A byte of a text is 0, or from 0xF0 up; at the byte.
    Utf8,
    /// Code has no byte or more than 65,535; at the code's length. Or the parts of the attribute `Code` don't fill
    /// its length; at the attribute's length.
    Length,
    /// A table of exception handlers isn't empty; at its length.
    Handlers,
    /// A member has a second attribute `Code`; at that one's name.
    Twice,
    /// A byte stands behind the end of the class file; at the byte.
    Trailing,
}

/// The first fault of a class file in reading order, and how many bytes stand before it.
#[derive(Clone, Copy, Debug, PartialEq, Eq)]
pub struct ClassFault {
    pub offset: u64,
    pub kind: ClassKind,
}

/// Why there is no class file.
#[derive(Clone, Copy, Debug, PartialEq, Eq)]
pub enum ClassErr {
    Fault(ClassFault),
    OutOfMemory,
}

// A fault, and how many bytes stand from its place on.
#[derive(Clone, Copy, Debug, PartialEq, Eq)]
pub(crate) struct Defect {
    pub kind: ClassKind,
    pub left: usize,
}

// Why a part wasn't read.
#[derive(Clone, Copy, Debug, PartialEq, Eq)]
pub(crate) enum Stop {
    Fault(Defect),
    OutOfMemory,
}

impl From<AllocError> for Stop {
    ghost from_gives = { λ _ e. e ≡ OutOfMemory };

    fn from(_e: AllocError) -> Stop {
        Stop::OutOfMemory
    }
}

impl<T: Drop> From<AllocFailed<T>> for Stop {
    ghost from_gives = { λ _ e. e ≡ OutOfMemory };

    fn from(_e: AllocFailed<T>) -> Stop {
        Stop::OutOfMemory
    }
}
