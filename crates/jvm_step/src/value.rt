use class_form::Bytes;
use jp_store::TrapKind;

/// How a run ended.
#[derive(Debug, Drop)]
pub enum End {
    /// `main` returned.
    Done,
    /// The program did what Java forbids.
    Trap(TrapKind),
    /// As many instructions ran as were allowed, without an end.
    Cut,
    /// The input failed.
    ReadFault,
    /// The output failed.
    WriteFault,
    /// The table has no row for the state: this class's method, at this place of its code.
    BadCode {
        class: Bytes,
        method: Bytes,
        pc: u32,
    },
}

/// Where the machine stops by itself.
#[derive(Clone, Copy, Debug, PartialEq, Eq)]
pub enum Halt {
    Done,
    Trapped(TrapKind),
    /// There is no row for the instruction at this place of a file's method.
    NoRow { file: u32, method: u32, place: u32 },
}
