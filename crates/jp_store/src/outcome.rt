use crate::TrapKind;

/// What an operation comes to.
#[derive(Clone, Copy, Debug)]
pub enum Outcome<T> {
    Fine(T),
    Trap(TrapKind),
    /// Operands of another kind, or a thing that isn't there.
    Wrong,
}
