use crate::{Locals, Stack};

/// Where a method's run stands: the place in its code, and what it holds.
#[derive(Drop)]
pub struct Frame {
    pub place: u32,
    pub locals: Locals,
    pub stack: Stack,
}
