//! The table of the machine's opcodes: instructions, their bytes, frames, and what one instruction does.
#![tactic(auto)]

mod decode;
mod frame;
mod instr;
mod opcode;
mod stack;
#[cfg(test)]
mod tests;

pub use decode::{Row, fetch_row};
pub use frame::Frame;
pub use instr::{ConstantUse, Instr, Jump};
pub use opcode::{Form, form_of};
pub use stack::{Locals, Stack};
