//! Reads a unit from its text.
#![tactic(auto)]

mod fault;
mod reading;

pub use fault::{ReadFault, SyntaxFault, SyntaxKind};
pub use reading::read;
