//! Reads statements and their parts from tokens.
#![tactic(auto)]

mod block;
mod change;
mod clause;
mod flat;
mod local;
mod part;
mod turns;
mod types;

pub use block::parse_block;
pub use change::parse_change;
pub use types::parse_type;
