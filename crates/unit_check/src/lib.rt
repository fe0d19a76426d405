//! Reads a unit and checks it: from its text to its resolved tree, or to why it is refused.
#![tactic(auto)]

mod checking;
mod fault;

pub use checking::{Sound, check_text};
pub use fault::CheckErr;
