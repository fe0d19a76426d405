//! How statements flow: whether they can complete, and how many variables are in scope at once.
#![tactic(auto)]

mod completing;
mod room;

pub use completing::can_complete;
pub use room::most;
