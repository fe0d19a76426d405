//! In a unit of the plain form the first body of a chain is the one that selection names.
#![tactic(auto)]

mod laws;

pub use laws::{nearest_is_best, nearest_selects};
