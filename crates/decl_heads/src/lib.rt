//! The heads of a unit's classes, as its own members see them.
#![tactic(auto)]

mod heads;
mod language;
mod members;

pub use heads::{head, heads_of};
pub use members::static_kind;
