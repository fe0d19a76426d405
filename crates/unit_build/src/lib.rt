//! Builds the class files of a unit that runs.
#![tactic(auto)]

mod building;
mod fault;
mod files;
mod form;

pub use building::{Built, build};
pub use fault::BuildErr;
