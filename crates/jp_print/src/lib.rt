//! Prints a unit as a text that reads back as the same unit.
#![tactic(auto)]

mod decls;
mod exprs;
mod guards;
mod laws;
mod stmts;
mod tokens;
mod units;

pub use laws::{places_are_not_printed, printed_reads_back, read_reads_back};
pub use units::print;
