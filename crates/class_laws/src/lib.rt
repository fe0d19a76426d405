//! Writing and reading class files, put together: each undoes the other.
#![tactic(auto)]

mod laws;
mod round_trip;

pub use laws::{read_is_written, written_is_read};
pub use round_trip::written_and_read;

#[cfg(test)]
mod tests;
