//! Printing and reading units, put together: reading undoes printing.
#![tactic(auto)]

mod round_trip;

pub use round_trip::printed_and_read;
