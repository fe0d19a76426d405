//! Instructions on ints and jumps, one after the other without leaving the frame: each method's code is read once, before
//! a run, into a table of instructions by their places.
#![tactic(auto)]

mod act;
mod decoded;
mod rows;
mod stretch;

pub use decoded::{Decoded, decode};
pub use rows::Rows;
pub use stretch::{Quick, Stretch, stretch_from};
