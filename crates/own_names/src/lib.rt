//! Where a unit first names a class that it doesn't declare.
#![tactic(auto)]

mod classes;
mod members;
mod trees;
mod unit;

pub use unit::first_outside;
