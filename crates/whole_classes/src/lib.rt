//! Which concrete class of a unit lacks a body for one of its families.
#![tactic(auto)]

mod above;
mod bodies;
mod classes;
mod descriptor;
mod kinds;
mod laws;
mod whole;

pub use laws::whole_calls_find_bodies;
pub use whole::first_without_body;
