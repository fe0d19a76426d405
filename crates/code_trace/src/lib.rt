//! The open trace of a method's code, and what it means that code does what an evaluation does.
#![tactic(auto)]

mod laws;

pub use laws::what_follows_has_traces;
