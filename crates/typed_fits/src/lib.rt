//! Units without a fault of types have trees in which each call is given what it is declared with.
#![tactic(auto)]

mod laws;

pub use laws::{read_names_are_plain, typed_calls_fit, typed_trees_fit};
