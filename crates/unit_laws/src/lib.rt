//! Class files that are compiled class by class from a unit that was read do what the unit means.
#![tactic(auto)]

mod laws;

pub use laws::{
    read_keeps_the_meaning, read_methods_are_ordinary, unit_is_named, unit_is_universe,
};
