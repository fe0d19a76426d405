//! The code of members: static methods, constructors and bodies.
#![tactic(auto)]

mod laws;

pub use laws::{compiled_has_open_traces, signatures_read_back};
