//! Class files that are compiled class by class are right for their program.
#![tactic(auto)]

mod laws;

pub use laws::{
    compiled_is_right, compiled_keeps_the_meaning, compiled_runs_member, fitting_keeps_receiver,
    unguarded_selects_nearest,
};
