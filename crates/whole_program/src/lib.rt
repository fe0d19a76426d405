//! What class files do together that are right part by part.
#![tactic(auto)]

mod laws;

pub use laws::{
    enough_instructions, headline, output_begins, own_method_is_run, right_keeps_the_meaning,
};
