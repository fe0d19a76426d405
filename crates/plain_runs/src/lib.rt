//! What a run of the class files of a plain unit says of what the unit means.
#![tactic(auto)]

mod laws;

pub use laws::{plain_enough, plain_headline, plain_output_begins};
