//! How much code the members of units without guards have.
#![tactic(auto)]

mod laws;

pub use laws::{plain_has_few_items, plain_has_room};
