//! Units with short names and literals have trees with such names and literals.
#![tactic(auto)]

mod laws;

pub use laws::{read_is_short, read_members_are_short, typed_heads_are_short, typed_is_short};
