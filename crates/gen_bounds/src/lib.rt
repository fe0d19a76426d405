//! How much code a member has, by its nodes.
#![tactic(auto)]

mod laws;

pub use laws::{code_is_short, limits_leave_few_pieces, limits_leave_room};
