//! How many nodes a unit's resolved members have, by its written ones.
#![tactic(auto)]

mod laws;

pub use laws::{resolved_nodes_are_few, written_limits_leave_room};
