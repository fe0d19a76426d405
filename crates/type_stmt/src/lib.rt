//! Types statements: the resolved trees, or the first fault.
#![tactic(auto)]

mod branching;
mod changing;
mod declaring;
mod forms;
mod judging;
mod jumping;
mod loops;
mod options;
mod room;
mod scopes;
mod statements;
mod typing;

pub use statements::walk_all;
pub use typing::type_block;
