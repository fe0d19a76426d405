//! Calls of methods and returns from them: which method a call finds, its frame with the arguments, and the caller that
//! goes on.
#![tactic(auto)]

mod args;
mod call;
mod enter;
mod find;
mod returns;

pub use call::{Passed, call_interface, call_special, call_static, call_virtual};
pub use enter::enter_static;
pub use returns::leave;
