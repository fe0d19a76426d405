//! The rules of types at parameters, members and declarations.
#![tactic(auto)]

mod clashes;
mod constructing;
mod judging;
mod members;
mod naming;
mod parameters;
mod signature;
mod standing;
mod upwards;

pub use judging::{judge_decl, judge_member};
pub use parameters::judge_params;
pub use standing::Above;
pub use upwards::above;
