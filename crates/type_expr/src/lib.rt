//! Types expressions: the resolved tree, or the first fault.
#![tactic(auto)]

mod arguments;
mod calls;
mod casts;
mod dot_calls;
mod elements;
mod expressions;
mod fields;
mod judging;
mod literals;
mod names;
mod objects;
mod operators;
mod own_calls;
mod signs;
mod spot;
mod super_calls;
mod typing;
mod values;

pub use expressions::{see, see_all};
pub use objects::cant_construct;
pub use typing::type_of;
