//! Which units run until guards do: those of the plain form, with a `main`.
#![tactic(auto)]

mod families;
mod first;
mod lacks;
mod main_method;

pub use lacks::first_lack;
pub use main_method::has_main;
