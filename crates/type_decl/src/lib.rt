//! Types units: the resolved tree, or the first fault.
#![tactic(auto)]

mod arguments;
mod classes;
mod copies;
mod guarding;
mod listed;
mod methods;
mod opening;
mod parts;
mod places;
mod room;
mod scopes;
mod settling;
mod supers;
mod units;
mod walking;

pub use units::check;
