//! Types guards: the resolved tree, or the first fault.
#![tactic(auto)]

mod atoms;
mod copies;
mod guards;
mod narrowing;
mod paths;
mod summands;
mod typing;

pub use guards::guarded;
pub use typing::type_guard;

#[cfg(test)]
mod tests;
