//! The code of members: static methods, constructors and bodies.
#![tactic(auto)]

mod laid;
mod members;
mod places;
mod simple;
mod stmt;
#[cfg(test)]
mod tests;

pub use laid::body_code;
