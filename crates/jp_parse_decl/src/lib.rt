//! Reads a unit from tokens: its classes and interfaces, with their members.
#![tactic(auto)]

mod body;
mod heads;
mod lower;
mod parameters;
mod token;
mod unit;

pub use unit::parse;
