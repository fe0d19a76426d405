//! The command line as a library: what the words ask for, what it does to the devices, and the status.
#![tactic(auto)]

mod class_builder;
mod command;
mod top;

pub use top::jpred;

#[cfg(test)]
mod row_tests;
