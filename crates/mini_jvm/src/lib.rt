//! A plain virtual machine: it runs the `main` of a class, one instruction after another, as the table of opcodes says.
#![tactic(auto)]

mod machine;
mod start;
mod step;
#[cfg(test)]
mod tests;
mod walk;

pub use machine::run;
