//! Tests of units that are built and run: what they write, and how they end.
#![tactic(auto)]

#[cfg(test)]
mod programs;
