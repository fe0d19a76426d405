//! Class files with what their constants name: each constant is looked up once, before a run.
#![tactic(auto)]

mod constant;
mod find;
mod linked;

pub use linked::{Linked, link};
