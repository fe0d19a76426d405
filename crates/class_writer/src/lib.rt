//! Class files of version 48.0 as bytes (JVM specification, second edition, chapter 4).
#![tactic(auto)]

mod laws;
mod members;
mod pool;
mod puts;
mod writer;

pub use laws::written_encodes;
pub use writer::write_class;

#[cfg(test)]
mod tests;
