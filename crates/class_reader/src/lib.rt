//! Reads class files of version 48.0 (JVM specification, second edition, chapter 4): the file, or the first fault.
#![tactic(auto)]

mod attributes;
mod fault;
mod fields;
mod laws;
mod members;
mod pool;
mod reader;

pub use fault::{ClassErr, ClassFault, ClassKind};
pub use laws::{
    cuts_are_truncated, encodings_are_read, faults_are_final, faults_come_first,
    faults_have_a_byte, faults_stay, files_are_encoded, files_end, places_are_within,
    truncated_is_the_end,
};
pub use reader::read_class;

#[cfg(test)]
mod tests;
