//! The command line as text: what the words ask for, what the text of a unit is, how a command ends, and the line that
//! says so.
#![tactic(auto)]

mod ending;
mod program;
mod refusal;
mod refusal_line;
mod reporting;
mod words;
mod writing;

pub use ending::Ending;
pub use program::read_program;
pub use refusal::Refusal;
pub use reporting::report;
pub use words::{Command, read_words};

#[cfg(test)]
mod word_tests;
