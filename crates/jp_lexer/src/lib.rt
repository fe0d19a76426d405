//! Reads a text as tokens.
#![tactic(auto)]

mod characters;
mod comments;
mod front;
mod numbers;
mod places;
mod signs;
mod texts;
mod tokens;

pub use jp_lexical::{LexFault, LexKind};
pub use tokens::{LexErr, lex};
