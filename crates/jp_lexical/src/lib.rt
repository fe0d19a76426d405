//! What texts mean as tokens: words, numbers, texts, signs and what may stand between them, where each token stands,
//! and where a text first goes wrong.
#![tactic(auto)]

mod fault;
mod words;

pub use fault::{LexFault, LexKind};
pub use words::{is_name, is_outside, is_reserved};
