//! Reads expressions and guards from tokens.
#![tactic(auto)]

mod ahead;
mod atom;
mod expression;
mod guard;
mod path;
mod sum;
mod token;

pub use expression::{parse_args, parse_expr, parse_postfix};
pub use guard::parse_guard;
