//! The code of expressions.
#![tactic(auto)]

mod expr;

pub use expr::{put_all, put_done, put_test, put_value};
