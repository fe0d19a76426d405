//! The calls of programs whose trees are as the rules of types leave them: each is given what it is declared with.
#![tactic(auto)]

mod laws;

pub use laws::calls_fit;
