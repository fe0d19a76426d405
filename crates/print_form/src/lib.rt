//! The programs that can be run so far, as syntax trees: a class whose `main` prints whole numbers one after the other.
#![tactic(auto)]

mod class;
mod fault;
mod literal;
mod printing;
mod program;

pub use fault::NoProgram;
pub use literal::Literal;
pub use program::{one_program, print_program};
