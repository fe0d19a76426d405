//! What an instruction of the machine leaves to be done on its heap and static fields, as the store's operations say.
#![tactic(auto)]

mod arrays;
mod effects;
mod fields;
pub mod laws;
mod objects;
#[cfg(test)]
mod tests;

pub use effects::carry_out;
