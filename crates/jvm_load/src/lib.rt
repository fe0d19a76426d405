//! Class files that are loaded, and the look-ups of their classes and members.
#![tactic(auto)]

mod above;
mod descriptor;
mod fields;
mod look_up;
mod names;
mod number_set;
mod offsets;
mod program;
mod ranks;
mod tables;
#[cfg(test)]
mod tests;
mod walk;

pub use descriptor::{Signature, read_signature, result_of};
pub use fields::FieldPlace;
pub use names::{find_class, has_flag, is_static_member, name_of, text};
pub use program::{Program, load};
pub use tables::TableEntry;
