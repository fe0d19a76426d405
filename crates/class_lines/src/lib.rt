//! The classes of a program are the same to predicates and in the store: what is below what, and who inherits which fields.
#![tactic(auto)]

mod laws;

pub use laws::{below_is_the_same, fields_are_inherited, values_widen};
