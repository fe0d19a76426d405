//! The names and literals in the code of members fit the texts of a class file.
#![tactic(auto)]

mod laws;

pub use laws::{short_code_fits, short_methods_fit, short_names_fit, short_types_fit};
