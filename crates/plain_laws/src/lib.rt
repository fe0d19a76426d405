//! What whoever writes the class files of a plain unit without a fault needs to know of it.
#![tactic(auto)]

mod laws;

pub use laws::{
    plain_has_main, plain_keeps_the_meaning, plain_members_are_apart, typed_fields_are_own,
};
