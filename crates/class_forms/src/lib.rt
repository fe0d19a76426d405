//! The constants of a class's file are as a well-formed file needs them.
#![tactic(auto)]

mod laws;

pub use laws::{
    class_constants_are_sound, class_constants_fit, short_class_is_fit, small_class_asks_few,
};
