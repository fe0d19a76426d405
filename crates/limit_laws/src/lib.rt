//! A unit within the limits that are told is within what its passes ask.
#![tactic(auto)]

mod laws;

pub use laws::{
    typed_has_slots, typed_is_within, within_has_few_locals, within_has_few_params, within_is_fit,
};
