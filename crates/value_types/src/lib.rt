//! What a value of a type is in a store, and that the operations on a store keep it.
#![tactic(auto)]

mod laws;

pub use laws::{
    going_on_is_an_order, the_first_store_is_typed, typed_work_is_sound, values_are_of_kinds,
    values_have_entries, values_stay,
};
