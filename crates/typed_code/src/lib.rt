//! The code of a unit without a fault can be written.
#![tactic(auto)]

mod laws;

pub use laws::{
    typed_calls_ordinary, typed_is_encodable, typed_is_meant, typed_is_written,
    typed_jumps_stand_in_loops,
};
