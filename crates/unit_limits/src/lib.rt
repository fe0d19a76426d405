//! The limits on a unit: which count of it is the first that passes its limit.
#![tactic(auto)]

mod counts;
mod limits;
mod parts;
mod texts;
mod unit;

pub use limits::{Limit, TooLarge, most, unit_bytes_over};
pub use unit::first_over;
