//! Why a unit is refused.
#![tactic(auto)]

mod refusal;

pub use refusal::Refusal;
