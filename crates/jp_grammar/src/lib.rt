//! The grammar of units: the tokens' kinds, the productions over lists of tokens, and the first fault.
#![tactic(auto)]

mod fault;
mod kind;
mod reading;

pub use fault::ParseFault;
pub use kind::{Kind, kind_of};
pub use reading::{front, is_sign, name_of, refused};
