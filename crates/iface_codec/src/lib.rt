//! Classes as other classes see them.
#![tactic(auto)]

mod iface;

pub use iface::{Iface, IfaceField, IfaceMethod, MethodKind};
