//! What typing decides: the rules of types, the first fault of a unit, and its resolved tree.
#![tactic(auto)]

mod fault;
mod guard_scope;
mod laws;
mod scope;
mod seen;

pub use fault::TypeFault;
pub use guard_scope::{Alias, GuardScope, Narrowed};
pub use laws::{
    above_itself, calls_hold, declarations_hold, expressions_hold, first_is_first, guards_hold,
    names_hold, none_is_none, sound_is_guarded, sound_is_seen, sound_is_typed, statements_hold,
    tree_holds, under_is_below, units_hold,
};
pub use scope::{Scope, Variable};
pub use seen::{Known, Role, Seen};
