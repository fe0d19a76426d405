//! One instruction of a plain virtual machine, as far as it goes on its own frame: what the table of opcodes says, and
//! what is left to do. The states and whole runs of the machine are defined here too.
#![tactic(auto)]

mod act;
mod constants;
mod frames;
mod instruct;
mod state;
mod value;

pub use act::{Effect, Left, has_kind};
pub use constants::{
    MemberName, field_name, interface_method_name, literal, method_name, names_object_init,
};
pub use frames::{hold, pop};
pub use instruct::one_instr;
pub use state::{Callers, Running, State, Statics};
pub use value::{End, Halt};
