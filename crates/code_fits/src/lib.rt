//! The code of members is as the writer of class files asks.
#![tactic(auto)]

mod laws;

pub use laws::{
    code_has_opcodes, code_is_labelled, code_lands, code_marks_once, fitting_is_meant,
    fitting_is_written,
};
