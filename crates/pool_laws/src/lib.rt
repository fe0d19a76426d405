//! What the constants that code names are like, however they come about.
#![tactic(auto)]

mod laws;

pub use laws::{
    held_is_named, holding_adds_few, holding_extends, holding_keeps_soundness, holding_keeps_texts,
    lines_add_few, lines_ask, lines_extend, lines_keep_soundness, lines_keep_texts,
};
