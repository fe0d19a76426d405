//! What a program means: resolved trees, and what their evaluation does.
#![tactic(auto)]

mod expr;
mod guard;
mod laws;
mod stmt;
mod unit;

pub use expr::{TypedExpr, TypedKind};
pub use guard::{TypedGuard, TypedGuardKind, TypedPath, TypedSummand};
pub use laws::{meaning_is_one, more_ticks_agree};
pub use stmt::{TypedStmt, TypedStmtKind};
pub use unit::{TypedClass, TypedMember, TypedPart, TypedUnit};
