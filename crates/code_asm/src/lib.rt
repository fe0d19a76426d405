//! The constants of a class file, each held once, and code with labels in place of distances (JVM specification,
//! second edition, 4.4 and chapter 6).
#![tactic(auto)]

mod asm;
mod assembly;
mod encode;
mod entry;
mod fault;
mod laws;
mod line;
mod pool;

pub use asm::{Asm, Label};
pub use assembly::assemble;
pub use fault::AsmFault;
pub use laws::items_stand;
pub use line::{Line, MemberName, Named};
pub use pool::Pool;
