//! Tests of the machine, opcode by opcode: what each does, where it traps, and where it has no row.
#![tactic(auto)]

#[cfg(test)]
mod cases;
#[cfg(test)]
mod classes;
#[cfg(test)]
mod opcodes;
