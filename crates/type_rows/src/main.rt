//! Checks the units of a table, and tells where the answer for one isn't the table's: `type_rows FILE`.
//!
//! A row begins with a line `%%`, behind which may stand a comment. Its next line is the answer, its other lines the
//! text. `«N PART»`, in either, stands for N times PART. The answer is one of these:
//! - `ok`, for a unit within its limits that breaks no rule of types;
//! - `LINE:COLUMN: Rule R`, for the first rule that the unit breaks;
//! - `LINE:COLUMN: NotYet`, for the first class outside itself that a unit names;
//! - `TooLarge WHAT COUNT`, for a text or a unit that passes a limit;
//! - `LINE:COLUMN: FAULT`, for a text that is no unit.
#![tactic(auto)]

mod answers;
mod rows;

use crate::rows::{Row, row_of, spelled};
use anyhow::Context;
use std::{env, fs};

fn main(rt: HostRuntime) -> anyhow::Result<()> {
    let mut words = env::args(&rt)?.skip(1);
    let name = words.next().context("a file is wanted")?;
    let table = fs::read_to_string(&rt, name.as_str())?;
    let mut count = 0u32;
    let mut right = 0u32;
    for written in table.split("\n%%") {
        count = count.saturating_add(1);
        if is_right(&rt, written)? {
            right = right.saturating_add(1);
        }
    }
    println!(rt; "{right} of {count} units are answered as in the table")?;
    Ok(())
}

/// Whether the row's text is answered as the row says; what it is answered is written where not.
fn is_right(rt: &HostRuntime, written: &str) -> anyhow::Result<bool> {
    let whole = spelled(rt.alloc(), written)?;
    let Row { wanted, text } = row_of(whole.as_str())?;
    let answer = answers::answer(rt.alloc(), text)?;
    let right = answer.as_str() == wanted;
    if !right {
        println!(rt; "{answer}\nis the answer for{written}")?;
    }
    Ok(right)
}
