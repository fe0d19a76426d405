//! Reads a table of texts, and tells where the answer for one isn't the table's: `syntax_rows FILE`.
//!
//! A row begins with a line `%%`, behind which may stand a comment. Its next line is the answer, its other lines the
//! text. `«N PART»`, in either, stands for N times PART. What the text is, and what is asked of it, goes by the
//! answer's first word:
//! - `tokens` and its tokens, each as `TOKEN@LINE:COLUMN`, the last one being the end, `@LINE:COLUMN`;
//! - `expression`, `guard` or `statements`, and the tree of it, where each node is `(NODE PART ..)` (tree.rt);
//! - `unit` and the tree of the unit that it is;
//! - `reads back`, for a unit that is printed as a text which reads as a unit printed alike;
//! - `LINE:COLUMN FAULT`, for a text that is no unit.
#![tactic(auto)]

mod answers;
mod rows;
mod tree;
mod words;

use crate::rows::{Row, row_of, spelled};
use anyhow::Context;
use std::{env, fs};

fn main(rt: HostRuntime) -> anyhow::Result<()> {
    let mut words = env::args(&rt)?.skip(1);
    let name = words.next().context("a file is wanted")?;
    let table = fs::read_to_string(&rt, name.as_str())?;
    let mut count = 0u32;
    let mut right = 0u32;
    for written in table.split("\n%%") {
        count = count.saturating_add(1);
        if is_right(&rt, written)? {
            right = right.saturating_add(1);
        }
    }
    println!(rt; "{right} of {count} texts are answered as in the table")?;
    Ok(())
}

/// Whether the row's text is answered as the row says; what it is answered is written where not.
fn is_right(rt: &HostRuntime, written: &str) -> anyhow::Result<bool> {
    let whole = spelled(rt.alloc(), written)?;
    let Row { wanted, text } = row_of(whole.as_str())?;
    let answer = answers::answer(rt.alloc(), wanted, text)?;
    let right = answer.as_str() == wanted;
    if !right {
        println!(rt; "{answer}\nis the answer for{written}")?;
    }
    Ok(right)
}
