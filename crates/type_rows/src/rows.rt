//! Rows as they are written.

use anyhow::{Context, Result};
use std::alloc::Global;

/// An answer and the text that it is of.
pub(crate) struct Row<'a> {
    pub(crate) wanted: &'a str,
    pub(crate) text: &'a str,
}

/// The row of these lines: a comment, the answer, and the text.
///
/// An error comes where there are less than three.
pub(crate) fn row_of(lines: &str) -> Result<Row<'_>> {
    let (_, row) = lines.split_once('\n').context("a row has a comment")?;
    let (wanted, text) = row.split_once('\n').context("a row has a text")?;
    Ok(Row { wanted, text })
}

/// What is written, with each `«N PART»` as N times PART.
///
/// An error comes where a `«` has no number, no part or no `»`, and where memory is wanting.
pub(crate) fn spelled(alloc: Global, written: &str) -> Result<String> {
    let mut whole = String::new(alloc);
    let mut pieces = written.split('«');
    if let Some(first) = pieces.next() {
        whole.push_str(first)?;
    }
    for piece in pieces {
        let (many, rest) = piece.split_once('»').context("a « has its »")?;
        push_many(&mut whole, many)?;
        whole.push_str(rest)?;
    }
    Ok(whole)
}

/// `N PART`, as N times PART.
fn push_many(whole: &mut String, many: &str) -> Result<()> {
    let (count, part) = many.split_once(' ').context("a « has a number and a part")?;
    for _ in 0..count.parse::<u32>()? {
        whole.push_str(part)?;
    }
    Ok(())
}
