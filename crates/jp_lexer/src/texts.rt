//! Text literals.

ghost use Rattle.std.specs.Prelude.{◌≡◌, ◌≤◌, false, length, IfSome, IfOk};
ghost use Rattle.jp_lexer.specs.Scanning.{text_len, escape_of, letters_of, text_value};

use crate::characters::is_plain;
use jp_pred::Name;
use std::alloc::{AllocError, Global};

/// How many bytes a text literal has behind its opening quote, with the closing one, or `None` where it isn't closed
/// or holds something else than letters and escapes.
pub(crate) fn text_len(text: &[u8]) -> Option<usize>
    ensures exact { result ≡ text_len false text.now }
    ensures bound { IfSome result (λ n. n ≤ length text.now) }
{
    let mut escaped = false;
    for (i, b) in text.iter().enumerate() {
        if escaped {
            if escape_of(*b).is_none() {
                return None;
            }
            escaped = false;
        } else if *b == b'\\' {
            escaped = true;
        } else if *b == b'"' {
            return Some(i + 1);
        } else if !is_plain(*b) {
            return None;
        }
    }
    None
}

/// What a text literal stands for.
#[tactic(auto, unfolding(crate::specs::Scanning::text_value))]
pub(crate) fn text_value(alloc: Global, literal: &[u8]) -> Result<Name, AllocError>
    requires { 2 ≤ length literal.now }
    ensures { IfOk result (λ value. value ≡ text_value literal.now) }
{
    let inside = &literal[1..literal.len() - 1];
    if inside.contains(&b'\\') {
        Name::from_bytes(alloc, letters_of(alloc, inside)?.as_slice())
    } else {
        Name::from_bytes(alloc, inside)
    }
}

/// What the inside of a text literal stands for, with its escapes resolved.
fn letters_of(alloc: Global, inside: &[u8]) -> Result<Vec<u8>, AllocError>
    ensures { IfOk result (λ letters. letters.items ≡ letters_of false inside.now) }
{
    let mut letters = Vec::new(alloc);
    let mut escaped = false;
    for b in inside {
        if escaped {
            letters.push(escape_of(*b).unwrap_or(*b))?;
            escaped = false;
        } else if *b == b'\\' {
            escaped = true;
        } else {
            letters.push(*b)?;
        }
    }
    Ok(letters)
}

/// The byte that an escape with this second byte stands for.
#[tactic(auto, unfolding(crate::specs::Scanning::escape_of))]
fn escape_of(b: u8) -> Option<u8>
    ensures { result ≡ escape_of b }
{
    match b {
        b'n' => Some(b'\n'),
        b't' => Some(b'\t'),
        b'r' => Some(b'\r'),
        b'"' => Some(b'"'),
        b'\\' => Some(b'\\'),
        _ => None,
    }
}
