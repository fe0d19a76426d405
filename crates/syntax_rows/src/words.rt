//! What answers are made of: each word has a blank in front.

use anyhow::Result;
use jp_ast::{Lexeme, Place, Token};
use jp_pred::Name;
use std::str;

/// The signs, in the order of their numbers.
const SIGNS: [&str; 38] = [
    "{", "}", "(", ")", "[", "]", ";", ",", ".", "=", "<", ">", "!", "~", "?", ":", "+", "-", "*",
    "/", "%", "&", "|", "^", "@", "==", "!=", "<=", ">=", "&&", "||", "<<", ">>", ">>>", "+=",
    "-=", "++", "--",
];

/// The sign of that number as it is written.
pub(crate) fn sign_text(sign: u8) -> &'static str {
    match SIGNS.get(usize::from(sign)) {
        Some(text) => text,
        None => "no-sign",
    }
}

pub(crate) fn put_word(out: &mut String, word: &str) -> Result<()> {
    out.push_str(" ")?;
    out.push_str(word)?;
    Ok(())
}

pub(crate) fn put_name(out: &mut String, name: &Name) -> Result<()> {
    put_word(out, str::from_utf8(name.bytes())?)
}

pub(crate) fn put_truth(out: &mut String, value: bool) -> Result<()> {
    put_word(out, if value { "true" } else { "false" })
}

pub(crate) fn put_number(out: &mut String, value: u32, hex: bool) -> Result<()> {
    out.push_str(" ")?;
    push_digits(out, value, hex)
}

/// The number, with nothing in front.
pub(crate) fn push_digits(out: &mut String, value: u32, hex: bool) -> Result<()> {
    if hex {
        write!(out, "0x{value:x}")?;
    } else {
        write!(out, "{value}")?;
    }
    Ok(())
}

/// The text in quotes, with its escapes.
pub(crate) fn put_text(out: &mut String, text: &Name) -> Result<()> {
    out.push_str(" \"")?;
    for letter in str::from_utf8(text.bytes())?.chars() {
        push_letter(out, letter)?;
    }
    out.push_str("\"")?;
    Ok(())
}

fn push_letter(out: &mut String, letter: char) -> Result<()> {
    match letter {
        '\n' => out.push_str("\\n")?,
        '\t' => out.push_str("\\t")?,
        '\r' => out.push_str("\\r")?,
        '"' => out.push_str("\\\"")?,
        '\\' => out.push_str("\\\\")?,
        _ => out.push(letter)?,
    }
    Ok(())
}

/// Each token with its place.
pub(crate) fn put_tokens(out: &mut String, tokens: &[Token]) -> Result<()> {
    for token in tokens {
        put_lexeme(out, &token.lexeme)?;
        let Place { line, col } = token.place;
        write!(out, "@{line}:{col}")?;
    }
    Ok(())
}

fn put_lexeme(out: &mut String, lexeme: &Lexeme) -> Result<()> {
    match lexeme {
        Lexeme::Word(name) => put_name(out, name),
        Lexeme::Number { value, hex } => put_number(out, *value, *hex),
        Lexeme::Text(text) => put_text(out, text),
        Lexeme::Sign(sign) => put_word(out, sign_text(*sign)),
        Lexeme::End => put_word(out, ""),
    }
}
