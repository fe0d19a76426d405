//! Tokens, each with the gap behind it.

ghost use Rattle.std.specs.Prelude.{◌≡◌, ◌++◌, List, ℕ, OnOk, flat_map, map};
ghost use Rattle.std.specs.Fmt.{digits};
ghost use Rattle.jp_ast.specs.declared.token.Lexeme.TheVariants.{Word, Number, Text, Sign};
ghost use Rattle.jp_lexical.specs.Tokens.{written};
ghost use Rattle.jp_print.specs.Layout.{row_text, text_at, sign_text, number_text, ends_line, with_gap};
ghost use Rattle.jp_print.specs.Expressions.{truth_word};

use jp_ast::sign;
use sqlite_items::at;
use std::alloc::AllocError;

/// The text of each sign, in the order of their numbers.
const SIGNS: [&str; 38] = [
    "{", "}", "(", ")", "[", "]", ";", ",", ".", "=", "<", ">", "!", "~", "?", ":", "+", "-", "*",
    "/", "%", "&", "|", "^", "@", "==", "!=", "<=", ">=", "&&", "||", "<<", ">>", ">>>", "+=",
    "-=", "++", "--",
];

/// A word, and a space.
pub(crate) fn put_word(out: &mut Vec<u8>, word: &[u8]) -> Result<(), AllocError>
    ensures { OnOk result (out.new.items ≡ out.old.items ++ with_gap (Word word.now)) }
{
    out.extend_from_slice(word)?;
    out.extend_from_slice(b" ")
}

/// `true` or `false`, and a space.
pub(crate) fn put_truth(out: &mut Vec<u8>, value: bool) -> Result<(), AllocError>
    ensures { OnOk result (out.new.items ≡ out.old.items ++ with_gap (truth_word value)) }
{
    if value {
        put_word(out, b"true")
    } else {
        put_word(out, b"false")
    }
}

/// A number, in hexadecimal digits where it was written so, and a space.
pub(crate) fn put_number(out: &mut Vec<u8>, value: u32, hex: bool) -> Result<(), AllocError>
    ensures { OnOk result (out.new.items ≡ out.old.items ++ with_gap (Number value hex)) }
{
    let alloc = *out.allocator();
    let text = if hex {
        format!(in alloc; "0x{value:x} ")?
    } else {
        format!(in alloc; "{value} ")?
    };
    out.extend_from_slice(text.as_bytes())
}

/// A text literal, and a space.
pub(crate) fn put_text(out: &mut Vec<u8>, value: &[u8]) -> Result<(), AllocError>
    ensures { OnOk result (out.new.items ≡ out.old.items ++ with_gap (Text value.now)) }
{
    out.extend_from_slice(b"\"")?;
    for b in value {
        put_letter(out, *b)?;
    }
    out.extend_from_slice(b"\" ")
}

/// A byte of a text literal, escaped where it has to be.
#[tactic(auto, unfolding(jp_lexical::specs::Tokens::written))]
fn put_letter(out: &mut Vec<u8>, letter: u8) -> Result<(), AllocError>
    ensures { OnOk result (out.new.items ≡ out.old.items ++ written letter) }
{
    match letter {
        b'\n' => out.extend_from_slice(b"\\n"),
        b'\t' => out.extend_from_slice(b"\\t"),
        b'\r' => out.extend_from_slice(b"\\r"),
        b'"' => out.extend_from_slice(b"\\\""),
        b'\\' => out.extend_from_slice(b"\\\\"),
        _ => out.extend_from_slice(&[letter]),
    }
}

/// A sign, and behind it the end of the line where it ends one, else a space.
pub(crate) fn put_sign(out: &mut Vec<u8>, sign: u8) -> Result<(), AllocError>
    ensures { OnOk result (out.new.items ≡ out.old.items ++ with_gap (Sign sign)) }
{
    out.extend_from_slice(text_of(sign))?;
    if ends_line(sign) {
        out.extend_from_slice(b"\n")
    } else {
        out.extend_from_slice(b" ")
    }
}

/// Whether a line ends behind the sign.
fn ends_line(sign: u8) -> bool
    ensures { result ≡ ends_line (Sign sign) }
{
    sign == sign::OPEN_BRACE || sign == sign::CLOSE_BRACE || sign == sign::SEMICOLON
}

/// The bytes of the sign with this number.
#[tactic(auto, unfolding(jp_lexical::specs::Signs::signs))]
fn text_of(sign: u8) -> &'static [u8]
    ensures { result.now ≡ sign_text sign }
{
    text_at(&SIGNS, sign)
}

/// The bytes of the text at this place, or none behind the end.
fn text_at(table: &[&'static str], place: u8) -> &'static [u8]
    ensures { result.now ≡ text_at (map row_text table.now) place }
{
    match at(table, place as usize) {
        Some(text) => text.as_bytes(),
        None => b"",
    }
}
