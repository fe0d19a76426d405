//! What stands at the front of a text.

ghost use Rattle.std.specs.Prelude.{◌≡◌, ◌≤◌, ◌<◌, length, IfOk};
ghost use Rattle.std.specs.List.{prefix_len};
ghost use Rattle.jp_lexical.specs.Characters.{is_word_byte};
ghost use Rattle.jp_lexer.specs.Scanning.{front_of, word_of, number_of, mark_of, lexeme_of};

use crate::characters::{begins_word, is_white, is_word_byte};
use crate::comments::{close_len, line_len};
use crate::numbers::number_value;
use crate::signs::sign_at;
use crate::texts::{text_len, text_value};
use jp_ast::Lexeme;
use jp_lexical::LexKind;
use jp_pred::Name;
use std::alloc::{AllocError, Global};

/// The forms of what a text can begin with.
#[derive(Clone, Copy, Debug, PartialEq, Eq)]
pub(crate) enum Form {
    /// A white byte or a comment.
    Gap,
    Word,
    Number { value: u32, hex: bool },
    /// A text literal.
    Text,
    /// The sign with this number.
    Sign(u8),
}

/// The form of the gap or token at the front, and how many bytes it has, or what is wrong where there is none.
#[tactic(auto, unfolding(crate::specs::Scanning::front_of))]
pub(crate) fn front_of(text: &[u8]) -> Result<(Form, usize), LexKind>
    requires { 0 < length text.now }
    ensures { result ≡ front_of text.now }
{
    let first = text[0];
    if is_white(first) {
        Ok((Form::Gap, 1))
    } else if begins_word(first) {
        word_of(text)
    } else if is_word_byte(first) {
        number_of(text)
    } else if first == b'"' {
        match text_len(&text[1..]) {
            Some(len) => Ok((Form::Text, 1 + len)),
            None => Err(LexKind::OpenText),
        }
    } else {
        mark_of(text)
    }
}

/// A word at the front.
#[tactic(auto, unfolding(crate::specs::Scanning::word_of))]
fn word_of(text: &[u8]) -> Result<(Form, usize), LexKind>
    ensures { result ≡ word_of text.now }
{
    let len = run_len(text);
    if len <= 255 {
        Ok((Form::Word, len))
    } else {
        Err(LexKind::LongName)
    }
}

/// A number at the front.
#[tactic(auto, unfolding(crate::specs::Scanning::number_of))]
fn number_of(text: &[u8]) -> Result<(Form, usize), LexKind>
    ensures { result ≡ number_of text.now }
{
    let (run, _) = text.split_at(run_len(text));
    match number_value(run) {
        Some((value, hex)) => Ok((Form::Number { value, hex }, run.len())),
        None => Err(LexKind::BadNumber),
    }
}

/// How many bytes at the front are letters, digits and `_`.
fn run_len(text: &[u8]) -> usize
    ensures exact { result ≡ prefix_len is_word_byte text.now }
    ensures bound { result ≤ length text.now }
{
    text.iter().take_while(|b| is_word_byte(**b)).count()
}

/// A comment or a sign at the front.
#[tactic(auto, unfolding(crate::specs::Scanning::mark_of))]
fn mark_of(text: &[u8]) -> Result<(Form, usize), LexKind>
    ensures { result ≡ mark_of text.now }
{
    match text {
        [b'/', b'/', inside @ ..] => Ok((Form::Gap, 2 + line_len(inside))),
        [b'/', b'*', inside @ ..] => match close_len(inside) {
            Some(len) => Ok((Form::Gap, 2 + len)),
            None => Err(LexKind::OpenText),
        },
        _ => match sign_at(text) {
            Some((sign, len)) => Ok((Form::Sign(sign), len)),
            None => Err(LexKind::BadByte),
        },
    }
}

/// The token of this form with these bytes, or `None` for a gap.
pub(crate) fn lexeme_of(
    alloc: Global,
    form: Form,
    bytes: &[u8],
) -> Result<Option<Lexeme>, AllocError>
    requires { form ≡ Form.Text → 2 ≤ length bytes.now }
    ensures { IfOk result (λ lexeme. lexeme ≡ lexeme_of form bytes.now) }
{
    Ok(match form {
        Form::Gap => None,
        Form::Word => Some(Lexeme::Word(Name::from_bytes(alloc, bytes)?)),
        Form::Number { value, hex } => Some(Lexeme::Number { value, hex }),
        Form::Text => Some(Lexeme::Text(text_value(alloc, bytes)?)),
        Form::Sign(sign) => Some(Lexeme::Sign(sign)),
    })
}
