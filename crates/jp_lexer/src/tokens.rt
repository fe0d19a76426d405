//! The tokens of a text.

ghost use Rattle.std.specs.Prelude.{◌≡◌, ◌++◌, List, IfOk, OnOk};
ghost use Rattle.jp_ast.specs.declared.token.Token.{Token};
ghost use Rattle.jp_lexical.specs.declared.fault.LexFault.{LexFault};
ghost use Rattle.jp_lexical.specs.Lexed.{Lexed, EndsOnce, FirstFault};
ghost use Rattle.jp_lexical.specs.Places.{first_place};
ghost use Rattle.jp_lexer.specs.Answer.{IfFault};
ghost use Rattle.jp_lexer.specs.Scanning.{tokens_at};

use crate::front::{front_of, lexeme_of};
use crate::places::{FIRST_PLACE, behind};
use jp_ast::{Lexeme, Place, Token};
use jp_lexical::LexFault;
use std::alloc::{AllocError, AllocFailed, Global};

/// Why a text has no tokens.
#[derive(Debug, Drop)]
pub enum LexErr {
    /// The text's first fault.
    Fault(LexFault),
    OutOfMemory,
}

impl From<AllocError> for LexErr {
    ghost use Rattle.jp_lexer.specs.declared.tokens.LexErr.TheVariants.{OutOfMemory};

    ghost from_gives = { λ e r. r ≡ OutOfMemory };

    fn from(_: AllocError) -> LexErr {
        LexErr::OutOfMemory
    }
}

impl<T: Drop> From<AllocFailed<T>> for LexErr {
    ghost use Rattle.jp_lexer.specs.declared.tokens.LexErr.TheVariants.{OutOfMemory};

    ghost from_gives = { λ e r. r ≡ OutOfMemory };

    fn from(_: AllocFailed<T>) -> LexErr {
        LexErr::OutOfMemory
    }
}

/// The tokens of a text with their places. The last one, and no other, is `End`, whose place is the end of the text.
/// `LexErr::Fault` comes exactly for a text that has a fault, with its first one: `LongName` at a word of more than
/// 255 bytes, `BadNumber` at a digit that begins no number of at most 2147483648 or 1 to 8 hexadecimal digits, or whose
/// number a letter, a digit or `_` directly follows, `OpenText` at a text or block comment that isn't closed, and
/// `BadByte` at any other byte that begins neither a token nor a gap.
pub fn lex(alloc: Global, text: &[u8]) -> Result<Vec<Token>, LexErr>
    ensures tokens { IfOk result (λ tokens. Lexed text.now tokens.items) }
    ensures only_tokens { IfOk result (λ tokens. (others : List Token) → Lexed text.now others → others ≡ tokens.items) }
    ensures end { IfOk result (λ tokens. EndsOnce first_place text.now tokens.items) }
    ensures no_fault { IfOk result (λ tokens. (fault : LexFault) → FirstFault text.now fault → ⊥) }
    ensures fault { IfFault result (λ fault. FirstFault text.now fault) }
    ensures only_fault { IfFault result (λ fault. (other : LexFault) → FirstFault text.now other → other ≡ fault) }
    ensures no_tokens { IfFault result (λ fault. (tokens : List Token) → Lexed text.now tokens → ⊥) }
{
    let mut tokens = Vec::new(alloc);
    let mut place = FIRST_PLACE;
    let mut rest = text;
    while !rest.is_empty() {
        let (form, len) = match front_of(rest) {
            Ok(front) => front,
            Err(kind) => return Err(LexErr::Fault(LexFault { place, kind })),
        };
        let (bytes, others) = rest.split_at(len);
        let lexeme = lexeme_of(alloc, form, bytes)?;
        push_token(&mut tokens, place, lexeme)?;
        place = behind(place, bytes);
        rest = others;
    }
    push_token(&mut tokens, place, Some(Lexeme::End))?;
    Ok(tokens)
}

/// Adds the token, where there is one.
fn push_token(
    tokens: &mut Vec<Token>,
    place: Place,
    lexeme: Option<Lexeme>,
) -> Result<(), AllocFailed<Token>>
    ensures { OnOk result (tokens.new.items ≡ tokens.old.items ++ tokens_at place lexeme) }
{
    match lexeme {
        Some(lexeme) => tokens.push(Token { place, lexeme }),
        None => Ok(()),
    }
}
