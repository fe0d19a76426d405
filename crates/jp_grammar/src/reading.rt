ghost use Rattle.std.specs.Prelude.{◌≡◌, ◌∷◌, IfOk, MatchResult};
ghost use Rattle.jp_grammar.specs.declared.kind.Kind.TheVariants as k;
ghost use Rattle.jp_grammar.specs.Kinds.{kind_of_token, is_sign_of, IsName};
ghost use Rattle.jp_grammar.specs.Reading.{IsText, Refused, RefusedName};

use crate::{Kind, ParseFault, kind_of};
use jp_ast::{Lexeme, Token};
use jp_pred::Name;
use std::alloc::Global;

/// The first token, and those behind it. The last token, and no other, is `End`.
pub fn front(tokens: &[Token]) -> (&Token, &[Token])
    requires { IsText tokens.now }
    ensures split { tokens.now ≡ result.0.now ∷ result.1.now }
    ensures text { (kind_of_token result.0.now ≡ k.End → ⊥) → IsText result.1.now }
{
    let [first, rest @ ..] = tokens else {
        unreachable!()
    };
    (first, rest)
}

/// Whether the token is this sign.
pub fn is_sign(token: &Token, sign: u8) -> bool
    ensures { result ≡ is_sign_of sign token.now }
{
    match &token.lexeme {
        Lexeme::Sign(own) => *own == sign,
        _ => false,
    }
}

/// The fault at a token with which nothing goes on: `Outside` at an outside word, else `Unexpected`, or
/// `OutOfMemory`.
pub fn refused(alloc: Global, token: &Token) -> ParseFault
    ensures { Refused token.now result }
{
    let place = token.place;
    if kind_of(token) != Kind::Outside {
        return ParseFault::Unexpected { place };
    }
    let Lexeme::Word(word) = &token.lexeme else {
        unreachable!()
    };
    match Name::from_bytes(alloc, word.bytes()) {
        Ok(word) => ParseFault::Outside { place, word },
        Err(_) => ParseFault::OutOfMemory,
    }
}

/// The name that the token is, or the fault at it where it is none.
pub fn name_of(alloc: Global, token: &Token) -> Result<Name, ParseFault>
    ensures { MatchResult result (λ name. IsName name token.now) (λ e. RefusedName token.now e) }
{
    if kind_of(token) != Kind::Name {
        return Err(refused(alloc, token));
    }
    let Lexeme::Word(word) = &token.lexeme else {
        unreachable!()
    };
    Ok(Name::from_bytes(alloc, word.bytes())?)
}
