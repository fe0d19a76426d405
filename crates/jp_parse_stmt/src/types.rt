ghost use Rattle.std.specs.Prelude.{◌≡◌, ◌<◌, length, IfOk, MatchResult};
ghost use Rattle.jp_grammar.specs.Expressions.{IsElement};
ghost use Rattle.jp_grammar.specs.Reading.{Any, IsText, IsRest};
ghost use Rattle.jp_grammar.specs.Statements.{OneType, array_of};
ghost use Rattle.jp_parse_stmt.specs.Behind.{ends_type};
ghost use Rattle.jp_parse_stmt.specs.Parses.{ParsesType};
ghost use Rattle.jp_parse_stmt.specs.Parts.{RefusedElement};
ghost use Rattle.jp_parse_expr.specs.GuardParts.{GivesAll};

use crate::part::expect;
use jp_ast::{Token, sign};
use jp_grammar::{Kind, ParseFault, front, is_sign, kind_of, name_of, refused};
use jp_pred::Ty;
use std::alloc::Global;

/// The type that begins at the token `at`, and the position of the token behind it.
///
/// It is `Unexpected` where no type goes on with a token, and `Outside` where that token is a word without use in the
/// language; the place is that of the first such token. It is `OutOfMemory` where memory is wanting.
pub fn parse_type(alloc: Global, tokens: &[Token], at: usize) -> Result<(Ty, usize), ParseFault>
    requires text { IsText tokens.now }
    requires at { at < length tokens.now }
    ensures { ParsesType tokens.now at result }
{
    let (ty, rest) = one_type(alloc, &tokens[at..])?;
    Ok((ty, tokens.len() - rest.len()))
}

/// A type.
pub fn one_type(alloc: Global, tokens: &[Token]) -> Result<(Ty, &[Token]), ParseFault>
    requires { IsText tokens.now }
    ensures gives { GivesAll OneType ends_type tokens.now result }
    ensures rest { IfOk result (λ x. IsRest tokens.now x.1.now) }
{
    let (first, rest) = front(tokens);
    let elem = element(alloc, first)?;
    let (next, inside) = front(rest);
    if !is_sign(next, sign::OPEN_BRACKET) {
        return Ok((elem, rest));
    }
    let behind = expect(alloc, inside, sign::CLOSE_BRACKET)?;
    Ok((array_of(elem), behind))
}

/// The type that the token is by itself, or the fault at it where it is none.
fn element(alloc: Global, token: &Token) -> Result<Ty, ParseFault>
    ensures { MatchResult result (λ t. IsElement t token.now) (λ e. RefusedElement token.now e) }
{
    match kind_of(token) {
        Kind::Int => Ok(Ty::Int),
        Kind::Boolean => Ok(Ty::Boolean),
        Kind::Name => Ok(Ty::Class(name_of(alloc, token)?)),
        _ => Err(refused(alloc, token)),
    }
}

/// The array type with elements of this type.
fn array_of(elem: Ty) -> Ty
    ensures { result ≡ array_of elem }
{
    match elem {
        Ty::Int => Ty::IntArray,
        Ty::Boolean => Ty::BooleanArray,
        Ty::Class(class) => Ty::ClassArray(class),
        other => other,
    }
}
