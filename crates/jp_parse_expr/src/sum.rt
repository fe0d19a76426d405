ghost use Rattle.std.specs.Prelude.{IfOk, MatchOption};
ghost use Rattle.jp_grammar.specs.Guards.{Term, Terms, Lin, IsSummandSign};
ghost use Rattle.jp_grammar.specs.Reading.{IsText, IsRest};
ghost use Rattle.jp_parse_expr.specs.BehindGuards.{ends_term, ends_sum};
ghost use Rattle.jp_parse_expr.specs.GuardParts.{GivesAll, Scaled, Multiplied, Begun, Summed, NoSummand};

use crate::path::path_of;
use jp_ast::{Lexeme, PathText, Place, Summand, Token, sign};
use jp_grammar::{ParseFault, front, is_sign, refused};
use sqlite_items::Items;
use std::alloc::Global;

/// A sum.
pub fn sum(alloc: Global, tokens: &[Token]) -> Result<(Items<Summand>, &[Token]), ParseFault>
    requires text { IsText tokens.now }
    ensures gives { GivesAll Lin ends_sum tokens.now result }
    ensures rest { IfOk result (λ x. IsRest tokens.now x.1.now) }
{
    let (first, rest) = front(tokens);
    if is_sign(first, sign::MINUS) {
        return begun(alloc, first.place, true, rest);
    }
    begun(alloc, first.place, false, tokens)
}

/// A sum without the sign in front of it. Its first summand is at `place`.
fn begun(
    alloc: Global,
    place: Place,
    negative: bool,
    tokens: &[Token],
) -> Result<(Items<Summand>, &[Token]), ParseFault>
    requires text { IsText tokens.now }
    ensures gives { GivesAll (Begun place negative) ends_sum tokens.now result }
    ensures rest { IfOk result (λ x. IsRest tokens.now x.1.now) }
{
    let (summand, behind) = term(alloc, place, negative, tokens)?;
    let mut summands = Items::new(alloc);
    summands.push(summand)?;
    terms(alloc, summands, behind)
}

/// A sum that begins with the path.
pub fn summed(
    alloc: Global,
    path: PathText,
    tokens: &[Token],
) -> Result<(Items<Summand>, &[Token]), ParseFault>
    requires text { IsText tokens.now }
    ensures gives { GivesAll (Summed path) ends_sum tokens.now result }
    ensures rest { IfOk result (λ x. IsRest tokens.now x.1.now) }
{
    let (summand, behind) = scaled(alloc, path.place, false, path, tokens)?;
    let mut summands = Items::new(alloc);
    summands.push(summand)?;
    terms(alloc, summands, behind)
}

/// The terms behind some summands.
fn terms(
    alloc: Global,
    mut summands: Items<Summand>,
    mut tokens: &[Token],
) -> Result<(Items<Summand>, &[Token]), ParseFault>
    requires text { IsText tokens.now }
    ensures gives { GivesAll (Terms summands) ends_sum tokens.entry.now result }
    ensures rest { IfOk result (λ x. IsRest tokens.entry.now x.1.now) }
{
    'list: loop {
        let (first, rest) = front(tokens);
        let Some(negative) = sign_of(first) else {
            return Ok((summands, tokens));
        };
        let (summand, behind) = term(alloc, first.place, negative, rest)?;
        summands.push(summand)?;
        tokens = behind;
    }
}

/// Whether a summand with the token in front is negative, where the token is `-` or `+`.
fn sign_of(token: &Token) -> Option<bool>
    ensures { MatchOption result (NoSummand token.now) (λ negative. IsSummandSign negative token.now) }
{
    if is_sign(token, sign::MINUS) {
        return Some(true);
    }
    if is_sign(token, sign::PLUS) {
        return Some(false);
    }
    None
}

/// A term, of a summand at `place`.
fn term(
    alloc: Global,
    place: Place,
    negative: bool,
    tokens: &[Token],
) -> Result<(Summand, &[Token]), ParseFault>
    requires text { IsText tokens.now }
    ensures gives { GivesAll (Term place negative) ends_term tokens.now result }
    ensures rest { IfOk result (λ x. IsRest tokens.now x.1.now) }
{
    let (first, rest) = front(tokens);
    if let Lexeme::Number { value, hex } = &first.lexeme {
        return multiplied(alloc, place, negative, *value, *hex, rest);
    }
    let (path, behind) = path_of(alloc, tokens)?;
    scaled(alloc, place, negative, path, behind)
}

/// What makes a summand of a number: `*` and a path, or nothing.
fn multiplied(
    alloc: Global,
    place: Place,
    negative: bool,
    value: u32,
    hex: bool,
    tokens: &[Token],
) -> Result<(Summand, &[Token]), ParseFault>
    requires text { IsText tokens.now }
    ensures gives { GivesAll (Multiplied place negative value hex) ends_term tokens.now result }
    ensures rest { IfOk result (λ x. IsRest tokens.now x.1.now) }
{
    let (first, rest) = front(tokens);
    let factor = Some((value, hex));
    if !is_sign(first, sign::TIMES) {
        let path = None;
        return Ok((
            Summand {
                place,
                negative,
                factor,
                path,
            },
            tokens,
        ));
    }
    let (path, behind) = path_of(alloc, rest)?;
    let path = Some(path);
    Ok((
        Summand {
            place,
            negative,
            factor,
            path,
        },
        behind,
    ))
}

/// What makes a summand of a path: `*` and a number, or nothing.
fn scaled(
    alloc: Global,
    place: Place,
    negative: bool,
    path: PathText,
    tokens: &[Token],
) -> Result<(Summand, &[Token]), ParseFault>
    requires text { IsText tokens.now }
    ensures gives { GivesAll (Scaled place negative path) ends_term tokens.now result }
    ensures rest { IfOk result (λ x. IsRest tokens.now x.1.now) }
{
    let (first, rest) = front(tokens);
    let path = Some(path);
    if !is_sign(first, sign::TIMES) {
        let factor = None;
        return Ok((
            Summand {
                place,
                negative,
                factor,
                path,
            },
            tokens,
        ));
    }
    let (number, behind) = front(rest);
    let Lexeme::Number { value, hex } = &number.lexeme else {
        return Err(refused(alloc, number));
    };
    let factor = Some((*value, *hex));
    Ok((
        Summand {
            place,
            negative,
            factor,
            path,
        },
        behind,
    ))
}
