ghost use Rattle.std.specs.Prelude.{◌≡◌, ◌∷◌, IfOk, MatchResult};
ghost use Rattle.jp_grammar.specs.declared.fault.ParseFault.TheVariants.{OutOfMemory};
ghost use Rattle.jp_grammar.specs.Kinds.{Is, kind_of_token};
ghost use Rattle.jp_grammar.specs.Guards.{Atom, is_comparison};
ghost use Rattle.jp_grammar.specs.Reading.{IsText, IsRest, Begins};
ghost use Rattle.jp_parse_expr.specs.BehindGuards.{ends_join};
ghost use Rattle.jp_parse_expr.specs.GuardParts.{GivesAll, Compared, Equated, Classed, Tested, Aliased, Measured, Pathed, guard_at, path_sum, truth_kind, is_root, is_simple, goes_on};

use crate::path::path_of;
use crate::sum::{sum, summed};
use jp_ast::{GuardExpr, GuardKind, PathText, Place, Summand, Token, sign};
use jp_grammar::{Kind, ParseFault, front, is_sign, kind_of, name_of, refused};
use jp_pred::Name;
use sqlite_items::{Boxed, Items};
use std::alloc::Global;

/// A node of a guard.
pub fn guard_node(
    alloc: Global,
    place: Place,
    kind: GuardKind,
) -> Result<Boxed<GuardExpr>, ParseFault>
    ensures { MatchResult result (λ t. t ≡ guard_at place kind) (λ e. e ≡ OutOfMemory) }
{
    Ok(Boxed::new(alloc, GuardExpr { place, kind })?)
}

/// Whether the sign is `<`, `<=`, `>`, `>=`, `==` or `!=`.
fn is_comparison(sign: u8) -> bool
    ensures { result ≡ is_comparison sign }
{
    sign == sign::LESS
        || sign == sign::AT_MOST
        || sign == sign::GREATER
        || sign == sign::AT_LEAST
        || sign == sign::EQUAL
        || sign == sign::NOT_EQUAL
}

/// Whether a sum goes on with a token of the kind behind a path.
fn goes_on(kind: Kind) -> bool
    ensures { result ≡ goes_on kind }
{
    match kind {
        Kind::Sign(sign) => {
            sign == sign::TIMES || sign == sign::PLUS || sign == sign::MINUS || is_comparison(sign)
        }
        _ => false,
    }
}

/// An atom of a guard.
pub fn atom(alloc: Global, tokens: &[Token]) -> Result<(Boxed<GuardExpr>, &[Token]), ParseFault>
    requires text { IsText tokens.now }
    ensures gives { GivesAll Atom (ends_join 0) tokens.now result }
    ensures rest { IfOk result (λ x. IsRest tokens.now x.1.now) }
{
    let (first, rest) = front(tokens);
    match kind_of(first) {
        Kind::True => truth(alloc, first, true, rest),
        Kind::False => truth(alloc, first, false, rest),
        Kind::Name | Kind::This => of_path(alloc, tokens),
        _ => of_sums(alloc, tokens),
    }
}

/// `true` or `false`.
fn truth<'a>(
    alloc: Global,
    first: &Token,
    value: bool,
    rest: &'a [Token],
) -> Result<(Boxed<GuardExpr>, &'a [Token]), ParseFault>
    requires text { IsText rest.now }
    requires word { Is (truth_kind value) first.now }
    ensures gives { GivesAll Atom (ends_join 0) (first.now ∷ rest.now) result }
    ensures rest { IfOk result (λ x. IsRest rest.now x.1.now) }
{
    let tree = guard_node(alloc, first.place, GuardKind::Truth(value))?;
    Ok((tree, rest))
}

/// An atom that begins with a path.
fn of_path(alloc: Global, tokens: &[Token]) -> Result<(Boxed<GuardExpr>, &[Token]), ParseFault>
    requires text { IsText tokens.now }
    requires begins { Begins is_root tokens.now }
    ensures gives { GivesAll Atom (ends_join 0) tokens.now result }
    ensures rest { IfOk result (λ x. IsRest tokens.now x.1.now) }
{
    let (path, behind) = path_of(alloc, tokens)?;
    pathed(alloc, path, behind)
}

/// A comparison of two sums.
fn of_sums(alloc: Global, tokens: &[Token]) -> Result<(Boxed<GuardExpr>, &[Token]), ParseFault>
    requires text { IsText tokens.now }
    requires begins { Begins is_simple tokens.now → ⊥ }
    ensures gives { GivesAll Atom (ends_join 0) tokens.now result }
    ensures rest { IfOk result (λ x. IsRest tokens.now x.1.now) }
{
    let (first, _) = front(tokens);
    let (left, behind) = sum(alloc, tokens)?;
    compared(alloc, first.place, left, behind)
}

/// What makes an atom of a path.
fn pathed(
    alloc: Global,
    path: PathText,
    tokens: &[Token],
) -> Result<(Boxed<GuardExpr>, &[Token]), ParseFault>
    requires text { IsText tokens.now }
    ensures gives { GivesAll (Pathed path) (ends_join 0) tokens.now result }
    ensures rest { IfOk result (λ x. IsRest tokens.now x.1.now) }
{
    let (first, rest) = front(tokens);
    if kind_of(first) == Kind::As {
        return aliased(alloc, path, rest);
    }
    if is_sign(first, sign::AT) {
        return tested(alloc, path, rest);
    }
    if is_sign(first, sign::EQUAL) {
        return equated(alloc, path, sign::EQUAL, rest);
    }
    if is_sign(first, sign::NOT_EQUAL) {
        return equated(alloc, path, sign::NOT_EQUAL, rest);
    }
    if goes_on(kind_of(first)) {
        return measured(alloc, path, tokens);
    }
    let tree = guard_node(alloc, path.place, GuardKind::Flag(path))?;
    Ok((tree, tokens))
}

/// The name behind a path and `as`.
fn aliased(
    alloc: Global,
    path: PathText,
    tokens: &[Token],
) -> Result<(Boxed<GuardExpr>, &[Token]), ParseFault>
    requires text { IsText tokens.now }
    ensures gives { GivesAll (Aliased path) (ends_join 0) tokens.now result }
    ensures rest { IfOk result (λ x. IsRest tokens.now x.1.now) }
{
    let (word, behind) = front(tokens);
    let name = name_of(alloc, word)?;
    let tree = guard_node(alloc, path.place, GuardKind::Alias { path, name })?;
    Ok((tree, behind))
}

/// The class behind a path and `@`, and the name behind `as` where it stands there.
fn tested(
    alloc: Global,
    path: PathText,
    tokens: &[Token],
) -> Result<(Boxed<GuardExpr>, &[Token]), ParseFault>
    requires text { IsText tokens.now }
    ensures gives { GivesAll (Tested path) (ends_join 0) tokens.now result }
    ensures rest { IfOk result (λ x. IsRest tokens.now x.1.now) }
{
    let (word, behind) = front(tokens);
    let class = name_of(alloc, word)?;
    classed(alloc, path, class, behind)
}

/// The name behind a path, `@`, a class and `as`, where it stands there.
fn classed(
    alloc: Global,
    path: PathText,
    class: Name,
    tokens: &[Token],
) -> Result<(Boxed<GuardExpr>, &[Token]), ParseFault>
    requires text { IsText tokens.now }
    ensures gives { GivesAll (Classed path class) (ends_join 0) tokens.now result }
    ensures rest { IfOk result (λ x. IsRest tokens.now x.1.now) }
{
    let (first, rest) = front(tokens);
    let place = path.place;
    if kind_of(first) != Kind::As {
        let alias = None;
        let tree = guard_node(alloc, place, GuardKind::Is { path, class, alias })?;
        return Ok((tree, tokens));
    }
    let (word, behind) = front(rest);
    let alias = Some(name_of(alloc, word)?);
    let tree = guard_node(alloc, place, GuardKind::Is { path, class, alias })?;
    Ok((tree, behind))
}

/// `null` or a sum behind a path and the sign `==` or `!=`.
fn equated(
    alloc: Global,
    path: PathText,
    sign: u8,
    tokens: &[Token],
) -> Result<(Boxed<GuardExpr>, &[Token]), ParseFault>
    requires text { IsText tokens.now }
    ensures gives { GivesAll (Equated path sign) (ends_join 0) tokens.now result }
    ensures rest { IfOk result (λ x. IsRest tokens.now x.1.now) }
{
    let (first, rest) = front(tokens);
    let place = path.place;
    if kind_of(first) == Kind::Null {
        let equal = sign == sign::EQUAL;
        let tree = guard_node(alloc, place, GuardKind::NullTest { path, equal })?;
        return Ok((tree, rest));
    }
    let (right, behind) = sum(alloc, tokens)?;
    let left = alone(alloc, path)?;
    let tree = guard_node(alloc, place, GuardKind::Compare { left, sign, right })?;
    Ok((tree, behind))
}

/// The path as a sum.
fn alone(alloc: Global, path: PathText) -> Result<Items<Summand>, ParseFault>
    ensures { MatchResult result (λ sum. sum ≡ path_sum path) (λ e. e ≡ OutOfMemory) }
{
    let mut sum = Items::new(alloc);
    sum.push(Summand {
        place: path.place,
        negative: false,
        factor: None,
        path: Some(path),
    })?;
    Ok(sum)
}

/// A comparison of a sum that begins with the path.
fn measured(
    alloc: Global,
    path: PathText,
    tokens: &[Token],
) -> Result<(Boxed<GuardExpr>, &[Token]), ParseFault>
    requires text { IsText tokens.now }
    ensures gives { GivesAll (Measured path) (ends_join 0) tokens.now result }
    ensures rest { IfOk result (λ x. IsRest tokens.now x.1.now) }
{
    let place = path.place;
    let (left, behind) = summed(alloc, path, tokens)?;
    compared(alloc, place, left, behind)
}

/// The sign of a comparison and its right side, behind its left side, which begins at `place`.
fn compared(
    alloc: Global,
    place: Place,
    left: Items<Summand>,
    tokens: &[Token],
) -> Result<(Boxed<GuardExpr>, &[Token]), ParseFault>
    requires text { IsText tokens.now }
    ensures gives { GivesAll (Compared place left) (ends_join 0) tokens.now result }
    ensures rest { IfOk result (λ x. IsRest tokens.now x.1.now) }
{
    let (first, rest) = front(tokens);
    let Kind::Sign(sign) = kind_of(first) else {
        return Err(refused(alloc, first));
    };
    if !is_comparison(sign) {
        return Err(refused(alloc, first));
    }
    let (right, behind) = sum(alloc, rest)?;
    let tree = guard_node(alloc, place, GuardKind::Compare { left, sign, right })?;
    Ok((tree, behind))
}
