ghost use Rattle.std.specs.Prelude.{◌≡◌, ℕ, ◌<◌, ◌≤◌, suc, length, drop, IfOk, MatchResult};
ghost use Rattle.jp_grammar.specs.declared.fault.ParseFault.TheVariants.{OutOfMemory};
ghost use Rattle.jp_grammar.specs.Guards.{Level, Chain, Gun, joined_at};
ghost use Rattle.jp_grammar.specs.Depth.{guard_depth as depth_of};
ghost use Rattle.jp_grammar.specs.Reading.{Gives, Found, IsText, IsRest};
ghost use Rattle.jp_parse_expr.specs.BehindGuards.{ends_join, joins};
ghost use Rattle.jp_parse_expr.specs.GuardParts.{OpensGuard};
ghost use Rattle.jp_parse_expr.specs.Parts.{ParsesGuard};

use crate::atom::{atom, guard_node};
use crate::token::{deeper, expect};
use jp_ast::{GuardExpr, GuardKind, Place, Token, sign};
use jp_grammar::{Kind, ParseFault, front, is_sign, kind_of};
use sqlite_items::Boxed;
use std::alloc::Global;

/// The greatest depth of a guard.
const MOST: u8 = 200;

/// The guard that begins at the token `at`, and the position of the token behind it.
///
/// It is `Unexpected` where no guard goes on with a token, `Outside` where that token is a word without use in the
/// language, and `TooDeep` where only guards more than 200 deep go on with it; the place is that of the first such
/// token. It is `OutOfMemory` where memory is wanting.
pub fn parse_guard(
    alloc: Global,
    tokens: &[Token],
    at: usize,
) -> Result<(GuardExpr, usize), ParseFault>
    requires text { IsText tokens.now }
    requires at { at < length tokens.now }
    ensures { ParsesGuard tokens.now at result }
{
    let (tree, _, rest) = level_of(alloc, &tokens[at..], MOST, 2)?;
    Ok((tree.into_inner(), tokens.len() - rest.len()))
}

/// A guard of signs that join more strongly than `level`.
#[cycle(guard)]
fn level_of(
    alloc: Global,
    tokens: &[Token],
    most: u8,
    level: u8,
) -> Result<(Boxed<GuardExpr>, u8, &[Token]), ParseFault>
    requires text { IsText tokens.now }
    requires room { 1 ≤ most }
    ensures gives { Gives (Level level) depth_of (ends_join level) most tokens.now result }
    ensures rest { IfOk result (λ x. IsRest tokens.now x.2.now) }
{
    let (left, depth, rest) = operand(alloc, tokens, most)?;
    climb(alloc, tokens, left, depth, rest, most, level)
}

/// Goes on with a guard of signs that join more strongly than `level`, of which the first operand is read: it begins
/// at `begin`, and goes on at `tokens`.
#[cycle(guard)]
fn climb<'a>(
    alloc: Global,
    begin: &'a [Token],
    mut left: Boxed<GuardExpr>,
    mut depth: u8,
    mut tokens: &'a [Token],
    most: u8,
    level: u8,
) -> Result<(Boxed<GuardExpr>, u8, &'a [Token]), ParseFault>
    requires begin { IsText begin.now }
    requires text { IsText tokens.now }
    requires depth { depth ≡ depth_of left }
    requires most { depth ≤ most }
    requires read { Found Gun (λ _. ends_join 0) begin.now left tokens.now }
    ensures gives { Gives (Level level) depth_of (ends_join level) most begin.now result }
    ensures rest { IfOk result (λ x. IsRest tokens.entry.now x.2.now) }
{
    let (first, _) = front(begin);
    'levels: for n in 0..level {
        let (next, next_depth, rest) = chain(alloc, first.place, left, depth, tokens, most, n)?;
        left = next;
        depth = next_depth;
        tokens = rest;
    }
    Ok((left, depth, tokens))
}

/// The chain of signs of one strength behind `left`, in a guard that begins at `place`.
#[cycle(guard)]
fn chain(
    alloc: Global,
    place: Place,
    mut left: Boxed<GuardExpr>,
    mut depth: u8,
    mut tokens: &[Token],
    most: u8,
    level: u8,
) -> Result<(Boxed<GuardExpr>, u8, &[Token]), ParseFault>
    requires text { IsText tokens.now }
    requires depth { depth ≡ depth_of left }
    requires most { depth ≤ most }
    ensures gives { Gives (Chain place level left) depth_of (ends_join (suc level)) most tokens.entry.now result }
    ensures rest { IfOk result (λ x. IsRest tokens.entry.now x.2.now) }
{
    'signs: loop {
        let (first, rest) = front(tokens);
        if joins(kind_of(first)) != Some(level) {
            return Ok((left, depth, tokens));
        }
        if depth == most {
            return Err(ParseFault::TooDeep { place: first.place });
        }
        let (right, right_depth, behind) = level_of(alloc, rest, most - 1, level)?;
        let longer = joined(alloc, place, level, left, right)?;
        left = longer;
        depth = 1 + deeper(depth, right_depth);
        tokens = behind;
    }
}

/// An operand, with all the parentheses around it.
#[cycle(guard)]
fn operand(
    alloc: Global,
    tokens: &[Token],
    most: u8,
) -> Result<(Boxed<GuardExpr>, u8, &[Token]), ParseFault>
    requires text { IsText tokens.now }
    requires room { 1 ≤ most }
    ensures gives { Gives Gun depth_of (ends_join 0) most tokens.now result }
    ensures rest { IfOk result (λ x. IsRest tokens.now x.2.now) }
{
    let run = opened(tokens);
    let (mut left, mut depth, mut rest) = single(alloc, &tokens[run..], most)?;
    let mut pending = run;
    'closings: while pending > 0 {
        let (inner, inner_depth, behind) = climb(
            alloc,
            &tokens[pending..],
            left,
            depth,
            rest,
            most,
            2,
        )?;
        let behind = expect(alloc, behind, sign::CLOSE_PAREN)?;
        pending -= 1;
        left = inner;
        depth = inner_depth;
        rest = behind;
    }
    Ok((left, depth, rest))
}

/// An operand that begins with no parenthesis.
#[cycle(guard)]
fn single(
    alloc: Global,
    tokens: &[Token],
    most: u8,
) -> Result<(Boxed<GuardExpr>, u8, &[Token]), ParseFault>
    requires text { IsText tokens.now }
    requires room { 1 ≤ most }
    requires single { OpensGuard tokens.now → ⊥ }
    ensures gives { Gives Gun depth_of (ends_join 0) most tokens.now result }
    ensures rest { IfOk result (λ x. IsRest tokens.now x.2.now) }
{
    let (first, rest) = front(tokens);
    if !is_sign(first, sign::NOT) {
        let (tree, behind) = atom(alloc, tokens)?;
        return Ok((tree, 1, behind));
    }
    if most == 1 {
        return Err(ParseFault::TooDeep { place: first.place });
    }
    let (right, depth, behind) = operand(alloc, rest, most - 1)?;
    let tree = guard_node(alloc, first.place, GuardKind::Not(right))?;
    Ok((tree, depth + 1, behind))
}

/// `left && right` where the level is 0, else `left || right`.
fn joined(
    alloc: Global,
    place: Place,
    level: u8,
    left: Boxed<GuardExpr>,
    right: Boxed<GuardExpr>,
) -> Result<Boxed<GuardExpr>, ParseFault>
    ensures { MatchResult result (λ t. t ≡ joined_at place level left right) (λ e. e ≡ OutOfMemory) }
{
    let kind = if level == 0 {
        GuardKind::And(left, right)
    } else {
        GuardKind::Or(left, right)
    };
    guard_node(alloc, place, kind)
}

/// How strongly a sign joins guards, from 0 for the strongest, where it does.
fn joins(kind: Kind) -> Option<u8>
    ensures { result ≡ joins kind }
{
    match kind {
        Kind::Sign(sign) if sign == sign::AND => Some(0),
        Kind::Sign(sign) if sign == sign::OR => Some(1),
        _ => None,
    }
}

/// How many parentheses stand there one behind the other.
fn opened(tokens: &[Token]) -> usize
    requires { IsText tokens.now }
    ensures opens { (i : ℕ) → i < result → OpensGuard (drop i tokens.now) }
    ensures last { OpensGuard (drop result tokens.now) → ⊥ }
    ensures most { result < length tokens.now }
{
    let mut count = 0;
    let mut left = tokens;
    'run: loop {
        let (first, rest) = front(left);
        if !is_sign(first, sign::OPEN_PAREN) {
            return count;
        }
        left = rest;
        count += 1;
    }
}
