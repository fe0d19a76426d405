ghost use Rattle.std.specs.Prelude.{◌≡◌, ◌+◌, ◌<◌, ◌≤◌, ◌∷◌, ℕ, ◌||◌, zero, suc, length, drop, true, IsTrue, IfOk, MatchResult, Some, None, ◌⊎◌};
ghost use Rattle.jp_ast.specs.declared.sign.TheConstants as sign;
ghost use Rattle.jp_grammar.specs.declared.kind.Kind.TheVariants as k;
ghost use Rattle.jp_grammar.specs.declared.fault.ParseFault.TheVariants.{OutOfMemory};
ghost use Rattle.jp_grammar.specs.Kinds.{Is, IsSign, kind_of_token};
ghost use Rattle.jp_grammar.specs.Expressions.{Expression, Choices, Alternative, Level, Chain, Unary, Postfix, Steps, Named, Primary, Bracketed, Args, MoreArgs, IsElement, binds, is_negation, is_inversion};
ghost use Rattle.jp_grammar.specs.Depth.{depth as depth_of, depth_of_all, depth_of_option};
ghost use Rattle.jp_grammar.specs.Behind.{ends_full, ends_level, ends_primary};
ghost use Rattle.jp_grammar.specs.Reading.{Gives, Found, IsText, IsRest};
ghost use Rattle.jp_grammar.specs.Trees.{named_at};
ghost use Rattle.jp_parse_expr.specs.Ahead.{is_cast, Opens};
ghost use Rattle.jp_parse_expr.specs.Literals.{Single};
ghost use Rattle.jp_parse_expr.specs.Parts.{Continues, IsStep, ParsesArgs, ParsesExpr, ParsesPostfix};

use crate::ahead::{begins_expr, binds, is_prefix, is_step, opened};
use crate::token::{deeper, expect, literal, node};
use jp_ast::{Expr, ExprKind, Place, Token, sign};
use jp_grammar::{Kind, ParseFault, front, is_sign, kind_of, name_of, refused};
use jp_pred::{Name, Ty};
use sqlite_items::{Boxed, Items};
use std::alloc::Global;

/// The greatest depth of a tree.
const MOST: u8 = 200;

/// The expression that begins at the token `at`, and the position of the token behind it.
///
/// It is `Unexpected` where no expression goes on with a token, `Outside` where that token is a word without use in
/// the language, and `TooDeep` where only expressions more than 200 deep go on with it; the place is that of the first
/// such token. It is `OutOfMemory` where memory is wanting.
pub fn parse_expr(alloc: Global, tokens: &[Token], at: usize) -> Result<(Expr, usize), ParseFault>
    requires text { IsText tokens.now }
    requires at { at < length tokens.now }
    ensures { ParsesExpr tokens.now at result }
{
    let (tree, _, rest) = full(alloc, &tokens[at..], MOST)?;
    Ok((tree.into_inner(), tokens.len() - rest.len()))
}

/// The operand without a sign or a cast in front that begins at the token `at`, with all steps behind it, and the
/// position of the token behind it.
///
/// It is `Unexpected` where no such operand goes on with a token, `Outside` where that token is a word without use in
/// the language, and `TooDeep` where only operands more than 200 deep go on with it; the place is that of the first
/// such token. It is `OutOfMemory` where memory is wanting.
pub fn parse_postfix(
    alloc: Global,
    tokens: &[Token],
    at: usize,
) -> Result<(Expr, usize), ParseFault>
    requires text { IsText tokens.now }
    requires at { at < length tokens.now }
    ensures { ParsesPostfix tokens.now at result }
{
    let (tree, _, rest) = stepped(alloc, &tokens[at..], MOST)?;
    Ok((tree.into_inner(), tokens.len() - rest.len()))
}

/// The arguments that begin at the token `at`, which stands behind their `(`, and the position of the token behind
/// their `)`.
///
/// It is `Unexpected` where no arguments go on with a token, `Outside` where that token is a word without use in the
/// language, and `TooDeep` where only arguments more than 200 deep go on with it; the place is that of the first such
/// token. It is `OutOfMemory` where memory is wanting.
pub fn parse_args(
    alloc: Global,
    tokens: &[Token],
    at: usize,
) -> Result<(Items<Expr>, usize), ParseFault>
    requires text { IsText tokens.now }
    requires at { at < length tokens.now }
    ensures { ParsesArgs tokens.now at result }
{
    let (list, _, rest) = args(alloc, &tokens[at..], MOST)?;
    Ok((list, tokens.len() - rest.len()))
}

/// An operand without a sign or a cast in front, with all steps behind it.
fn stepped(
    alloc: Global,
    tokens: &[Token],
    most: u8,
) -> Result<(Boxed<Expr>, u8, &[Token]), ParseFault>
    requires text { IsText tokens.now }
    requires room { 1 ≤ most }
    ensures gives { Gives Postfix depth_of (ends_level 0) most tokens.now result }
    ensures rest { IfOk result (λ x. IsRest tokens.now x.2.now) }
{
    let (first, rest) = front(tokens);
    let Kind::Sign(sign) = kind_of(first) else {
        return postfix(alloc, first, rest, most);
    };
    if sign != sign::OPEN_PAREN {
        return Err(refused(alloc, first));
    }
    enclosed(alloc, first, rest, most)
}

/// An expression in parentheses, of which `first` is the first, with the steps behind it.
fn enclosed<'a>(
    alloc: Global,
    first: &Token,
    rest: &'a [Token],
    most: u8,
) -> Result<(Boxed<Expr>, u8, &'a [Token]), ParseFault>
    requires text { IsText rest.now }
    requires room { 1 ≤ most }
    requires sign { IsSign sign.OPEN_PAREN first.now }
    ensures gives { Gives Postfix depth_of (ends_level 0) most (first.now ∷ rest.now) result }
    ensures rest { IfOk result (λ x. IsRest rest.now x.2.now) }
{
    let (inner, depth, behind) = full(alloc, rest, most)?;
    let behind = expect(alloc, behind, sign::CLOSE_PAREN)?;
    steps(alloc, first.place, inner, depth, behind, most)
}

/// An expression.
#[cycle(expr)]
fn full(
    alloc: Global,
    tokens: &[Token],
    most: u8,
) -> Result<(Boxed<Expr>, u8, &[Token]), ParseFault>
    requires text { IsText tokens.now }
    requires room { 1 ≤ most }
    ensures gives { Gives Expression depth_of ends_full most tokens.now result }
    ensures rest { IfOk result (λ x. IsRest tokens.now x.2.now) }
{
    let (left, depth, rest) = operand(alloc, tokens, most)?;
    rest_of(alloc, tokens, left, depth, rest, most)
}

/// Goes on with an expression of which the first operand is read: it begins at `begin`, and goes on at `tokens`.
#[cycle(expr)]
fn rest_of<'a>(
    alloc: Global,
    begin: &'a [Token],
    left: Boxed<Expr>,
    depth: u8,
    tokens: &'a [Token],
    most: u8,
) -> Result<(Boxed<Expr>, u8, &'a [Token]), ParseFault>
    requires begin { IsText begin.now }
    requires text { IsText tokens.now }
    requires depth { depth ≡ depth_of left }
    requires most { depth ≤ most }
    requires read { Found Unary (λ _. ends_level 0) begin.now left tokens.now }
    ensures gives { Gives Expression depth_of ends_full most begin.now result }
    ensures rest { IfOk result (λ x. IsRest tokens.now x.2.now) }
{
    let (first, _) = front(begin);
    let (test, test_depth, behind) = climb(alloc, begin, left, depth, tokens, most, 10)?;
    choices(alloc, first.place, test, test_depth, behind, most)
}

/// `? yes : no` behind a test that begins at `place`, where it stands there.
#[cycle(expr)]
fn choices(
    alloc: Global,
    place: Place,
    test: Boxed<Expr>,
    depth: u8,
    tokens: &[Token],
    most: u8,
) -> Result<(Boxed<Expr>, u8, &[Token]), ParseFault>
    requires text { IsText tokens.now }
    requires depth { depth ≡ depth_of test }
    requires most { depth ≤ most }
    ensures gives { Gives (Choices place test) depth_of ends_full most tokens.now result }
    ensures rest { IfOk result (λ x. IsRest tokens.now x.2.now) }
{
    let (first, rest) = front(tokens);
    if !is_sign(first, sign::QUESTION) {
        return Ok((test, depth, tokens));
    }
    if depth == most {
        return Err(ParseFault::TooDeep { place: first.place });
    }
    let (yes, yes_depth, behind) = full(alloc, rest, most - 1)?;
    alternative(alloc, place, test, depth, yes, yes_depth, behind, most)
}

/// `: no` behind a test that begins at `place`, and its first part.
#[cycle(expr)]
fn alternative(
    alloc: Global,
    place: Place,
    test: Boxed<Expr>,
    test_depth: u8,
    yes: Boxed<Expr>,
    yes_depth: u8,
    tokens: &[Token],
    most: u8,
) -> Result<(Boxed<Expr>, u8, &[Token]), ParseFault>
    requires text { IsText tokens.now }
    requires test_depth { test_depth ≡ depth_of test }
    requires yes_depth { yes_depth ≡ depth_of yes }
    requires test_most { test_depth + 1 ≤ most }
    requires yes_most { yes_depth + 1 ≤ most }
    ensures gives { Gives (Alternative place test yes) depth_of ends_full most tokens.now result }
    ensures rest { IfOk result (λ x. IsRest tokens.now x.2.now) }
{
    let (first, rest) = front(tokens);
    if !is_sign(first, sign::COLON) {
        return Err(refused(alloc, first));
    }
    let (no, no_depth, behind) = full(alloc, rest, most - 1)?;
    let tree = node(alloc, place, ExprKind::Cond { test, yes, no })?;
    let branches = deeper(yes_depth, no_depth);
    Ok((tree, 1 + deeper(test_depth, branches), behind))
}

/// An expression of signs that bind more strongly than `level`.
#[cycle(expr)]
fn level_of(
    alloc: Global,
    tokens: &[Token],
    most: u8,
    level: u8,
) -> Result<(Boxed<Expr>, u8, &[Token]), ParseFault>
    requires text { IsText tokens.now }
    requires room { 1 ≤ most }
    ensures gives { Gives (Level level) depth_of (ends_level level) most tokens.now result }
    ensures rest { IfOk result (λ x. IsRest tokens.now x.2.now) }
{
    let (left, depth, rest) = operand(alloc, tokens, most)?;
    climb(alloc, tokens, left, depth, rest, most, level)
}

/// Goes on with an expression of signs that bind more strongly than `level`, of which the first operand is read: it
/// begins at `begin`, and goes on at `tokens`.
#[cycle(expr)]
fn climb<'a>(
    alloc: Global,
    begin: &'a [Token],
    mut left: Boxed<Expr>,
    mut depth: u8,
    mut tokens: &'a [Token],
    most: u8,
    level: u8,
) -> Result<(Boxed<Expr>, u8, &'a [Token]), ParseFault>
    requires begin { IsText begin.now }
    requires text { IsText tokens.now }
    requires depth { depth ≡ depth_of left }
    requires most { depth ≤ most }
    requires read { Found Unary (λ _. ends_level 0) begin.now left tokens.now }
    ensures gives { Gives (Level level) depth_of (ends_level level) most begin.now result }
    ensures rest { IfOk result (λ x. IsRest tokens.entry.now x.2.now) }
{
    let (first, _) = front(begin);
    'levels: for n in 0..level {
        let (next, next_depth, rest) = chain(alloc, first.place, left, depth, tokens, most, n)?;
        left = next;
        depth = next_depth;
        tokens = rest;
    }
    Ok((left, depth, tokens))
}

/// The chain of signs of one strength behind `left`, in an expression that begins at `place`.
#[cycle(expr)]
fn chain(
    alloc: Global,
    place: Place,
    mut left: Boxed<Expr>,
    mut depth: u8,
    mut tokens: &[Token],
    most: u8,
    level: u8,
) -> Result<(Boxed<Expr>, u8, &[Token]), ParseFault>
    requires text { IsText tokens.now }
    requires depth { depth ≡ depth_of left }
    requires most { depth ≤ most }
    ensures gives { Gives (Chain place level left) depth_of (ends_level (suc level)) most tokens.entry.now result }
    ensures rest { IfOk result (λ x. IsRest tokens.entry.now x.2.now) }
{
    'signs: loop {
        let (first, rest) = front(tokens);
        if binds(kind_of(first)) != Some(level) {
            return Ok((left, depth, tokens));
        }
        if depth == most {
            return Err(ParseFault::TooDeep { place: first.place });
        }
        let (longer, longer_depth, behind) = joined(
            alloc, place, left, depth, first, rest, most, level,
        )?;
        left = longer;
        depth = longer_depth;
        tokens = behind;
    }
}

/// `left` with the sign `first` of the level and its right side, or with `instanceof` and its class.
#[cycle(expr)]
fn joined<'a>(
    alloc: Global,
    place: Place,
    left: Boxed<Expr>,
    depth: u8,
    first: &Token,
    rest: &'a [Token],
    most: u8,
    level: u8,
) -> Result<(Boxed<Expr>, u8, &'a [Token]), ParseFault>
    requires text { IsText rest.now }
    requires depth { depth ≡ depth_of left }
    requires most { depth + 1 ≤ most }
    requires binds { binds (kind_of_token first.now) ≡ Some level }
    ensures gives { Continues (Chain place level) (ends_level (suc level)) most left (first.now ∷ rest.now) result }
    ensures rest { IfOk result (λ x. IsRest rest.now x.2.now) }
{
    let Kind::Sign(sign) = kind_of(first) else {
        return tested(alloc, place, left, depth, first, rest, most, level);
    };
    let (right, right_depth, behind) = level_of(alloc, rest, most - 1, level)?;
    let tree = node(alloc, place, ExprKind::Binary { sign, left, right })?;
    Ok((tree, 1 + deeper(depth, right_depth), behind))
}

/// An operand, with all the parentheses around it.
#[cycle(expr)]
fn operand(
    alloc: Global,
    tokens: &[Token],
    most: u8,
) -> Result<(Boxed<Expr>, u8, &[Token]), ParseFault>
    requires text { IsText tokens.now }
    requires room { 1 ≤ most }
    ensures gives { Gives Unary depth_of (ends_level 0) most tokens.now result }
    ensures rest { IfOk result (λ x. IsRest tokens.now x.2.now) }
{
    let run = opened(tokens);
    let (mut left, mut depth, mut rest) = single(alloc, &tokens[run..], most)?;
    let mut pending = run;
    'closings: while pending > 0 {
        let (inner, inner_depth, behind) = rest_of(
            alloc,
            &tokens[pending..],
            left,
            depth,
            rest,
            most,
        )?;
        let behind = expect(alloc, behind, sign::CLOSE_PAREN)?;
        pending -= 1;
        let (first, _) = front(&tokens[pending..]);
        let (outer, outer_depth, last) = steps(
            alloc,
            first.place,
            inner,
            inner_depth,
            behind,
            most,
        )?;
        left = outer;
        depth = outer_depth;
        rest = last;
    }
    Ok((left, depth, rest))
}

/// An operand that begins with no parenthesis but that of a cast.
#[cycle(expr)]
fn single(
    alloc: Global,
    tokens: &[Token],
    most: u8,
) -> Result<(Boxed<Expr>, u8, &[Token]), ParseFault>
    requires text { IsText tokens.now }
    requires room { 1 ≤ most }
    requires single { Opens tokens.now → ⊥ }
    ensures gives { Gives Unary depth_of (ends_level 0) most tokens.now result }
    ensures rest { IfOk result (λ x. IsRest tokens.now x.2.now) }
{
    let (first, rest) = front(tokens);
    let Kind::Sign(sign) = kind_of(first) else {
        return postfix(alloc, first, rest, most);
    };
    if is_prefix(sign) {
        return prefixed(alloc, first, sign, rest, most);
    }
    if sign == sign::OPEN_PAREN {
        return cast(alloc, first, rest, most);
    }
    Err(refused(alloc, first))
}

/// An operand that begins with the sign `first`.
#[cycle(expr)]
fn prefixed<'a>(
    alloc: Global,
    first: &Token,
    sign: u8,
    rest: &'a [Token],
    most: u8,
) -> Result<(Boxed<Expr>, u8, &'a [Token]), ParseFault>
    requires text { IsText rest.now }
    requires room { 1 ≤ most }
    requires sign { IsSign sign first.now }
    requires prefix { IsTrue (is_negation sign || is_inversion sign) }
    ensures gives { Gives Unary depth_of (ends_level 0) most (first.now ∷ rest.now) result }
    ensures rest { IfOk result (λ x. IsRest rest.now x.2.now) }
{
    if most == 1 {
        return Err(ParseFault::TooDeep { place: first.place });
    }
    let (right, depth, behind) = operand(alloc, rest, most - 1)?;
    let tree = node(alloc, first.place, ExprKind::Unary { sign, right })?;
    Ok((tree, depth + 1, behind))
}

/// An operand that begins with a cast, of which `first` is the parenthesis.
#[cycle(expr)]
fn cast<'a>(
    alloc: Global,
    first: &Token,
    rest: &'a [Token],
    most: u8,
) -> Result<(Boxed<Expr>, u8, &'a [Token]), ParseFault>
    requires text { IsText rest.now }
    requires room { 1 ≤ most }
    requires sign { IsSign sign.OPEN_PAREN first.now }
    requires cast { is_cast rest.now ≡ true }
    ensures gives { Gives Unary depth_of (ends_level 0) most (first.now ∷ rest.now) result }
    ensures rest { IfOk result (λ x. IsRest rest.now x.2.now) }
{
    let (class, behind) = front(rest);
    let (_, value) = front(behind);
    if most == 1 {
        let (next, _) = front(value);
        return Err(ParseFault::TooDeep { place: next.place });
    }
    let class = name_of(alloc, class)?;
    let (value, depth, behind) = operand(alloc, value, most - 1)?;
    let tree = node(alloc, first.place, ExprKind::Cast { class, value })?;
    Ok((tree, depth + 1, behind))
}

/// What begins with no sign: a primary or a created array, with the steps behind it.
#[cycle(expr)]
fn postfix<'a>(
    alloc: Global,
    first: &Token,
    rest: &'a [Token],
    most: u8,
) -> Result<(Boxed<Expr>, u8, &'a [Token]), ParseFault>
    requires text { (kind_of_token first.now ≡ k.End → ⊥) → IsText rest.now }
    requires room { 1 ≤ most }
    requires signless { (sign : ℕ) → IsSign sign first.now → ⊥ }
    ensures gives { Gives Postfix depth_of (ends_level 0) most (first.now ∷ rest.now) result }
    ensures rest { IfOk result (λ x. IsRest rest.now x.2.now) }
{
    let place = first.place;
    if kind_of(first) == Kind::New {
        return created(alloc, first, rest, most);
    }
    let (left, depth, behind) = primary(alloc, first, rest, most)?;
    steps(alloc, place, left, depth, behind, most)
}

/// A primary that begins with no sign and creates nothing.
#[cycle(expr)]
fn primary<'a>(
    alloc: Global,
    first: &Token,
    rest: &'a [Token],
    most: u8,
) -> Result<(Boxed<Expr>, u8, &'a [Token]), ParseFault>
    requires text { (kind_of_token first.now ≡ k.End → ⊥) → IsText rest.now }
    requires room { 1 ≤ most }
    requires signless { (sign : ℕ) → IsSign sign first.now → ⊥ }
    requires other { Is k.New first.now → ⊥ }
    ensures gives { Gives Primary depth_of ends_primary most (first.now ∷ rest.now) result }
    ensures rest { IfOk result (λ x. IsRest rest.now x.2.now) }
{
    match kind_of(first) {
        Kind::Name => named(alloc, first.place, None, 0, first, rest, most),
        Kind::Super => super_call(alloc, first, rest, most),
        _ => alone(alloc, first, rest, most),
    }
}

/// `super.name(args)` behind the word `first`.
#[cycle(expr)]
fn super_call<'a>(
    alloc: Global,
    first: &Token,
    rest: &'a [Token],
    most: u8,
) -> Result<(Boxed<Expr>, u8, &'a [Token]), ParseFault>
    requires text { IsText rest.now }
    requires room { 1 ≤ most }
    requires word { Is k.Super first.now }
    ensures gives { Gives Primary depth_of ends_primary most (first.now ∷ rest.now) result }
    ensures rest { IfOk result (λ x. IsRest rest.now x.2.now) }
{
    let behind = expect(alloc, rest, sign::DOT)?;
    let (word, behind) = front(behind);
    let name = name_of(alloc, word)?;
    let behind = expect(alloc, behind, sign::OPEN_PAREN)?;
    let (args, depth, left) = args(alloc, behind, most - 1)?;
    let tree = node(alloc, first.place, ExprKind::SuperCall { name, args })?;
    Ok((tree, depth + 1, left))
}

/// A name and its arguments where they stand there, of an object that is read or of none. The node is at `place`.
#[cycle(expr)]
fn named<'a>(
    alloc: Global,
    place: Place,
    object: Option<Boxed<Expr>>,
    depth: u8,
    first: &Token,
    rest: &'a [Token],
    most: u8,
) -> Result<(Boxed<Expr>, u8, &'a [Token]), ParseFault>
    requires text { (kind_of_token first.now ≡ k.End → ⊥) → IsText rest.now }
    requires depth { depth ≡ depth_of_option object }
    requires most { depth + 1 ≤ most }
    ensures gives { Gives (Named place object) depth_of ends_primary most (first.now ∷ rest.now) result }
    ensures rest { IfOk result (λ x. IsRest rest.now x.2.now) }
{
    let name = name_of(alloc, first)?;
    let (next, behind) = front(rest);
    if !is_sign(next, sign::OPEN_PAREN) {
        return Ok((variable(alloc, place, object, name)?, depth + 1, rest));
    }
    let (args, args_depth, left) = args(alloc, behind, most - 1)?;
    let tree = node(alloc, place, ExprKind::Call { object, name, args })?;
    Ok((tree, 1 + deeper(depth, args_depth), left))
}

/// What is created, with the steps behind it, behind the word `first`.
#[cycle(expr)]
fn created<'a>(
    alloc: Global,
    first: &Token,
    rest: &'a [Token],
    most: u8,
) -> Result<(Boxed<Expr>, u8, &'a [Token]), ParseFault>
    requires text { IsText rest.now }
    requires room { 1 ≤ most }
    requires word { Is k.New first.now }
    ensures gives { Gives Postfix depth_of (ends_level 0) most (first.now ∷ rest.now) result }
    ensures rest { IfOk result (λ x. IsRest rest.now x.2.now) }
{
    let (elem, behind) = front(rest);
    match kind_of(elem) {
        Kind::Name => created_of_class(alloc, first, elem, behind, most),
        Kind::Int => created_simply(alloc, first, Ty::Int, elem, behind, most),
        Kind::Boolean => created_simply(alloc, first, Ty::Boolean, elem, behind, most),
        _ => Err(refused(alloc, elem)),
    }
}

/// `new class(args)` or `new class[size]`, with the steps behind it, behind the word `first` and the class.
#[cycle(expr)]
fn created_of_class<'a>(
    alloc: Global,
    first: &Token,
    class: &Token,
    rest: &'a [Token],
    most: u8,
) -> Result<(Boxed<Expr>, u8, &'a [Token]), ParseFault>
    requires text { IsText rest.now }
    requires room { 1 ≤ most }
    requires word { Is k.New first.now }
    requires class { Is k.Name class.now }
    ensures gives { Gives Postfix depth_of (ends_level 0) most (first.now ∷ class.now ∷ rest.now) result }
    ensures rest { IfOk result (λ x. IsRest rest.now x.2.now) }
{
    let (next, inner) = front(rest);
    let name = name_of(alloc, class)?;
    if is_sign(next, sign::OPEN_PAREN) {
        let (args, depth, behind) = args(alloc, inner, most - 1)?;
        let left = node(alloc, first.place, ExprKind::New { class: name, args })?;
        return steps(alloc, first.place, left, depth + 1, behind, most);
    }
    if !is_sign(next, sign::OPEN_BRACKET) {
        return Err(refused(alloc, next));
    }
    if most == 1 {
        return Err(ParseFault::TooDeep { place: next.place });
    }
    created_array(alloc, first, Ty::Class(name), class, next, inner, most)
}

/// `new elem[size]`, with the steps behind it, behind the word `first` and the type `elem`, which is no class.
#[cycle(expr)]
fn created_simply<'a>(
    alloc: Global,
    first: &Token,
    ty: Ty,
    elem: &Token,
    rest: &'a [Token],
    most: u8,
) -> Result<(Boxed<Expr>, u8, &'a [Token]), ParseFault>
    requires text { IsText rest.now }
    requires room { 1 ≤ most }
    requires word { Is k.New first.now }
    requires elem { IsElement ty elem.now }
    requires simple { Is k.Name elem.now → ⊥ }
    ensures gives { Gives Postfix depth_of (ends_level 0) most (first.now ∷ elem.now ∷ rest.now) result }
    ensures rest { IfOk result (λ x. IsRest rest.now x.2.now) }
{
    if most == 1 {
        return Err(ParseFault::TooDeep { place: elem.place });
    }
    let (next, inner) = front(rest);
    if !is_sign(next, sign::OPEN_BRACKET) {
        return Err(refused(alloc, next));
    }
    created_array(alloc, first, ty, elem, next, inner, most)
}

/// `size]` and the steps behind it, behind the word `first`, the type of the elements, and the bracket.
#[cycle(expr)]
fn created_array<'a>(
    alloc: Global,
    first: &Token,
    ty: Ty,
    elem: &Token,
    bracket: &Token,
    rest: &'a [Token],
    most: u8,
) -> Result<(Boxed<Expr>, u8, &'a [Token]), ParseFault>
    requires text { IsText rest.now }
    requires room { 2 ≤ most }
    requires word { Is k.New first.now }
    requires elem { IsElement ty elem.now }
    requires bracket { IsSign sign.OPEN_BRACKET bracket.now }
    ensures gives { Gives Postfix depth_of (ends_level 0) most (first.now ∷ elem.now ∷ bracket.now ∷ rest.now) result }
    ensures rest { IfOk result (λ x. IsRest rest.now x.2.now) }
{
    let (size, depth, behind) = bracketed(alloc, rest, most - 1)?;
    let (next, _) = front(behind);
    if is_sign(next, sign::OPEN_BRACKET) {
        return Err(refused(alloc, next));
    }
    let left = node(alloc, first.place, ExprKind::NewArray { elem: ty, size })?;
    steps(alloc, first.place, left, depth + 1, behind, most)
}

/// The steps behind `left`, in an operand that begins at `place`.
#[cycle(expr)]
fn steps(
    alloc: Global,
    place: Place,
    mut left: Boxed<Expr>,
    mut depth: u8,
    mut tokens: &[Token],
    most: u8,
) -> Result<(Boxed<Expr>, u8, &[Token]), ParseFault>
    requires text { IsText tokens.now }
    requires depth { depth ≡ depth_of left }
    requires most { depth ≤ most }
    ensures gives { Gives (Steps place left) depth_of (ends_level 0) most tokens.entry.now result }
    ensures rest { IfOk result (λ x. IsRest tokens.entry.now x.2.now) }
{
    'all: loop {
        let (first, rest) = front(tokens);
        if !is_step(first) {
            return Ok((left, depth, tokens));
        }
        if depth == most {
            return Err(ParseFault::TooDeep { place: first.place });
        }
        let (longer, longer_depth, behind) = step(alloc, place, left, depth, first, rest, most)?;
        left = longer;
        depth = longer_depth;
        tokens = behind;
    }
}

/// `left` with the step that begins with the sign `first`.
#[cycle(expr)]
fn step<'a>(
    alloc: Global,
    place: Place,
    left: Boxed<Expr>,
    depth: u8,
    first: &Token,
    rest: &'a [Token],
    most: u8,
) -> Result<(Boxed<Expr>, u8, &'a [Token]), ParseFault>
    requires text { IsText rest.now }
    requires depth { depth ≡ depth_of left }
    requires most { depth + 1 ≤ most }
    requires step { IsStep first.now }
    ensures gives { Continues (Steps place) (ends_level 0) most left (first.now ∷ rest.now) result }
    ensures rest { IfOk result (λ x. IsRest rest.now x.2.now) }
{
    if is_sign(first, sign::DOT) {
        let (name, behind) = front(rest);
        return named(alloc, place, Some(left), depth, name, behind, most);
    }
    let (index, index_depth, behind) = bracketed(alloc, rest, most - 1)?;
    let tree = node(alloc, place, ExprKind::Index { array: left, index })?;
    Ok((tree, 1 + deeper(depth, index_depth), behind))
}

/// An expression and `]`.
#[cycle(expr)]
fn bracketed(
    alloc: Global,
    tokens: &[Token],
    most: u8,
) -> Result<(Boxed<Expr>, u8, &[Token]), ParseFault>
    requires text { IsText tokens.now }
    requires room { 1 ≤ most }
    ensures gives { Gives Bracketed depth_of ends_primary most tokens.now result }
    ensures rest { IfOk result (λ x. IsRest tokens.now x.2.now) }
{
    let (tree, depth, behind) = full(alloc, tokens, most)?;
    let behind = expect(alloc, behind, sign::CLOSE_BRACKET)?;
    Ok((tree, depth, behind))
}

/// Arguments and `)`. With no room left there may be none.
#[cycle(expr)]
fn args(
    alloc: Global,
    tokens: &[Token],
    most: u8,
) -> Result<(Items<Expr>, u8, &[Token]), ParseFault>
    requires text { IsText tokens.now }
    ensures gives { Gives Args depth_of_all ends_primary most tokens.now result }
    ensures rest { IfOk result (λ x. IsRest tokens.now x.2.now) }
{
    let (first, rest) = front(tokens);
    if is_sign(first, sign::CLOSE_PAREN) {
        return Ok((Items::new(alloc), 0, rest));
    }
    if !begins_expr(kind_of(first)) {
        return Err(refused(alloc, first));
    }
    if most == 0 {
        return Err(ParseFault::TooDeep { place: first.place });
    }
    let (arg, depth, behind) = full(alloc, tokens, most)?;
    let mut args = Items::new(alloc);
    args.push(arg.into_inner())?;
    more_args(alloc, args, depth, behind, most)
}

/// What stands behind some arguments: more of them, and `)`.
#[cycle(expr)]
fn more_args(
    alloc: Global,
    mut args: Items<Expr>,
    mut depth: u8,
    mut tokens: &[Token],
    most: u8,
) -> Result<(Items<Expr>, u8, &[Token]), ParseFault>
    requires text { IsText tokens.now }
    requires depth { depth ≡ depth_of_all args }
    requires most { depth ≤ most }
    requires room { 1 ≤ most }
    ensures gives { Gives (MoreArgs args) depth_of_all ends_primary most tokens.entry.now result }
    ensures rest { IfOk result (λ x. IsRest tokens.entry.now x.2.now) }
{
    'list: loop {
        let (next, rest) = front(tokens);
        if is_sign(next, sign::CLOSE_PAREN) {
            return Ok((args, depth, rest));
        }
        if !is_sign(next, sign::COMMA) {
            return Err(refused(alloc, next));
        }
        let (arg, arg_depth, behind) = full(alloc, rest, most)?;
        args.push(arg.into_inner())?;
        depth = deeper(depth, arg_depth);
        tokens = behind;
    }
}

/// `left` with `instanceof` and its class.
fn tested<'a>(
    alloc: Global,
    place: Place,
    left: Boxed<Expr>,
    depth: u8,
    first: &Token,
    rest: &'a [Token],
    most: u8,
    level: u8,
) -> Result<(Boxed<Expr>, u8, &'a [Token]), ParseFault>
    requires text { IsText rest.now }
    requires depth { depth ≡ depth_of left }
    requires most { depth + 1 ≤ most }
    requires word { Is k.InstanceOf first.now }
    requires level { level ≡ 3 }
    ensures gives { Continues (Chain place level) (ends_level (suc level)) most left (first.now ∷ rest.now) result }
    ensures rest { IfOk result (λ x. IsRest rest.now x.2.now) }
{
    let (class, behind) = front(rest);
    let class = name_of(alloc, class)?;
    let tree = node(alloc, place, ExprKind::InstanceOf { value: left, class })?;
    Ok((tree, depth + 1, behind))
}

/// A primary of one token.
fn alone<'a>(
    alloc: Global,
    first: &Token,
    rest: &'a [Token],
    most: u8,
) -> Result<(Boxed<Expr>, u8, &'a [Token]), ParseFault>
    requires text { (kind_of_token first.now ≡ k.End → ⊥) → IsText rest.now }
    requires room { 1 ≤ most }
    requires single { Single first.now }
    ensures gives { Gives Primary depth_of ends_primary most (first.now ∷ rest.now) result }
    ensures rest { IfOk result (λ x. IsRest rest.now x.2.now) }
{
    let tree = literal(alloc, first)?;
    Ok((tree, 1, rest))
}

/// `object.name`, or `name` where there is no object.
fn variable(
    alloc: Global,
    place: Place,
    object: Option<Boxed<Expr>>,
    name: Name,
) -> Result<Boxed<Expr>, ParseFault>
    ensures { MatchResult result (λ t. t ≡ named_at place object name) (λ e. e ≡ OutOfMemory) }
{
    let kind = match object {
        Some(object) => ExprKind::Field { object, name },
        None => ExprKind::Var(name),
    };
    node(alloc, place, kind)
}
