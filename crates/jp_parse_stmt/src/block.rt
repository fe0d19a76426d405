ghost use Rattle.std.specs.Prelude.{◌≡◌, ◌+◌, ◌<◌, ◌≤◌, ◌∷◌, [], length, IfOk};
ghost use Rattle.jp_ast.specs.declared.sign.TheConstants as sign;
ghost use Rattle.jp_grammar.specs.declared.kind.Kind.TheVariants as k;
ghost use Rattle.jp_grammar.specs.Depth.{depth as depth_of, stmt_depth, deepest};
ghost use Rattle.jp_grammar.specs.Kinds.{Is};
ghost use Rattle.jp_grammar.specs.Reading.{IsText, IsRest};
ghost use Rattle.jp_grammar.specs.Statements.{Block};
ghost use Rattle.jp_parse_stmt.specs.Behind.{anything};
ghost use Rattle.jp_parse_stmt.specs.Forms.{BeginsWith, Branched, Braced, Elsed, Formed, OneStmt, SmallAll};
ghost use Rattle.jp_parse_stmt.specs.Parses.{ParsesBlock};
ghost use Rattle.jp_parse_stmt.specs.Parts.{Gets};

use crate::clause::test;
use crate::flat::{bare, broken, continued, returned};
use crate::local::simple;
use crate::part::node;
use crate::turns::turns;
use jp_ast::{Expr, Place, Stmt, StmtKind, Token, sign};
use jp_grammar::{Kind, ParseFault, front, is_sign, kind_of};
use sqlite_items::{Boxed, Items};
use std::alloc::Global;

/// The greatest depth of a tree.
const MOST: u8 = 200;

/// The statements that begin at the token `at`, which stands behind their `{`, and the position of the token behind
/// their `}`.
///
/// It is `Unexpected` where no statements go on with a token, `Outside` where that token is a word without use in the
/// language, and `TooDeep` where only statements go on with it that are more than 200 deep or have an expression so
/// deep; the place is that of the first such token. It is `OutOfMemory` where memory is wanting.
pub fn parse_block(
    alloc: Global,
    tokens: &[Token],
    at: usize,
) -> Result<(Items<Stmt>, usize), ParseFault>
    requires text { IsText tokens.now }
    requires at { at < length tokens.now }
    ensures { ParsesBlock tokens.now at result }
{
    let (list, rest) = block(alloc, &tokens[at..], MOST)?;
    Ok((list, tokens.len() - rest.len()))
}

/// Statements at most so deep, and `}`.
#[cycle(stmt)]
fn block(alloc: Global, tokens: &[Token], most: u8) -> Result<(Items<Stmt>, &[Token]), ParseFault>
    requires text { IsText tokens.now }
    requires room { 1 ≤ most }
    ensures gives { Gets (Block []) anything (SmallAll most) tokens.now result }
    ensures rest { IfOk result (λ x. IsRest tokens.now x.1.now) }
{
    let mut list = Items::new(alloc);
    let mut left = tokens;
    'each: loop {
        let (first, rest) = front(left);
        if is_sign(first, sign::CLOSE_BRACE) {
            return Ok((list, rest));
        }
        let (tree, behind) = stmt(alloc, left, most)?;
        let one = tree.into_inner();
        list.push(one)?;
        left = behind;
    }
}

/// A statement at most so deep.
#[cycle(stmt)]
fn stmt(alloc: Global, tokens: &[Token], most: u8) -> Result<(Boxed<Stmt>, &[Token]), ParseFault>
    requires text { IsText tokens.now }
    requires room { 1 ≤ most }
    ensures gives { Formed OneStmt most tokens.now result }
    ensures rest { IfOk result (λ x. IsRest tokens.now x.1.now) }
{
    let (first, rest) = front(tokens);
    match kind_of(first) {
        Kind::If => when(alloc, first, rest, most),
        Kind::While => repeat(alloc, first, rest, most),
        Kind::For => count(alloc, first, rest, most),
        Kind::Break => broken(alloc, first.place, rest),
        Kind::Continue => continued(alloc, first.place, rest),
        Kind::Return => returned(alloc, first.place, rest),
        Kind::Sign(sign) => signed(alloc, sign, tokens, most),
        _ => simple(alloc, tokens),
    }
}

/// A statement that begins with the sign.
#[cycle(stmt)]
fn signed(
    alloc: Global,
    sign: u8,
    tokens: &[Token],
    most: u8,
) -> Result<(Boxed<Stmt>, &[Token]), ParseFault>
    requires text { IsText tokens.now }
    requires room { 1 ≤ most }
    requires sign { BeginsWith sign tokens.now }
    ensures gives { Formed OneStmt most tokens.now result }
    ensures rest { IfOk result (λ x. IsRest tokens.now x.1.now) }
{
    let (first, rest) = front(tokens);
    if sign == sign::OPEN_BRACE {
        return braced(alloc, first.place, rest, most);
    }
    if sign == sign::SEMICOLON {
        let tree = node(alloc, first.place, StmtKind::Empty)?;
        return Ok((tree, rest));
    }
    simple(alloc, tokens)
}

/// Statements and `}`, behind a `{` at `place`.
#[cycle(stmt)]
fn braced(
    alloc: Global,
    place: Place,
    tokens: &[Token],
    most: u8,
) -> Result<(Boxed<Stmt>, &[Token]), ParseFault>
    requires text { IsText tokens.now }
    requires room { 1 ≤ most }
    ensures gives { Formed (Braced place) most tokens.now result }
    ensures rest { IfOk result (λ x. IsRest tokens.now x.1.now) }
{
    if most == 1 {
        return bare(alloc, place, tokens);
    }
    let (list, behind) = block(alloc, tokens, most - 1)?;
    let tree = node(alloc, place, StmtKind::Block(list))?;
    Ok((tree, behind))
}

/// A test and a statement, behind the token `while`.
#[cycle(stmt)]
fn repeat<'a>(
    alloc: Global,
    first: &Token,
    tokens: &'a [Token],
    most: u8,
) -> Result<(Boxed<Stmt>, &'a [Token]), ParseFault>
    requires text { IsText tokens.now }
    requires room { 1 ≤ most }
    requires first { Is k.While first.now }
    ensures gives { Formed OneStmt most (first.now ∷ tokens.now) result }
    ensures rest { IfOk result (λ x. IsRest tokens.now x.1.now) }
{
    let place = first.place;
    if most == 1 {
        return Err(ParseFault::TooDeep { place });
    }
    let (test, behind) = test(alloc, tokens)?;
    let (body, rest) = stmt(alloc, behind, most - 1)?;
    let tree = node(alloc, place, StmtKind::While { test, body })?;
    Ok((tree, rest))
}

/// The parts in parentheses and a statement, behind the token `for`.
#[cycle(stmt)]
fn count<'a>(
    alloc: Global,
    first: &Token,
    tokens: &'a [Token],
    most: u8,
) -> Result<(Boxed<Stmt>, &'a [Token]), ParseFault>
    requires text { IsText tokens.now }
    requires room { 1 ≤ most }
    requires first { Is k.For first.now }
    ensures gives { Formed OneStmt most (first.now ∷ tokens.now) result }
    ensures rest { IfOk result (λ x. IsRest tokens.now x.1.now) }
{
    let place = first.place;
    if most == 1 {
        return Err(ParseFault::TooDeep { place });
    }
    let ((init, test, change), behind) = turns(alloc, tokens)?;
    let (body, rest) = stmt(alloc, behind, most - 1)?;
    let kind = StmtKind::For {
        init,
        test,
        change,
        body,
    };
    let tree = node(alloc, place, kind)?;
    Ok((tree, rest))
}

/// A test and the statements that it chooses from, behind the token `if`.
#[cycle(stmt)]
fn when<'a>(
    alloc: Global,
    first: &Token,
    tokens: &'a [Token],
    most: u8,
) -> Result<(Boxed<Stmt>, &'a [Token]), ParseFault>
    requires text { IsText tokens.now }
    requires room { 1 ≤ most }
    requires first { Is k.If first.now }
    ensures gives { Formed OneStmt most (first.now ∷ tokens.now) result }
    ensures rest { IfOk result (λ x. IsRest tokens.now x.1.now) }
{
    let place = first.place;
    if most == 1 {
        return Err(ParseFault::TooDeep { place });
    }
    let (test, behind) = test(alloc, tokens)?;
    branches(alloc, place, test, behind, most)
}

/// The statements of an `if` that begins at `place`, behind its test.
#[cycle(stmt)]
fn branches(
    alloc: Global,
    place: Place,
    test: Expr,
    tokens: &[Token],
    most: u8,
) -> Result<(Boxed<Stmt>, &[Token]), ParseFault>
    requires text { IsText tokens.now }
    requires room { 2 ≤ most }
    requires test { depth_of test ≤ 200 }
    ensures gives { Formed (Branched place test) most tokens.now result }
    ensures rest { IfOk result (λ x. IsRest tokens.now x.1.now) }
{
    let (yes, behind) = stmt(alloc, tokens, most - 1)?;
    otherwise(alloc, place, test, yes, behind, most)
}

/// The second statement of an `if` that begins at `place`, where it has one, behind its test and its first statement.
#[cycle(stmt)]
fn otherwise(
    alloc: Global,
    place: Place,
    test: Expr,
    yes: Boxed<Stmt>,
    tokens: &[Token],
    most: u8,
) -> Result<(Boxed<Stmt>, &[Token]), ParseFault>
    requires text { IsText tokens.now }
    requires room { 2 ≤ most }
    requires test { depth_of test ≤ 200 }
    requires depth { stmt_depth yes + 1 ≤ most }
    requires deepest { deepest yes ≤ 200 }
    ensures gives { Elsed place test yes most tokens.now result }
    ensures rest { IfOk result (λ x. IsRest tokens.now x.1.now) }
{
    let (next, rest) = front(tokens);
    let kind = kind_of(next);
    match kind {
        Kind::Else => {
            let (no, behind) = stmt(alloc, rest, most - 1)?;
            let no = Some(no);
            let tree = node(alloc, place, StmtKind::If { test, yes, no })?;
            Ok((tree, behind))
        }
        _ => {
            let no = None;
            let tree = node(alloc, place, StmtKind::If { test, yes, no })?;
            Ok((tree, tokens))
        }
    }
}
