ghost use Rattle.std.specs.Prelude.{◌≡◌, ◌<◌, ◌≤◌, length, IfOk, IsTrue};
ghost use Rattle.jp_grammar.specs.Depth.{depth as depth_of};
ghost use Rattle.jp_grammar.specs.Reading.{IsText, IsRest};
ghost use Rattle.jp_grammar.specs.Statements.{Change, is_assignment};
ghost use Rattle.jp_parse_stmt.specs.Behind.{ends_change};
ghost use Rattle.jp_parse_stmt.specs.Parses.{ParsesChange};
ghost use Rattle.jp_parse_stmt.specs.Parts.{Gets, Shallow, Changed, Assigned, assignment_of, bump_of};

use crate::part::{expr, node, postfix};
use jp_ast::{Expr, Place, Stmt, StmtKind, Token, sign};
use jp_grammar::{Kind, ParseFault, front, kind_of};
use sqlite_items::Boxed;
use std::alloc::Global;

/// The change that begins at the token `at`, and the position of the token behind it: an assignment, `++` or `--` behind
/// an operand, or an operand alone.
///
/// It is `Unexpected` where no change goes on with a token, `Outside` where that token is a word without use in the
/// language, and `TooDeep` where only changes with an expression more than 200 deep go on with it; the place is that of
/// the first such token. It is `OutOfMemory` where memory is wanting.
pub fn parse_change(alloc: Global, tokens: &[Token], at: usize) -> Result<(Stmt, usize), ParseFault>
    requires text { IsText tokens.now }
    requires at { at < length tokens.now }
    ensures { ParsesChange tokens.now at result }
{
    let (tree, rest) = change(alloc, &tokens[at..])?;
    Ok((tree.into_inner(), tokens.len() - rest.len()))
}

/// A change.
pub fn change(alloc: Global, tokens: &[Token]) -> Result<(Boxed<Stmt>, &[Token]), ParseFault>
    requires { IsText tokens.now }
    ensures gives { Gets Change ends_change Shallow tokens.now result }
    ensures rest { IfOk result (λ x. IsRest tokens.now x.1.now) }
{
    let (first, _) = front(tokens);
    let (left, behind) = postfix(alloc, tokens)?;
    changed(alloc, first.place, left, behind)
}

/// What stands behind the left side of a change that begins at `place`.
fn changed(
    alloc: Global,
    place: Place,
    left: Expr,
    tokens: &[Token],
) -> Result<(Boxed<Stmt>, &[Token]), ParseFault>
    requires text { IsText tokens.now }
    requires small { depth_of left ≤ 200 }
    ensures gives { Gets (Changed place left) ends_change Shallow tokens.now result }
    ensures rest { IfOk result (λ x. IsRest tokens.now x.1.now) }
{
    let (first, rest) = front(tokens);
    if let Some(sign) = assignment_of(kind_of(first)) {
        return assigned(alloc, place, left, sign, rest);
    }
    if let Some(up) = bump_of(kind_of(first)) {
        return Ok((node(alloc, place, StmtKind::Bump { left, up })?, rest));
    }
    Ok((node(alloc, place, StmtKind::Run(left))?, tokens))
}

/// The right side of an assignment that begins at `place`.
fn assigned(
    alloc: Global,
    place: Place,
    left: Expr,
    sign: u8,
    tokens: &[Token],
) -> Result<(Boxed<Stmt>, &[Token]), ParseFault>
    requires text { IsText tokens.now }
    requires small { depth_of left ≤ 200 }
    requires sign { IsTrue (is_assignment sign) }
    ensures gives { Gets (Assigned place left sign) ends_change Shallow tokens.now result }
    ensures rest { IfOk result (λ x. IsRest tokens.now x.1.now) }
{
    let (right, behind) = expr(alloc, tokens)?;
    Ok((
        node(alloc, place, StmtKind::Assign { left, sign, right })?,
        behind,
    ))
}

/// The number of the sign, where it is an assignment's: `=`, `+=` or `-=`.
fn assignment_of(kind: Kind) -> Option<u8>
    ensures { result ≡ assignment_of kind }
{
    match kind {
        Kind::Sign(sign) => {
            if sign == sign::ASSIGN || sign == sign::ADD_ASSIGN || sign == sign::SUBTRACT_ASSIGN {
                Some(sign)
            } else {
                None
            }
        }
        _ => None,
    }
}

/// Whether it goes up, where the kind is `++` or `--`.
fn bump_of(kind: Kind) -> Option<bool>
    ensures { result ≡ bump_of kind }
{
    match kind {
        Kind::Sign(sign) => {
            if sign == sign::INCREMENT {
                Some(true)
            } else if sign == sign::DECREMENT {
                Some(false)
            } else {
                None
            }
        }
        _ => None,
    }
}
