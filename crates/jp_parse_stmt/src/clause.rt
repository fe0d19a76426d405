ghost use Rattle.std.specs.Prelude.{◌≤◌, IfOk};
ghost use Rattle.jp_ast.specs.declared.sign.TheConstants as sign;
ghost use Rattle.jp_grammar.specs.Depth.{depth as depth_of};
ghost use Rattle.jp_grammar.specs.Expressions.{Expression};
ghost use Rattle.jp_grammar.specs.Reading.{IsText, IsRest};
ghost use Rattle.jp_grammar.specs.Statements.{Change, Init, Test};
ghost use Rattle.jp_parse_stmt.specs.Behind.{anything};
ghost use Rattle.jp_parse_stmt.specs.Locals.{ValuedLine};
ghost use Rattle.jp_parse_stmt.specs.Parts.{Gets, Shallow, Shut, MaybeShut, Each};

use crate::change::change;
use crate::local::{begins_local, head, line_change, line_expr, valued};
use crate::part::{expect, expr};
use jp_ast::{Expr, Stmt, Token, sign};
use jp_grammar::{ParseFault, front, is_sign};
use sqlite_items::Boxed;
use std::alloc::Global;

/// A test in parentheses.
pub fn test(alloc: Global, tokens: &[Token]) -> Result<(Expr, &[Token]), ParseFault>
    requires { IsText tokens.now }
    ensures gives { Gets Test anything (λ t. depth_of t ≤ 200) tokens.now result }
    ensures rest { IfOk result (λ x. IsRest tokens.now x.1.now) }
{
    let behind = expect(alloc, tokens, sign::OPEN_PAREN)?;
    closed_expr(alloc, behind)
}

/// What begins a `for` where it has it, and `;`.
pub fn maybe_init(
    alloc: Global,
    tokens: &[Token],
) -> Result<(Option<Boxed<Stmt>>, &[Token]), ParseFault>
    requires { IsText tokens.now }
    ensures gives { Gets (MaybeShut sign.SEMICOLON Init) anything (Each Shallow) tokens.now result }
    ensures rest { IfOk result (λ x. IsRest tokens.now x.1.now) }
{
    let (first, rest) = front(tokens);
    if is_sign(first, sign::SEMICOLON) {
        return Ok((None, rest));
    }
    let (tree, rest) = init(alloc, tokens)?;
    Ok((Some(tree), rest))
}

/// An expression where one stands there, and `;`.
pub fn maybe_expr(alloc: Global, tokens: &[Token]) -> Result<(Option<Expr>, &[Token]), ParseFault>
    requires { IsText tokens.now }
    ensures gives { Gets (MaybeShut sign.SEMICOLON Expression) anything (Each (λ t. depth_of t ≤ 200)) tokens.now result }
    ensures rest { IfOk result (λ x. IsRest tokens.now x.1.now) }
{
    let (first, rest) = front(tokens);
    if is_sign(first, sign::SEMICOLON) {
        return Ok((None, rest));
    }
    let (tree, rest) = line_expr(alloc, tokens)?;
    Ok((Some(tree), rest))
}

/// A change where one stands there, and `)`.
pub fn maybe_change(
    alloc: Global,
    tokens: &[Token],
) -> Result<(Option<Boxed<Stmt>>, &[Token]), ParseFault>
    requires { IsText tokens.now }
    ensures gives { Gets (MaybeShut sign.CLOSE_PAREN Change) anything (Each Shallow) tokens.now result }
    ensures rest { IfOk result (λ x. IsRest tokens.now x.1.now) }
{
    let (first, rest) = front(tokens);
    if is_sign(first, sign::CLOSE_PAREN) {
        return Ok((None, rest));
    }
    let (tree, rest) = closed_change(alloc, tokens)?;
    Ok((Some(tree), rest))
}

/// A local variable with its value or a change, and `;`.
fn init(alloc: Global, tokens: &[Token]) -> Result<(Boxed<Stmt>, &[Token]), ParseFault>
    requires { IsText tokens.now }
    ensures gives { Gets (Shut sign.SEMICOLON Init) anything Shallow tokens.now result }
    ensures rest { IfOk result (λ x. IsRest tokens.now x.1.now) }
{
    if begins_local(tokens) {
        return valued_line(alloc, tokens);
    }
    line_change(alloc, tokens)
}

/// A local variable with its value, and `;`.
fn valued_line(alloc: Global, tokens: &[Token]) -> Result<(Boxed<Stmt>, &[Token]), ParseFault>
    requires { IsText tokens.now }
    ensures gives { Gets ValuedLine anything Shallow tokens.now result }
    ensures rest { IfOk result (λ x. IsRest tokens.now x.1.now) }
{
    let (first, _) = front(tokens);
    let ((ty, name), behind) = head(alloc, tokens)?;
    valued(alloc, first.place, ty, name, behind)
}

/// An expression and `)`.
fn closed_expr(alloc: Global, tokens: &[Token]) -> Result<(Expr, &[Token]), ParseFault>
    requires { IsText tokens.now }
    ensures gives { Gets (Shut sign.CLOSE_PAREN Expression) anything (λ t. depth_of t ≤ 200) tokens.now result }
    ensures rest { IfOk result (λ x. IsRest tokens.now x.1.now) }
{
    let (tree, behind) = expr(alloc, tokens)?;
    let rest = expect(alloc, behind, sign::CLOSE_PAREN)?;
    Ok((tree, rest))
}

/// A change and `)`.
fn closed_change(alloc: Global, tokens: &[Token]) -> Result<(Boxed<Stmt>, &[Token]), ParseFault>
    requires { IsText tokens.now }
    ensures gives { Gets (Shut sign.CLOSE_PAREN Change) anything Shallow tokens.now result }
    ensures rest { IfOk result (λ x. IsRest tokens.now x.1.now) }
{
    let (tree, behind) = change(alloc, tokens)?;
    let rest = expect(alloc, behind, sign::CLOSE_PAREN)?;
    Ok((tree, rest))
}
