ghost use Rattle.std.specs.Prelude.{◌≡◌, ◌≤◌, IfOk};
ghost use Rattle.jp_ast.specs.declared.sign.TheConstants as sign;
ghost use Rattle.jp_grammar.specs.Depth.{depth as depth_of};
ghost use Rattle.jp_grammar.specs.Expressions.{Expression};
ghost use Rattle.jp_grammar.specs.Reading.{Any, IsText, IsRest};
ghost use Rattle.jp_grammar.specs.Statements.{Change};
ghost use Rattle.jp_parse_stmt.specs.Behind.{anything};
ghost use Rattle.jp_parse_stmt.specs.Locals.{begins_local, names_local, Head, Valued, Declares, LocalLine, Simple};
ghost use Rattle.jp_parse_stmt.specs.Parts.{Gets, Shallow, Shut};

use crate::change::change;
use crate::part::{expect, expr, node};
use crate::types::one_type;
use jp_ast::{Expr, Place, Stmt, StmtKind, Token, sign};
use jp_grammar::{Kind, ParseFault, front, is_sign, kind_of, name_of};
use jp_pred::{Name, Ty};
use sqlite_items::Boxed;
use std::alloc::Global;

/// A statement without a word of its own: a local variable or a change, and `;`.
pub fn simple(alloc: Global, tokens: &[Token]) -> Result<(Boxed<Stmt>, &[Token]), ParseFault>
    requires { IsText tokens.now }
    ensures gives { Gets Simple anything Shallow tokens.now result }
    ensures rest { IfOk result (λ x. IsRest tokens.now x.1.now) }
{
    if begins_local(tokens) {
        return local(alloc, tokens);
    }
    line_change(alloc, tokens)
}

/// A change and `;`.
pub fn line_change(alloc: Global, tokens: &[Token]) -> Result<(Boxed<Stmt>, &[Token]), ParseFault>
    requires { IsText tokens.now }
    ensures gives { Gets (Shut sign.SEMICOLON Change) anything Shallow tokens.now result }
    ensures rest { IfOk result (λ x. IsRest tokens.now x.1.now) }
{
    let (tree, behind) = change(alloc, tokens)?;
    let rest = expect(alloc, behind, sign::SEMICOLON)?;
    Ok((tree, rest))
}

/// Whether a local variable begins there: a primitive type, two names, or a name and `[` `]`.
pub fn begins_local(tokens: &[Token]) -> bool
    requires { IsText tokens.now }
    ensures { result ≡ begins_local tokens.now }
{
    let (first, rest) = front(tokens);
    match kind_of(first) {
        Kind::Int | Kind::Boolean => true,
        Kind::Name => names_local(rest),
        _ => false,
    }
}

/// Whether a name, or `[` `]`, stands there. Behind a name that is a local variable.
fn names_local(tokens: &[Token]) -> bool
    requires { IsText tokens.now }
    ensures { result ≡ names_local tokens.now }
{
    let (first, rest) = front(tokens);
    if kind_of(first) == Kind::Name {
        return true;
    }
    if !is_sign(first, sign::OPEN_BRACKET) {
        return false;
    }
    let (next, _) = front(rest);
    is_sign(next, sign::CLOSE_BRACKET)
}

/// A local variable and `;`.
fn local(alloc: Global, tokens: &[Token]) -> Result<(Boxed<Stmt>, &[Token]), ParseFault>
    requires { IsText tokens.now }
    ensures gives { Gets LocalLine anything Shallow tokens.now result }
    ensures rest { IfOk result (λ x. IsRest tokens.now x.1.now) }
{
    let (first, _) = front(tokens);
    let ((ty, name), behind) = head(alloc, tokens)?;
    declares(alloc, first.place, ty, name, behind)
}

/// A type and a name.
pub fn head(alloc: Global, tokens: &[Token]) -> Result<((Ty, Name), &[Token]), ParseFault>
    requires { IsText tokens.now }
    ensures gives { Gets Head anything Any tokens.now result }
    ensures rest { IfOk result (λ x. IsRest tokens.now x.1.now) }
{
    let (ty, behind) = one_type(alloc, tokens)?;
    let (word, rest) = front(behind);
    let name = name_of(alloc, word)?;
    Ok(((ty, name), rest))
}

/// What stands behind the type and the name of a local variable that begins at `place`: its value where it has one,
/// and `;`.
fn declares(
    alloc: Global,
    place: Place,
    ty: Ty,
    name: Name,
    tokens: &[Token],
) -> Result<(Boxed<Stmt>, &[Token]), ParseFault>
    requires { IsText tokens.now }
    ensures gives { Gets (Declares place (ty, name)) anything Shallow tokens.now result }
    ensures rest { IfOk result (λ x. IsRest tokens.now x.1.now) }
{
    let (first, rest) = front(tokens);
    if !is_sign(first, sign::SEMICOLON) {
        return valued(alloc, place, ty, name, tokens);
    }
    let value = None;
    let tree = node(alloc, place, StmtKind::Local { ty, name, value })?;
    Ok((tree, rest))
}

/// The value behind the type and the name of a local variable that begins at `place`, and `;`.
pub fn valued(
    alloc: Global,
    place: Place,
    ty: Ty,
    name: Name,
    tokens: &[Token],
) -> Result<(Boxed<Stmt>, &[Token]), ParseFault>
    requires { IsText tokens.now }
    ensures gives { Gets (Valued place (ty, name)) anything Shallow tokens.now result }
    ensures rest { IfOk result (λ x. IsRest tokens.now x.1.now) }
{
    let behind = expect(alloc, tokens, sign::ASSIGN)?;
    let (value, rest) = line_expr(alloc, behind)?;
    let value = Some(value);
    let tree = node(alloc, place, StmtKind::Local { ty, name, value })?;
    Ok((tree, rest))
}

/// An expression and `;`.
pub fn line_expr(alloc: Global, tokens: &[Token]) -> Result<(Expr, &[Token]), ParseFault>
    requires { IsText tokens.now }
    ensures gives { Gets (Shut sign.SEMICOLON Expression) anything (λ t. depth_of t ≤ 200) tokens.now result }
    ensures rest { IfOk result (λ x. IsRest tokens.now x.1.now) }
{
    let (tree, behind) = expr(alloc, tokens)?;
    let rest = expect(alloc, behind, sign::SEMICOLON)?;
    Ok((tree, rest))
}
