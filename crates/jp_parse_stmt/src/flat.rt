ghost use Rattle.std.specs.Prelude.{◌≡◌, ℕ, ◌≤◌, IfOk};
ghost use Rattle.jp_ast.specs.declared.stmt.StmtKind.TheVariants as made;
ghost use Rattle.jp_grammar.specs.Reading.{IsText, IsRest};
ghost use Rattle.jp_parse_stmt.specs.Forms.{Braced, Ended, Formed, Returned, begins_stmt};

use crate::clause::maybe_expr;
use crate::part::{expect, node};
use jp_ast::{Place, Stmt, StmtKind, Token, sign};
use jp_grammar::{Kind, ParseFault, front, is_sign, kind_of, refused};
use sqlite_items::{Boxed, Items};
use std::alloc::Global;

/// `;`, behind a `break` at `place`.
pub fn broken(
    alloc: Global,
    place: Place,
    tokens: &[Token],
) -> Result<(Boxed<Stmt>, &[Token]), ParseFault>
    requires text { IsText tokens.now }
    ensures gives { (most : ℕ) → 1 ≤ most → Formed (Ended place made.Break) most tokens.now result }
    ensures rest { IfOk result (λ x. IsRest tokens.now x.1.now) }
{
    let rest = expect(alloc, tokens, sign::SEMICOLON)?;
    let tree = node(alloc, place, StmtKind::Break)?;
    Ok((tree, rest))
}

/// `;`, behind a `continue` at `place`.
pub fn continued(
    alloc: Global,
    place: Place,
    tokens: &[Token],
) -> Result<(Boxed<Stmt>, &[Token]), ParseFault>
    requires text { IsText tokens.now }
    ensures gives { (most : ℕ) → 1 ≤ most → Formed (Ended place made.Continue) most tokens.now result }
    ensures rest { IfOk result (λ x. IsRest tokens.now x.1.now) }
{
    let rest = expect(alloc, tokens, sign::SEMICOLON)?;
    let tree = node(alloc, place, StmtKind::Continue)?;
    Ok((tree, rest))
}

/// An expression where one stands there, and `;`, behind a `return` at `place`.
pub fn returned(
    alloc: Global,
    place: Place,
    tokens: &[Token],
) -> Result<(Boxed<Stmt>, &[Token]), ParseFault>
    requires text { IsText tokens.now }
    ensures gives { (most : ℕ) → 1 ≤ most → Formed (Returned place) most tokens.now result }
    ensures rest { IfOk result (λ x. IsRest tokens.now x.1.now) }
{
    let (value, rest) = maybe_expr(alloc, tokens)?;
    let tree = node(alloc, place, StmtKind::Return(value))?;
    Ok((tree, rest))
}

/// `}` behind a `{` at `place`, where nothing may stand between them: statements there would be too deep.
pub fn bare(
    alloc: Global,
    place: Place,
    tokens: &[Token],
) -> Result<(Boxed<Stmt>, &[Token]), ParseFault>
    requires text { IsText tokens.now }
    ensures gives { Formed (Braced place) 1 tokens.now result }
    ensures rest { IfOk result (λ x. IsRest tokens.now x.1.now) }
{
    let (first, rest) = front(tokens);
    if is_sign(first, sign::CLOSE_BRACE) {
        let list = Items::new(alloc);
        let tree = node(alloc, place, StmtKind::Block(list))?;
        return Ok((tree, rest));
    }
    if begins_stmt(kind_of(first)) {
        return Err(ParseFault::TooDeep { place: first.place });
    }
    Err(refused(alloc, first))
}

/// Whether a statement begins with a token of the kind.
fn begins_stmt(kind: Kind) -> bool
    ensures { result ≡ begins_stmt kind }
{
    match kind {
        Kind::Sign(sign) => {
            sign == sign::OPEN_BRACE || sign == sign::SEMICOLON || sign == sign::OPEN_PAREN
        }
        Kind::If | Kind::While | Kind::For | Kind::Break | Kind::Continue | Kind::Return => true,
        Kind::Int | Kind::Boolean | Kind::Name | Kind::Number | Kind::Text | Kind::True => true,
        Kind::False | Kind::Null | Kind::This | Kind::Super | Kind::New => true,
        _ => false,
    }
}
