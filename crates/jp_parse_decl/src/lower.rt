ghost use Rattle.std.specs.Prelude.{[], IfOk};
ghost use Rattle.jp_grammar.specs.Expressions.{Args};
ghost use Rattle.jp_grammar.specs.Statements.{OneType, ResultType, Block};
ghost use Rattle.jp_grammar.specs.Declarations.{MaybeGuard, Braces};
ghost use Rattle.jp_grammar.specs.Guards.{Guard};
ghost use Rattle.jp_grammar.specs.Behind.{ends_primary};
ghost use Rattle.jp_grammar.specs.Reading.{Any, IsText, IsRest};
ghost use Rattle.jp_parse_expr.specs.BehindGuards.{ends_guard};
ghost use Rattle.jp_parse_stmt.specs.Behind.{anything, ends_type};
ghost use Rattle.jp_parse_decl.specs.Answers.{Yields};
ghost use Rattle.jp_parse_decl.specs.Behind.{ends_brace};
ghost use Rattle.jp_parse_decl.specs.Bounds.{SmallArgs, SmallGuard, SmallMaybe, SmallBlock};
ghost use Rattle.jp_parse_decl.specs.Parts.{Passed};

use crate::token::expect;
use jp_ast::{Expr, GuardExpr, Stmt, Token, sign};
use jp_grammar::{Kind, ParseFault, front, kind_of};
use jp_parse_expr::{parse_args, parse_guard};
use jp_parse_stmt::{parse_block, parse_type};
use jp_pred::Ty;
use sqlite_items::Items;
use std::alloc::Global;

/// A type.
pub fn type_of(alloc: Global, tokens: &[Token]) -> Result<(Ty, &[Token]), ParseFault>
    requires text { IsText tokens.now }
    ensures gives { Yields OneType ends_type Any tokens.now result }
    ensures rest { IfOk result (λ x. IsRest tokens.now x.1.now) }
{
    let (ty, end) = parse_type(alloc, tokens, 0)?;
    Ok((ty, &tokens[end..]))
}

/// The type of a result: `void` or a type.
pub fn result_of(alloc: Global, tokens: &[Token]) -> Result<(Ty, &[Token]), ParseFault>
    requires text { IsText tokens.now }
    ensures gives { Yields ResultType ends_type Any tokens.now result }
    ensures rest { IfOk result (λ x. IsRest tokens.now x.1.now) }
{
    let (first, rest) = front(tokens);
    if kind_of(first) == Kind::Void {
        return Ok((Ty::Void, rest));
    }
    type_of(alloc, tokens)
}

/// Arguments and `)`.
fn args(alloc: Global, tokens: &[Token]) -> Result<(Items<Expr>, &[Token]), ParseFault>
    requires text { IsText tokens.now }
    ensures gives { Yields Args ends_primary SmallArgs tokens.now result }
    ensures rest { IfOk result (λ x. IsRest tokens.now x.1.now) }
{
    let (args, end) = parse_args(alloc, tokens, 0)?;
    Ok((args, &tokens[end..]))
}

/// Arguments, `)` and `;`.
pub fn passed(alloc: Global, tokens: &[Token]) -> Result<(Items<Expr>, &[Token]), ParseFault>
    requires text { IsText tokens.now }
    ensures gives { Yields Passed anything SmallArgs tokens.now result }
    ensures rest { IfOk result (λ x. IsRest tokens.now x.1.now) }
{
    let (args, behind) = args(alloc, tokens)?;
    let rest = expect(alloc, behind, sign::SEMICOLON)?;
    Ok((args, rest))
}

/// A guard.
fn guard(alloc: Global, tokens: &[Token]) -> Result<(GuardExpr, &[Token]), ParseFault>
    requires text { IsText tokens.now }
    ensures gives { Yields Guard ends_guard SmallGuard tokens.now result }
    ensures rest { IfOk result (λ x. IsRest tokens.now x.1.now) }
{
    let (guard, end) = parse_guard(alloc, tokens, 0)?;
    Ok((guard, &tokens[end..]))
}

/// The guard behind `when`, where it stands there.
pub fn maybe_guard(
    alloc: Global,
    tokens: &[Token],
) -> Result<(Option<GuardExpr>, &[Token]), ParseFault>
    requires text { IsText tokens.now }
    ensures gives { Yields MaybeGuard ends_brace SmallMaybe tokens.now result }
    ensures rest { IfOk result (λ x. IsRest tokens.now x.1.now) }
{
    let (first, rest) = front(tokens);
    if kind_of(first) != Kind::When {
        return Ok((None, tokens));
    }
    let (guard, behind) = guard(alloc, rest)?;
    Ok((Some(guard), behind))
}

/// Statements and `}`.
pub fn block(alloc: Global, tokens: &[Token]) -> Result<(Items<Stmt>, &[Token]), ParseFault>
    requires text { IsText tokens.now }
    ensures gives { Yields (Block []) anything SmallBlock tokens.now result }
    ensures rest { IfOk result (λ x. IsRest tokens.now x.1.now) }
{
    let (block, end) = parse_block(alloc, tokens, 0)?;
    Ok((block, &tokens[end..]))
}

/// Statements in braces.
pub fn braces(alloc: Global, tokens: &[Token]) -> Result<(Items<Stmt>, &[Token]), ParseFault>
    requires text { IsText tokens.now }
    ensures gives { Yields Braces anything SmallBlock tokens.now result }
    ensures rest { IfOk result (λ x. IsRest tokens.now x.1.now) }
{
    let rest = expect(alloc, tokens, sign::OPEN_BRACE)?;
    block(alloc, rest)
}
