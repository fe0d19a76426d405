ghost use Rattle.std.specs.Prelude.{◌≡◌, ◌≤◌, length, drop, IfOk, MatchResult};
ghost use Rattle.jp_grammar.specs.declared.fault.ParseFault.TheVariants.{OutOfMemory};
ghost use Rattle.jp_grammar.specs.Behind.{ends_full, ends_level};
ghost use Rattle.jp_grammar.specs.Depth.{depth as depth_of};
ghost use Rattle.jp_grammar.specs.Expressions.{Expression, Postfix};
ghost use Rattle.jp_grammar.specs.Reading.{IsText, IsRest, Takes, Lacks};
ghost use Rattle.jp_parse_stmt.specs.Parts.{Gets, stmt_at};

use jp_ast::{Expr, Place, Stmt, StmtKind, Token};
use jp_grammar::{ParseFault, front, is_sign, refused};
use jp_parse_expr::{parse_expr, parse_postfix};
use sqlite_items::Boxed;
use std::alloc::Global;

/// The tokens behind a certain sign, or the fault where another token stands there.
pub fn expect(alloc: Global, tokens: &[Token], sign: u8) -> Result<&[Token], ParseFault>
    requires { IsText tokens.now }
    ensures gives { MatchResult result (λ rest. Takes sign tokens.now rest.now) (λ e. Lacks sign tokens.now e) }
    ensures rest { IfOk result (λ rest. IsRest tokens.now rest.now) }
{
    let (first, rest) = front(tokens);
    if !is_sign(first, sign) {
        return Err(refused(alloc, first));
    }
    Ok(rest)
}

/// A node of a tree.
pub fn node(alloc: Global, place: Place, kind: StmtKind) -> Result<Boxed<Stmt>, ParseFault>
    ensures { MatchResult result (λ t. t ≡ stmt_at place kind) (λ e. e ≡ OutOfMemory) }
{
    Ok(Boxed::new(alloc, Stmt { place, kind })?)
}

/// An expression.
pub fn expr(alloc: Global, tokens: &[Token]) -> Result<(Expr, &[Token]), ParseFault>
    requires { IsText tokens.now }
    ensures gives { Gets Expression ends_full (λ t. depth_of t ≤ 200) tokens.now result }
    ensures rest { IfOk result (λ x. IsRest tokens.now x.1.now) }
{
    let (tree, at) = parse_expr(alloc, tokens, 0)?;
    Ok((tree, &tokens[at..]))
}

/// An operand without a sign or a cast in front, with all steps behind it.
pub fn postfix(alloc: Global, tokens: &[Token]) -> Result<(Expr, &[Token]), ParseFault>
    requires { IsText tokens.now }
    ensures gives { Gets Postfix (ends_level 0) (λ t. depth_of t ≤ 200) tokens.now result }
    ensures rest { IfOk result (λ x. IsRest tokens.now x.1.now) }
{
    let (tree, at) = parse_postfix(alloc, tokens, 0)?;
    Ok((tree, &tokens[at..]))
}
