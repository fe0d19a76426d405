ghost use Rattle.std.specs.Prelude.{◌≤◌, IfOk};
ghost use Rattle.jp_grammar.specs.Reading.{IsText, IsRest};
ghost use Rattle.jp_parse_stmt.specs.Behind.{anything};
ghost use Rattle.jp_parse_stmt.specs.Forms.{AllTurns, OpenTurns, SmallTurns};
ghost use Rattle.jp_parse_stmt.specs.Parts.{Gets};

use crate::clause::{maybe_change, maybe_expr, maybe_init};
use crate::part::expect;
use jp_ast::{Expr, Stmt, Token, sign};
use jp_grammar::ParseFault;
use sqlite_items::Boxed;
use std::alloc::Global;

/// What stands in the parentheses of a `for`: what begins it, its test, and its change.
pub type Turns = (Option<Boxed<Stmt>>, Option<Expr>, Option<Boxed<Stmt>>);

/// The parts of a `for` in their parentheses.
pub fn turns(alloc: Global, tokens: &[Token]) -> Result<(Turns, &[Token]), ParseFault>
    requires { IsText tokens.now }
    ensures gives { Gets OpenTurns anything SmallTurns tokens.now result }
    ensures rest { IfOk result (λ x. IsRest tokens.now x.1.now) }
{
    let behind = expect(alloc, tokens, sign::OPEN_PAREN)?;
    all_turns(alloc, behind)
}

/// The parts of a `for`, and `)`.
fn all_turns(alloc: Global, tokens: &[Token]) -> Result<(Turns, &[Token]), ParseFault>
    requires { IsText tokens.now }
    ensures gives { Gets AllTurns anything SmallTurns tokens.now result }
    ensures rest { IfOk result (λ x. IsRest tokens.now x.1.now) }
{
    let (init, behind) = maybe_init(alloc, tokens)?;
    let (test, later) = maybe_expr(alloc, behind)?;
    let (change, rest) = maybe_change(alloc, later)?;
    Ok(((init, test, change), rest))
}
