ghost use Rattle.std.specs.Prelude.{IfOk};
ghost use Rattle.jp_grammar.specs.Declarations.{OneParam, MoreParams, Params};
ghost use Rattle.jp_grammar.specs.Reading.{Any, IsText, IsRest};
ghost use Rattle.jp_parse_decl.specs.Answers.{Yields};
ghost use Rattle.jp_parse_stmt.specs.Behind.{anything};
ghost use Rattle.jp_parse_decl.specs.Parts.{Listed};

use crate::lower::type_of;
use crate::token::{expect, read_label};
use jp_ast::{Param, Token, sign};
use jp_grammar::{ParseFault, front, is_sign};
use sqlite_items::Items;
use std::alloc::Global;

/// Parameters in parentheses.
pub fn params(alloc: Global, tokens: &[Token]) -> Result<(Items<Param>, &[Token]), ParseFault>
    requires text { IsText tokens.now }
    ensures gives { Yields Params anything Any tokens.now result }
    ensures rest { IfOk result (λ x. IsRest tokens.now x.1.now) }
{
    let rest = expect(alloc, tokens, sign::OPEN_PAREN)?;
    listed(alloc, rest)
}

/// Parameters and `)`.
fn listed(alloc: Global, tokens: &[Token]) -> Result<(Items<Param>, &[Token]), ParseFault>
    requires text { IsText tokens.now }
    ensures gives { Yields Listed anything Any tokens.now result }
    ensures rest { IfOk result (λ x. IsRest tokens.now x.1.now) }
{
    let (first, rest) = front(tokens);
    let mut params = Items::new(alloc);
    if is_sign(first, sign::CLOSE_PAREN) {
        return Ok((params, rest));
    }
    let (param, behind) = param(alloc, tokens)?;
    params.push(param)?;
    more_params(alloc, params, behind)
}

/// What stands behind some parameters: more of them, and `)`.
fn more_params(
    alloc: Global,
    mut params: Items<Param>,
    mut tokens: &[Token],
) -> Result<(Items<Param>, &[Token]), ParseFault>
    requires text { IsText tokens.now }
    ensures gives { Yields (MoreParams params) anything Any tokens.entry.now result }
    ensures rest { IfOk result (λ x. IsRest tokens.entry.now x.1.now) }
{
    'list: loop {
        let (next, rest) = front(tokens);
        if is_sign(next, sign::CLOSE_PAREN) {
            return Ok((params, rest));
        }
        let rest = expect(alloc, tokens, sign::COMMA)?;
        let (param, behind) = param(alloc, rest)?;
        params.push(param)?;
        tokens = behind;
    }
}

/// A parameter.
fn param(alloc: Global, tokens: &[Token]) -> Result<(Param, &[Token]), ParseFault>
    requires text { IsText tokens.now }
    ensures gives { Yields OneParam anything Any tokens.now result }
    ensures rest { IfOk result (λ x. IsRest tokens.now x.1.now) }
{
    let (ty, rest) = type_of(alloc, tokens)?;
    let (label, rest) = read_label(alloc, rest)?;
    Ok((
        Param {
            place: label.place,
            ty,
            name: label.name,
        },
        rest,
    ))
}
