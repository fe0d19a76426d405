ghost use Rattle.std.specs.Prelude.{IfOk, MatchResult};
ghost use Rattle.jp_grammar.specs.Guards.{Path, PathSteps, IsRoot};
ghost use Rattle.jp_grammar.specs.Reading.{IsText, IsRest};
ghost use Rattle.jp_parse_expr.specs.BehindGuards.{ends_path};
ghost use Rattle.jp_parse_expr.specs.GuardParts.{GivesAll, RefusedRoot};

use jp_ast::{Lexeme, PathText, Token, sign};
use jp_grammar::{Kind, ParseFault, front, is_sign, kind_of, name_of, refused};
use jp_pred::Name;
use sqlite_items::Items;
use std::alloc::Global;

/// A path of a guard.
pub fn path_of(alloc: Global, tokens: &[Token]) -> Result<(PathText, &[Token]), ParseFault>
    requires text { IsText tokens.now }
    ensures gives { GivesAll Path ends_path tokens.now result }
    ensures rest { IfOk result (λ x. IsRest tokens.now x.1.now) }
{
    let (first, rest) = front(tokens);
    let root = root_of(alloc, first)?;
    let begun = PathText {
        place: first.place,
        root,
        steps: Items::new(alloc),
    };
    path_steps(alloc, begun, rest)
}

/// `this` or the name that the token is, or the fault at it where it is neither.
fn root_of(alloc: Global, token: &Token) -> Result<Name, ParseFault>
    ensures { MatchResult result (λ word. IsRoot word token.now) (λ e. RefusedRoot token.now e) }
{
    let kind = kind_of(token);
    if kind != Kind::Name && kind != Kind::This {
        return Err(refused(alloc, token));
    }
    let Lexeme::Word(word) = &token.lexeme else {
        unreachable!()
    };
    Ok(Name::from_bytes(alloc, word.bytes())?)
}

/// The steps behind the beginning of a path.
fn path_steps(
    alloc: Global,
    mut path: PathText,
    mut tokens: &[Token],
) -> Result<(PathText, &[Token]), ParseFault>
    requires text { IsText tokens.now }
    ensures gives { GivesAll (PathSteps path) ends_path tokens.entry.now result }
    ensures rest { IfOk result (λ x. IsRest tokens.entry.now x.1.now) }
{
    'steps: loop {
        let (first, rest) = front(tokens);
        if !is_sign(first, sign::DOT) {
            return Ok((path, tokens));
        }
        let (word, behind) = front(rest);
        path.steps.push(name_of(alloc, word)?)?;
        tokens = behind;
    }
}
