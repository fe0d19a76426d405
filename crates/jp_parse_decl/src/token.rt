ghost use Rattle.std.specs.Prelude.{◌≡◌, IfOk, MatchResult};
ghost use Rattle.jp_grammar.specs.declared.kind.Kind.TheVariants as k;
ghost use Rattle.jp_grammar.specs.Reading.{Any, IsText, IsRest, Takes, Lacks};
ghost use Rattle.jp_parse_decl.specs.Answers.{Yields, Skips, TakesWord, LacksWord};
ghost use Rattle.jp_parse_stmt.specs.Behind.{anything};
ghost use Rattle.jp_parse_decl.specs.Parts.{LabelAt};

use jp_ast::{Place, Token};
use jp_grammar::{Kind, ParseFault, front, is_sign, kind_of, name_of, refused};
use jp_pred::Name;
use std::alloc::Global;

/// A name, and its place.
#[derive(Debug, Drop)]
pub struct Label {
    pub place: Place,
    pub name: Name,
}

/// The name that stands first.
pub fn read_label(alloc: Global, tokens: &[Token]) -> Result<(Label, &[Token]), ParseFault>
    requires text { IsText tokens.now }
    ensures gives { Yields LabelAt anything Any tokens.now result }
    ensures rest { IfOk result (λ x. IsRest tokens.now x.1.now) }
{
    let (first, rest) = front(tokens);
    let name = name_of(alloc, first)?;
    Ok((
        Label {
            place: first.place,
            name,
        },
        rest,
    ))
}

/// The tokens behind a certain sign, or the fault where another token stands there.
pub fn expect(alloc: Global, tokens: &[Token], sign: u8) -> Result<&[Token], ParseFault>
    requires { IsText tokens.now }
    ensures gives { MatchResult result (λ rest. Takes sign tokens.now rest.now) (λ e. Lacks sign tokens.now e) }
    ensures rest { IfOk result (λ rest. IsRest tokens.now rest.now) }
{
    let (first, rest) = front(tokens);
    if !is_sign(first, sign) {
        return Err(refused(alloc, first));
    }
    Ok(rest)
}

/// The tokens behind the word `class`, or the fault where another token stands there.
pub fn expect_class(alloc: Global, tokens: &[Token]) -> Result<&[Token], ParseFault>
    requires { IsText tokens.now }
    ensures gives { MatchResult result (λ rest. TakesWord tokens.now rest.now) (λ e. LacksWord tokens.now e) }
    ensures rest { IfOk result (λ rest. IsRest tokens.now rest.now) }
{
    let (first, rest) = front(tokens);
    if kind_of(first) != Kind::Class {
        return Err(refused(alloc, first));
    }
    Ok(rest)
}

/// The tokens behind the word `public`, or all where another token stands first.
pub fn skip_public(tokens: &[Token]) -> &[Token]
    requires { IsText tokens.now }
    ensures skips { Skips k.Public tokens.now result.now }
    ensures rest { IsRest tokens.now result.now }
{
    let (first, rest) = front(tokens);
    if kind_of(first) == Kind::Public {
        return rest;
    }
    tokens
}

/// The tokens behind the word `abstract`, or all where another token stands first.
pub fn skip_abstract(tokens: &[Token]) -> &[Token]
    requires { IsText tokens.now }
    ensures skips { Skips k.Abstract tokens.now result.now }
    ensures rest { IsRest tokens.now result.now }
{
    let (first, rest) = front(tokens);
    if kind_of(first) == Kind::Abstract {
        return rest;
    }
    tokens
}
