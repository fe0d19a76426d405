ghost use Rattle.std.specs.Prelude.{◌≡◌, max, IfOk, MatchResult, Some};
ghost use Rattle.jp_grammar.specs.declared.fault.ParseFault.TheVariants.{OutOfMemory};
ghost use Rattle.jp_grammar.specs.Kinds.{kind_of_token};
ghost use Rattle.jp_grammar.specs.Reading.{IsText, IsRest, Takes, Lacks};
ghost use Rattle.jp_parse_expr.specs.Literals.{literal_of, constant_at, node_at, RefusedAs};

use jp_ast::{Expr, ExprKind, Lexeme, Place, Token};
use jp_grammar::{Kind, ParseFault, front, is_sign, kind_of, refused};
use sqlite_items::Boxed;
use std::alloc::Global;

/// The tokens behind a certain sign, or the fault where another token stands there.
pub fn expect(alloc: Global, tokens: &[Token], sign: u8) -> Result<&[Token], ParseFault>
    requires { IsText tokens.now }
    ensures gives { MatchResult result (λ rest. Takes sign tokens.now rest.now) (λ e. Lacks sign tokens.now e) }
    ensures rest { IfOk result (λ rest. IsRest tokens.now rest.now) }
{
    let (first, rest) = front(tokens);
    if !is_sign(first, sign) {
        return Err(refused(alloc, first));
    }
    Ok(rest)
}

/// The greater of two depths.
pub fn deeper(first: u8, second: u8) -> u8
    ensures { result ≡ max first second }
{
    if first < second { second } else { first }
}

/// A node of a tree.
pub fn node(alloc: Global, place: Place, kind: ExprKind) -> Result<Boxed<Expr>, ParseFault>
    ensures { MatchResult result (λ t. t ≡ node_at place kind) (λ e. e ≡ OutOfMemory) }
{
    Ok(Boxed::new(alloc, Expr { place, kind })?)
}

/// The expression that the token is by itself, or the fault at it where it is none: a number, a text, `true`,
/// `false`, `null` or `this`.
pub fn literal(alloc: Global, token: &Token) -> Result<Boxed<Expr>, ParseFault>
    ensures { MatchResult result (λ t. literal_of token.now ≡ Some t) (λ e. RefusedAs (literal_of token.now) token.now e) }
{
    let kind = match &token.lexeme {
        Lexeme::Number { value, hex } => ExprKind::Number {
            value: *value,
            hex: *hex,
        },
        Lexeme::Text(text) => ExprKind::Text(text.copy(alloc)?),
        _ => return constant(alloc, token),
    };
    node(alloc, token.place, kind)
}

/// The expression that the token is by itself, or the fault at it where it is none: `true`, `false`, `null` or `this`.
fn constant(alloc: Global, token: &Token) -> Result<Boxed<Expr>, ParseFault>
    ensures { MatchResult result (λ t. constant_at token.now.place (kind_of_token token.now) ≡ Some t) (λ e. RefusedAs (constant_at token.now.place (kind_of_token token.now)) token.now e) }
{
    let kind = match kind_of(token) {
        Kind::True => ExprKind::Truth(true),
        Kind::False => ExprKind::Truth(false),
        Kind::Null => ExprKind::Null,
        Kind::This => ExprKind::This,
        _ => return Err(refused(alloc, token)),
    };
    node(alloc, token.place, kind)
}
