//! Statements that print a number. Where a statement prints none, the place is that of its first node, in the order of
//! the text, that doesn't belong to `Io.print(LITERAL);`.

ghost use Rattle.std.specs.Prelude.{◌≡◌, ◌↔◌, ◌∷◌, [], IsTrue, MatchResult, codes};
ghost use Rattle.jp_ast.specs.declared.expr.Expr.{Expr};
ghost use Rattle.jp_ast.specs.declared.expr.ExprKind.TheVariants as expr;
ghost use Rattle.print_form.specs.declared.literal.Literal.{Literal};
ghost use Rattle.print_form.specs.Form.{IsNumber, IsWritten, IsLiteral, IsIo, IsCall, IsPrint};

use crate::Literal;
use jp_ast::{Expr, ExprKind, Place, Stmt, StmtKind, sign};
use sqlite_items::Boxed;

/// The literal that the statement prints.
pub(crate) fn printed_by(statement: &Stmt) -> Result<Literal, Place>
    ensures { MatchResult result (λ literal. IsPrint literal statement.now) (λ _. (literal : Literal) → IsPrint literal statement.now → ⊥) }
{
    match &statement.kind {
        StmtKind::Run(call) => printed_with(call),
        _ => Err(statement.place),
    }
}

/// The literal that the call prints.
fn printed_with(call: &Expr) -> Result<Literal, Place>
    ensures { MatchResult result (λ literal. IsCall literal call.now) (λ _. (literal : Literal) → IsCall literal call.now → ⊥) }
{
    let ExprKind::Call { object, name, args } = &call.kind else {
        return Err(call.place);
    };
    if is_io(object) && name.bytes() == b"print".as_slice() {
        lone_literal(call.place, args.as_slice())
    } else {
        Err(call.place)
    }
}

/// The literal that is the only argument of the call at the place.
fn lone_literal(call: Place, args: &[Expr]) -> Result<Literal, Place>
    ensures { MatchResult result (λ literal. (argument : Expr) × (args.now ≡ argument ∷ []) × IsLiteral literal argument)
        (λ _. (literal : Literal) (argument : Expr) → args.now ≡ argument ∷ [] → IsLiteral literal argument → ⊥) }
{
    let [argument, others @ ..] = args else {
        return Err(call);
    };
    let literal = literal_of(argument)?;
    match others.first() {
        Some(other) => Err(other.place),
        None => Ok(literal),
    }
}

/// Whether what is called on is the name `Io`.
fn is_io(object: &Option<Boxed<Expr>>) -> bool
    ensures { IsTrue result ↔ IsIo object.now }
{
    match object {
        Some(object) => is_named_io(object.get()),
        None => false,
    }
}

/// Whether the expression is the name `Io`.
fn is_named_io(object: &Expr) -> bool
    ensures { IsTrue result ↔ (object.now.kind ≡ expr.Var (codes "Io")) }
{
    match &object.kind {
        ExprKind::Var(name) => name.bytes() == b"Io".as_slice(),
        _ => false,
    }
}

/// The literal that the expression is, with digits of no greater value than they may have.
fn literal_of(argument: &Expr) -> Result<Literal, Place>
    ensures { MatchResult result (λ literal. IsLiteral literal argument.now) (λ _. (literal : Literal) → IsLiteral literal argument.now → ⊥) }
{
    let literal = written_by(argument)?;
    if literal.fits() {
        Ok(literal)
    } else {
        Err(argument.place)
    }
}

/// The literal that the expression is.
fn written_by(argument: &Expr) -> Result<Literal, Place>
    ensures { MatchResult result (λ literal. IsWritten literal argument.now) (λ _. (literal : Literal) → IsWritten literal argument.now → ⊥) }
{
    match &argument.kind {
        ExprKind::Number { value, hex } => Ok(Literal {
            negative: false,
            hex: *hex,
            size: *value,
        }),
        ExprKind::Unary { sign, right } if *sign == sign::MINUS => negated(right.get()),
        _ => Err(argument.place),
    }
}

/// The literal of a minus in front of the expression.
fn negated(digits: &Expr) -> Result<Literal, Place>
    ensures { MatchResult result (λ literal. IsTrue literal.negative × IsNumber literal digits.now) (λ _. (literal : Literal) → IsNumber literal digits.now → ⊥) }
{
    match &digits.kind {
        ExprKind::Number { value, hex } => Ok(Literal {
            negative: true,
            hex: *hex,
            size: *value,
        }),
        _ => Err(digits.place),
    }
}
