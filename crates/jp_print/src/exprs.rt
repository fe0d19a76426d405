//! Types and expressions.

ghost use Rattle.std.specs.Prelude.{◌≡◌, ◌++◌, ◌∷◌, [], List, ℕ, Bool, OnOk, codes, map, option_map};
ghost use Rattle.jp_ast.specs.declared.token.Lexeme.TheVariants.{Word, Sign};
ghost use Rattle.jp_ast.specs.declared.sign.TheConstants as sign;
ghost use Rattle.jp_print.specs.Layout.{laid_out};
ghost use Rattle.jp_print.specs.Expressions.{Printed, maybe, in_parens, in_brackets, comma_at, listed, type_tokens, dot_name, instance_of, arguments, receiver, array, printed_expr, expr_tokens, operand_tokens};

use crate::tokens::{put_number, put_sign, put_text, put_truth, put_word};
use jp_ast::{Expr, ExprKind, sign};
use jp_pred::{Name, Ty};
use sqlite_items::Boxed;
use std::alloc::AllocError;

/// The name of a type, with `[` and `]` behind that of an array's elements.
pub(crate) fn put_type(out: &mut Vec<u8>, ty: &Ty) -> Result<(), AllocError>
    ensures { OnOk result (out.new.items ≡ out.old.items ++ laid_out (type_tokens ty.now)) }
{
    match ty {
        Ty::Void => put_word(out, b"void"),
        Ty::Int => put_word(out, b"int"),
        Ty::Boolean => put_word(out, b"boolean"),
        Ty::Class(class) => put_word(out, class.bytes()),
        Ty::IntArray => put_array_type(out, b"int"),
        Ty::BooleanArray => put_array_type(out, b"boolean"),
        Ty::ClassArray(class) => put_array_type(out, class.bytes()),
    }
}

/// The type of an array of elements with this name.
fn put_array_type(out: &mut Vec<u8>, element: &[u8]) -> Result<(), AllocError>
    ensures { OnOk result (out.new.items ≡ out.old.items ++ laid_out (Word element.now ∷ Sign sign.OPEN_BRACKET ∷ Sign sign.CLOSE_BRACKET ∷ [])) }
{
    put_word(out, element)?;
    put_sign(out, sign::OPEN_BRACKET)?;
    put_sign(out, sign::CLOSE_BRACKET)
}

/// An expression that is part of no other.
#[cycle(exprs)]
#[tactic(auto, unfolding(crate::specs::Expressions::printed_expr))]
pub(crate) fn put_expr(out: &mut Vec<u8>, expr: &Expr) -> Result<(), AllocError>
    ensures { OnOk result (out.new.items ≡ out.old.items ++ laid_out (expr_tokens expr.now)) }
{
    match &expr.kind {
        ExprKind::Number { value, hex } => put_number(out, *value, *hex),
        ExprKind::Truth(value) => put_truth(out, *value),
        ExprKind::Null => put_word(out, b"null"),
        ExprKind::Text(text) => put_text(out, text.bytes()),
        ExprKind::This => put_word(out, b"this"),
        ExprKind::Var(name) => put_word(out, name.bytes()),
        ExprKind::Unary { sign, right } => put_unary(out, *sign, right.get()),
        ExprKind::Binary { sign, left, right } => {
            put_operand(out, left.get())?;
            put_sign(out, *sign)?;
            put_operand(out, right.get())
        }
        ExprKind::Cond { test, yes, no } => {
            put_operand(out, test.get())?;
            put_sign(out, sign::QUESTION)?;
            put_operand(out, yes.get())?;
            put_sign(out, sign::COLON)?;
            put_operand(out, no.get())
        }
        ExprKind::Cast { class, value } => put_cast(out, class, value.get()),
        ExprKind::InstanceOf { value, class } => {
            put_operand(out, value.get())?;
            put_instance_of(out, class)
        }
        ExprKind::Field { object, name } => put_field(out, object.get(), name),
        ExprKind::Index { array, index } => {
            put_array(out, array.get())?;
            put_bracketed(out, index.get())
        }
        ExprKind::Call { object, name, args } => {
            put_receiver(out, object)?;
            put_called(out, name, args.as_slice())
        }
        ExprKind::SuperCall { name, args } => put_super_call(out, name, args.as_slice()),
        ExprKind::New { class, args } => put_new(out, class, args.as_slice()),
        ExprKind::NewArray { elem, size } => put_new_array(out, elem, size.get()),
    }
}

/// `sign right`
#[cycle(exprs)]
fn put_unary(out: &mut Vec<u8>, sign: u8, right: &Expr) -> Result<(), AllocError>
    ensures { OnOk result (out.new.items ≡ out.old.items ++ laid_out (Sign sign ∷ operand_tokens right.now)) }
{
    put_sign(out, sign)?;
    put_operand(out, right)
}

/// `(class) value`
#[cycle(exprs)]
fn put_cast(out: &mut Vec<u8>, class: &Name, value: &Expr) -> Result<(), AllocError>
    ensures { OnOk result (out.new.items ≡ out.old.items ++ laid_out (in_parens (Word class.now ∷ []) ++ operand_tokens value.now)) }
{
    put_sign(out, sign::OPEN_PAREN)?;
    put_word(out, class.bytes())?;
    put_sign(out, sign::CLOSE_PAREN)?;
    put_operand(out, value)
}

/// `object.name`
#[cycle(exprs)]
fn put_field(out: &mut Vec<u8>, object: &Expr, name: &Name) -> Result<(), AllocError>
    ensures { OnOk result (out.new.items ≡ out.old.items ++ laid_out (operand_tokens object.now ++ dot_name name.now)) }
{
    put_operand(out, object)?;
    put_dot_name(out, name)
}

/// `name(args)`
#[cycle(exprs)]
fn put_called(out: &mut Vec<u8>, name: &Name, args: &[Expr]) -> Result<(), AllocError>
    ensures { OnOk result (out.new.items ≡ out.old.items ++ laid_out (Word name.now ∷ arguments (map printed_expr args.now))) }
{
    put_word(out, name.bytes())?;
    put_args(out, args)
}

/// `super.name(args)`
#[cycle(exprs)]
fn put_super_call(out: &mut Vec<u8>, name: &Name, args: &[Expr]) -> Result<(), AllocError>
    ensures { OnOk result (out.new.items ≡ out.old.items ++ laid_out (Word (codes "super") ∷ dot_name name.now ++ arguments (map printed_expr args.now))) }
{
    put_word(out, b"super")?;
    put_dot_name(out, name)?;
    put_args(out, args)
}

/// `new class(args)`
#[cycle(exprs)]
fn put_new(out: &mut Vec<u8>, class: &Name, args: &[Expr]) -> Result<(), AllocError>
    ensures { OnOk result (out.new.items ≡ out.old.items ++ laid_out (Word (codes "new") ∷ Word class.now ∷ arguments (map printed_expr args.now))) }
{
    put_word(out, b"new")?;
    put_word(out, class.bytes())?;
    put_args(out, args)
}

/// `new elem[size]`
#[cycle(exprs)]
fn put_new_array(out: &mut Vec<u8>, elem: &Ty, size: &Expr) -> Result<(), AllocError>
    ensures { OnOk result (out.new.items ≡ out.old.items ++ laid_out (Word (codes "new") ∷ type_tokens elem.now ++ in_brackets (expr_tokens size.now))) }
{
    put_word(out, b"new")?;
    put_type(out, elem)?;
    put_bracketed(out, size)
}

/// An expression as an operand, as what stands in front of `.`, as what is changed, or as a statement: in parentheses
/// if it isn't a primary or a postfix form.
#[cycle(exprs)]
pub(crate) fn put_operand(out: &mut Vec<u8>, expr: &Expr) -> Result<(), AllocError>
    ensures { OnOk result (out.new.items ≡ out.old.items ++ laid_out (operand_tokens expr.now)) }
{
    if is_alone(expr) {
        put_expr(out, expr)
    } else {
        put_in_parens(out, expr)
    }
}

/// An expression directly in front of `[`: a created array stands in parentheses there too.
#[cycle(exprs)]
fn put_array(out: &mut Vec<u8>, expr: &Expr) -> Result<(), AllocError>
    ensures { OnOk result (out.new.items ≡ out.old.items ++ laid_out (array (printed_expr expr.now))) }
{
    if is_alone(expr) && !creates(expr) {
        put_expr(out, expr)
    } else {
        put_in_parens(out, expr)
    }
}

/// An expression in parentheses.
#[cycle(exprs)]
pub(crate) fn put_in_parens(out: &mut Vec<u8>, expr: &Expr) -> Result<(), AllocError>
    ensures { OnOk result (out.new.items ≡ out.old.items ++ laid_out (in_parens (expr_tokens expr.now))) }
{
    put_sign(out, sign::OPEN_PAREN)?;
    put_expr(out, expr)?;
    put_sign(out, sign::CLOSE_PAREN)
}

/// An expression in brackets.
#[cycle(exprs)]
fn put_bracketed(out: &mut Vec<u8>, expr: &Expr) -> Result<(), AllocError>
    ensures { OnOk result (out.new.items ≡ out.old.items ++ laid_out (in_brackets (expr_tokens expr.now))) }
{
    put_sign(out, sign::OPEN_BRACKET)?;
    put_expr(out, expr)?;
    put_sign(out, sign::CLOSE_BRACKET)
}

/// The object of a call and the `.` behind it, where there is one.
#[cycle(exprs)]
fn put_receiver(out: &mut Vec<u8>, object: &Option<Boxed<Expr>>) -> Result<(), AllocError>
    ensures { OnOk result (out.new.items ≡ out.old.items ++ laid_out (maybe receiver (option_map printed_expr object.now))) }
{
    match object {
        Some(object) => {
            put_operand(out, object.get())?;
            put_sign(out, sign::DOT)
        }
        None => Ok(()),
    }
}

/// Arguments in parentheses, with a comma between two.
#[cycle(exprs)]
pub(crate) fn put_args(out: &mut Vec<u8>, args: &[Expr]) -> Result<(), AllocError>
    ensures { OnOk result (out.new.items ≡ out.old.items ++ laid_out (arguments (map printed_expr args.now))) }
{
    put_sign(out, sign::OPEN_PAREN)?;
    put_each_arg(out, args)?;
    put_sign(out, sign::CLOSE_PAREN)
}

/// Arguments, with a comma between two.
#[cycle(exprs)]
fn put_each_arg(out: &mut Vec<u8>, args: &[Expr]) -> Result<(), AllocError>
    ensures { OnOk result (out.new.items ≡ out.old.items ++ laid_out (listed (map printed_expr args.now))) }
{
    for (place, arg) in args.iter().enumerate() {
        put_comma(out, place)?;
        put_expr(out, arg)?;
    }
    Ok(())
}

/// A comma, in front of the part of a list at this place, but not of the first.
pub(crate) fn put_comma(out: &mut Vec<u8>, place: usize) -> Result<(), AllocError>
    ensures { OnOk result (out.new.items ≡ out.old.items ++ laid_out (comma_at place)) }
{
    if place == 0 {
        return Ok(());
    }
    put_sign(out, sign::COMMA)
}

/// `.` and a name.
pub(crate) fn put_dot_name(out: &mut Vec<u8>, name: &Name) -> Result<(), AllocError>
    ensures { OnOk result (out.new.items ≡ out.old.items ++ laid_out (dot_name name.now)) }
{
    put_sign(out, sign::DOT)?;
    put_word(out, name.bytes())
}

/// `instanceof` and a name.
fn put_instance_of(out: &mut Vec<u8>, class: &Name) -> Result<(), AllocError>
    ensures { OnOk result (out.new.items ≡ out.old.items ++ laid_out (instance_of class.now)) }
{
    put_word(out, b"instanceof")?;
    put_word(out, class.bytes())
}

/// Whether the expression is a primary or a postfix form.
#[tactic(auto, unfolding(crate::specs::Expressions::printed_expr))]
fn is_alone(expr: &Expr) -> bool
    ensures { result ≡ (printed_expr expr.now).alone }
{
    !matches!(
        &expr.kind,
        ExprKind::Unary { .. }
            | ExprKind::Binary { .. }
            | ExprKind::Cond { .. }
            | ExprKind::Cast { .. }
            | ExprKind::InstanceOf { .. }
    )
}

/// Whether the expression creates an array.
#[tactic(auto, unfolding(crate::specs::Expressions::printed_expr))]
fn creates(expr: &Expr) -> bool
    ensures { result ≡ (printed_expr expr.now).creates }
{
    matches!(&expr.kind, ExprKind::NewArray { .. })
}
