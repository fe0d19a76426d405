//! Statements.

ghost use Rattle.std.specs.Prelude.{◌≡◌, ◌++◌, ◌∷◌, [], List, ℕ, OnOk, codes, map, option_map};
ghost use Rattle.jp_ast.specs.declared.token.Lexeme.TheVariants.{Word, Sign};
ghost use Rattle.jp_ast.specs.declared.sign.TheConstants as sign;
ghost use Rattle.jp_print.specs.Layout.{laid_out};
ghost use Rattle.jp_print.specs.Expressions.{maybe, type_tokens, expr_tokens, operand_tokens};
ghost use Rattle.jp_print.specs.Statements.{PrintedStmt, whole, bump_sign, all_tokens, block_tokens, initial_value, condition, else_branch, for_init, for_test, for_change, printed_stmt};

use crate::exprs::{put_expr, put_in_parens, put_operand, put_type};
use crate::tokens::{put_sign, put_word};
use jp_ast::{Expr, Stmt, StmtKind, sign};
use jp_pred::{Name, Ty};
use sqlite_items::Boxed;
use std::alloc::AllocError;

/// A statement.
#[cycle(stmts)]
pub(crate) fn put_stmt(out: &mut Vec<u8>, stmt: &Stmt) -> Result<(), AllocError>
    ensures { OnOk result (out.new.items ≡ out.old.items ++ laid_out (whole (printed_stmt stmt.now))) }
{
    put_inner(out, stmt)?;
    if is_ended(stmt) {
        put_sign(out, sign::SEMICOLON)?;
    }
    Ok(())
}

/// Whether the statement ends with a `;`.
#[tactic(auto, unfolding(crate::specs::Statements::printed_stmt))]
fn is_ended(stmt: &Stmt) -> bool
    ensures { result ≡ (printed_stmt stmt.now).is_ended }
{
    !matches!(
        &stmt.kind,
        StmtKind::Block(_) | StmtKind::If { .. } | StmtKind::While { .. } | StmtKind::For { .. }
    )
}

/// A statement without the `;` with which it may end.
#[cycle(stmts)]
#[tactic(auto, unfolding(crate::specs::Statements::printed_stmt))]
fn put_inner(out: &mut Vec<u8>, stmt: &Stmt) -> Result<(), AllocError>
    ensures { OnOk result (out.new.items ≡ out.old.items ++ laid_out (printed_stmt stmt.now).inner) }
{
    match &stmt.kind {
        StmtKind::Block(block) => put_block(out, block.as_slice()),
        StmtKind::Empty => Ok(()),
        StmtKind::Local { ty, name, value } => put_local(out, ty, name, value),
        StmtKind::If { test, yes, no } => {
            put_word(out, b"if")?;
            put_in_parens(out, test)?;
            put_stmt(out, yes.get())?;
            put_else(out, no)
        }
        StmtKind::While { test, body } => {
            put_word(out, b"while")?;
            put_in_parens(out, test)?;
            put_stmt(out, body.get())
        }
        StmtKind::For {
            init,
            test,
            change,
            body,
        } => {
            put_for_init(out, init)?;
            put_for_test(out, test)?;
            put_for_change(out, change)?;
            put_stmt(out, body.get())
        }
        StmtKind::Break => put_word(out, b"break"),
        StmtKind::Continue => put_word(out, b"continue"),
        StmtKind::Return(value) => put_return(out, value),
        StmtKind::Assign { left, sign, right } => put_assign(out, left, *sign, right),
        StmtKind::Bump { left, up } => put_bump(out, left, *up),
        StmtKind::Run(value) => put_operand(out, value),
    }
}

/// Statements in braces.
#[cycle(stmts)]
pub(crate) fn put_block(out: &mut Vec<u8>, block: &[Stmt]) -> Result<(), AllocError>
    ensures { OnOk result (out.new.items ≡ out.old.items ++ laid_out (block_tokens (map printed_stmt block.now))) }
{
    put_sign(out, sign::OPEN_BRACE)?;
    put_all(out, block)?;
    put_sign(out, sign::CLOSE_BRACE)
}

/// Statements one behind the other.
#[cycle(stmts)]
pub(crate) fn put_all(out: &mut Vec<u8>, block: &[Stmt]) -> Result<(), AllocError>
    ensures { OnOk result (out.new.items ≡ out.old.items ++ laid_out (all_tokens (map printed_stmt block.now))) }
{
    for stmt in block {
        put_stmt(out, stmt)?;
    }
    Ok(())
}

/// `else` and the branch behind it, where there is one.
#[cycle(stmts)]
fn put_else(out: &mut Vec<u8>, branch: &Option<Boxed<Stmt>>) -> Result<(), AllocError>
    ensures { OnOk result (out.new.items ≡ out.old.items ++ laid_out (maybe else_branch (option_map printed_stmt branch.now))) }
{
    match branch {
        Some(branch) => {
            put_word(out, b"else")?;
            put_stmt(out, branch.get())
        }
        None => Ok(()),
    }
}

/// `for (`, and what is done first.
#[cycle(stmts)]
fn put_for_init(out: &mut Vec<u8>, init: &Option<Boxed<Stmt>>) -> Result<(), AllocError>
    ensures { OnOk result (out.new.items ≡ out.old.items ++ laid_out (for_init (option_map printed_stmt init.now))) }
{
    put_word(out, b"for")?;
    put_sign(out, sign::OPEN_PAREN)?;
    match init {
        Some(init) => put_inner(out, init.get()),
        None => Ok(()),
    }
}

/// `;`, and the condition of a `for`.
fn put_for_test(out: &mut Vec<u8>, test: &Option<Expr>) -> Result<(), AllocError>
    ensures { OnOk result (out.new.items ≡ out.old.items ++ laid_out (for_test test.now)) }
{
    put_sign(out, sign::SEMICOLON)?;
    put_maybe_expr(out, test)
}

/// `;`, what is done behind each turn, and `)`.
#[cycle(stmts)]
fn put_for_change(out: &mut Vec<u8>, change: &Option<Boxed<Stmt>>) -> Result<(), AllocError>
    ensures { OnOk result (out.new.items ≡ out.old.items ++ laid_out (for_change (option_map printed_stmt change.now))) }
{
    put_sign(out, sign::SEMICOLON)?;
    if let Some(change) = change {
        put_inner(out, change.get())?;
    }
    put_sign(out, sign::CLOSE_PAREN)
}

/// The type and the name of a local, and the value that it begins with where there is one.
fn put_local(
    out: &mut Vec<u8>,
    ty: &Ty,
    name: &Name,
    value: &Option<Expr>,
) -> Result<(), AllocError>
    ensures { OnOk result (out.new.items ≡ out.old.items ++ laid_out (type_tokens ty.now ++ Word name.now ∷ maybe initial_value value.now)) }
{
    put_type(out, ty)?;
    put_word(out, name.bytes())?;
    match value {
        Some(value) => {
            put_sign(out, sign::ASSIGN)?;
            put_expr(out, value)
        }
        None => Ok(()),
    }
}

/// `return`, and the value where there is one.
fn put_return(out: &mut Vec<u8>, value: &Option<Expr>) -> Result<(), AllocError>
    ensures { OnOk result (out.new.items ≡ out.old.items ++ laid_out (Word (codes "return") ∷ maybe expr_tokens value.now)) }
{
    put_word(out, b"return")?;
    put_maybe_expr(out, value)
}

/// An expression, where there is one.
fn put_maybe_expr(out: &mut Vec<u8>, value: &Option<Expr>) -> Result<(), AllocError>
    ensures { OnOk result (out.new.items ≡ out.old.items ++ laid_out (maybe expr_tokens value.now)) }
{
    match value {
        Some(value) => put_expr(out, value),
        None => Ok(()),
    }
}

/// `left = right`, or with another sign.
fn put_assign(out: &mut Vec<u8>, left: &Expr, sign: u8, right: &Expr) -> Result<(), AllocError>
    ensures { OnOk result (out.new.items ≡ out.old.items ++ laid_out (operand_tokens left.now ++ Sign sign ∷ expr_tokens right.now)) }
{
    put_operand(out, left)?;
    put_sign(out, sign)?;
    put_expr(out, right)
}

/// `left++` or `left--`.
fn put_bump(out: &mut Vec<u8>, left: &Expr, up: bool) -> Result<(), AllocError>
    ensures { OnOk result (out.new.items ≡ out.old.items ++ laid_out (operand_tokens left.now ++ bump_sign up ∷ [])) }
{
    put_operand(out, left)?;
    put_sign(out, if up { sign::INCREMENT } else { sign::DECREMENT })
}
