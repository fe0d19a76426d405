//! Guards.

ghost use Rattle.std.specs.Prelude.{◌≡◌, ◌++◌, ◌∷◌, List, ℕ, OnOk};
ghost use Rattle.jp_ast.specs.declared.token.Lexeme.TheVariants.{Sign};
ghost use Rattle.jp_print.specs.Layout.{laid_out};
ghost use Rattle.jp_print.specs.Expressions.{in_parens, maybe};
ghost use Rattle.jp_print.specs.Guards.{path_tokens, term_tokens, summand_at, sum_tokens, as_name, class_test, null_test, guard_part, printed_guard, guard_tokens};

use crate::exprs::put_dot_name;
use crate::tokens::{put_number, put_sign, put_truth, put_word};
use jp_ast::{GuardExpr, GuardKind, PathText, Summand, sign};
use jp_pred::Name;
use std::alloc::AllocError;

/// A guard that is part of no other.
#[cycle(guards)]
#[tactic(auto, unfolding(crate::specs::Guards::printed_guard))]
pub(crate) fn put_guard(out: &mut Vec<u8>, guard: &GuardExpr) -> Result<(), AllocError>
    ensures { OnOk result (out.new.items ≡ out.old.items ++ laid_out (guard_tokens guard.now)) }
{
    match &guard.kind {
        GuardKind::Truth(value) => put_truth(out, *value),
        GuardKind::Not(right) => {
            put_sign(out, sign::NOT)?;
            put_part(out, right.get())
        }
        GuardKind::And(left, right) => {
            put_part(out, left.get())?;
            put_sign(out, sign::AND)?;
            put_part(out, right.get())
        }
        GuardKind::Or(left, right) => {
            put_part(out, left.get())?;
            put_sign(out, sign::OR)?;
            put_part(out, right.get())
        }
        GuardKind::Is { path, class, alias } => {
            put_path(out, path)?;
            put_class_test(out, class, alias)
        }
        GuardKind::Alias { path, name } => {
            put_path(out, path)?;
            put_as_name(out, name)
        }
        GuardKind::NullTest { path, equal } => {
            put_path(out, path)?;
            put_null_test(out, *equal)
        }
        GuardKind::Flag(path) => put_path(out, path),
        GuardKind::Compare { left, sign, right } => {
            put_sum(out, left.as_slice())?;
            put_sign(out, *sign)?;
            put_sum(out, right.as_slice())
        }
    }
}

/// A guard as a part of another: in parentheses if it isn't an atom.
#[cycle(guards)]
fn put_part(out: &mut Vec<u8>, guard: &GuardExpr) -> Result<(), AllocError>
    ensures { OnOk result (out.new.items ≡ out.old.items ++ laid_out (guard_part (printed_guard guard.now))) }
{
    if is_atom(guard) {
        put_guard(out, guard)
    } else {
        put_in_parens(out, guard)
    }
}

/// A guard in parentheses.
#[cycle(guards)]
fn put_in_parens(out: &mut Vec<u8>, guard: &GuardExpr) -> Result<(), AllocError>
    ensures { OnOk result (out.new.items ≡ out.old.items ++ laid_out (in_parens (guard_tokens guard.now))) }
{
    put_sign(out, sign::OPEN_PAREN)?;
    put_guard(out, guard)?;
    put_sign(out, sign::CLOSE_PAREN)
}

/// Whether the guard is an atom.
#[tactic(auto, unfolding(crate::specs::Guards::printed_guard))]
fn is_atom(guard: &GuardExpr) -> bool
    ensures { result ≡ (printed_guard guard.now).atom }
{
    !matches!(
        &guard.kind,
        GuardKind::Not(_) | GuardKind::And(_, _) | GuardKind::Or(_, _)
    )
}

/// The root of a path, and each step behind a `.`.
fn put_path(out: &mut Vec<u8>, path: &PathText) -> Result<(), AllocError>
    ensures { OnOk result (out.new.items ≡ out.old.items ++ laid_out (path_tokens path.now)) }
{
    put_word(out, path.root.bytes())?;
    for step in path.steps.as_slice() {
        put_dot_name(out, step)?;
    }
    Ok(())
}

/// `@class`, and `as` and a name where there is one.
fn put_class_test(out: &mut Vec<u8>, class: &Name, alias: &Option<Name>) -> Result<(), AllocError>
    ensures { OnOk result (out.new.items ≡ out.old.items ++ laid_out (class_test class.now alias.now)) }
{
    put_sign(out, sign::AT)?;
    put_word(out, class.bytes())?;
    match alias {
        Some(name) => put_as_name(out, name),
        None => Ok(()),
    }
}

/// `as` and a name.
fn put_as_name(out: &mut Vec<u8>, name: &Name) -> Result<(), AllocError>
    ensures { OnOk result (out.new.items ≡ out.old.items ++ laid_out (as_name name.now)) }
{
    put_word(out, b"as")?;
    put_word(out, name.bytes())
}

/// `== null` or `!= null`.
fn put_null_test(out: &mut Vec<u8>, equal: bool) -> Result<(), AllocError>
    ensures { OnOk result (out.new.items ≡ out.old.items ++ laid_out (null_test equal)) }
{
    put_sign(out, if equal { sign::EQUAL } else { sign::NOT_EQUAL })?;
    put_word(out, b"null")
}

/// A sum, with a `-` or a `+` in front of each summand but a first one that isn't negative.
fn put_sum(out: &mut Vec<u8>, sum: &[Summand]) -> Result<(), AllocError>
    ensures { OnOk result (out.new.items ≡ out.old.items ++ laid_out (sum_tokens sum.now)) }
{
    for (place, summand) in sum.iter().enumerate() {
        put_summand(out, place, summand)?;
    }
    Ok(())
}

/// The summand at this place of a sum, with its sign.
fn put_summand(out: &mut Vec<u8>, place: usize, summand: &Summand) -> Result<(), AllocError>
    ensures { OnOk result (out.new.items ≡ out.old.items ++ laid_out (summand_at place summand.now)) }
{
    if summand.negative {
        put_sign(out, sign::MINUS)?;
    } else if place > 0 {
        put_sign(out, sign::PLUS)?;
    }
    put_term(out, summand)
}

/// A number, a path, or a number `*` a path.
fn put_term(out: &mut Vec<u8>, summand: &Summand) -> Result<(), AllocError>
    ensures { OnOk result (out.new.items ≡ out.old.items ++ laid_out (term_tokens summand.now.factor summand.now.path)) }
{
    match (summand.factor, &summand.path) {
        (Some((value, hex)), Some(path)) => {
            put_number(out, value, hex)?;
            put_sign(out, sign::TIMES)?;
            put_path(out, path)
        }
        (Some((value, hex)), None) => put_number(out, value, hex),
        (None, Some(path)) => put_path(out, path),
        (None, None) => Ok(()),
    }
}
