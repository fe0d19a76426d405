ghost use Rattle.std.specs.Prelude.{◌≡◌, ◌+◌, ◌<◌, ◌^◌, ◌∷◌, [], max, IfOk};
ghost use Rattle.jvm_table.specs.declared.instr.Jump.TheVariants.{Always};
ghost use Rattle.code_asm.specs.Items.{Branch, Mark};
ghost use Rattle.gen_parts.specs.Emits.{Puts, Ends};
ghost use Rattle.gen_member.specs.Blocks.{stmt_part, block_part, maybe_part, else_part, body_part, round_part};

use crate::places::{put_assign, put_bump};
use crate::simple::{put_declared, put_jump, put_loop_test, put_return};
use gen_code::{Body, change_of, greater, kind_of_type};
use gen_expr::{put_done, put_test};
use gen_parts::{end_choice, put_between};
use jp_meaning::{TypedStmt, TypedStmtKind};
use jvm_table::Jump;
use sqlite_items::Boxed;
use std::alloc::AllocError;

/// The labels where `break` and `continue` go.
#[derive(Clone, Copy)]
pub(crate) struct Exits {
    pub out: usize,
    pub back: usize,
}

/// Does a statement, and answers how many places of the stack that takes at most.
#[cycle(stmt)]
pub(crate) fn put_stmt(code: &mut Body, s: &TypedStmt, exits: Exits) -> Result<usize, AllocError>
    ensures { IfOk result (λ places. Puts code.old code.new places (stmt_part s.now exits.out exits.back code.old.labels)) }
{
    match &s.kind {
        TypedStmtKind::Block(block) => put_block(code, block.as_slice(), exits),
        TypedStmtKind::Empty => Ok(0),
        TypedStmtKind::Local { slot, ty, value } => {
            put_declared(code, kind_of_type(ty), *slot, value)
        }
        TypedStmtKind::If { test, yes, no } => {
            let label = code.new_labels(2)?;
            let tested = put_test(code, test, false, label)?;
            let first = put_stmt(code, yes.get(), exits)?;
            put_else(code, no, exits, label, tested, first)
        }
        TypedStmtKind::While { test, body } => {
            let label = code.new_labels(3)?;
            code.mark(label)?;
            let tested = put_test(code, test, false, label + 1)?;
            put_body(code, body.get(), label, tested)
        }
        TypedStmtKind::For {
            init,
            test,
            change,
            body,
        } => {
            let before = put_maybe(code, init, exits)?;
            let label = code.new_labels(3)?;
            code.mark(label)?;
            let tested = put_loop_test(code, test, label + 1)?;
            let inside = put_stmt(code, body.get(), exits_of(label))?;
            put_round(code, change, exits, label, before, tested, inside)
        }
        TypedStmtKind::Break => put_jump(code, exits.out),
        TypedStmtKind::Continue => put_jump(code, exits.back),
        TypedStmtKind::Return(value) => put_return(code, value),
        TypedStmtKind::Assign { left, sign, right } => {
            put_assign(code, left, change_of(*sign), right)
        }
        TypedStmtKind::Bump { left, up } => put_bump(code, left, *up),
        TypedStmtKind::Run(value) => put_done(code, value),
    }
}

/// Does statements, one after the other.
#[cycle(stmt)]
pub(crate) fn put_block(
    code: &mut Body,
    block: &[TypedStmt],
    exits: Exits,
) -> Result<usize, AllocError>
    ensures { IfOk result (λ places. Puts code.old code.new places (block_part block.now exits.out exits.back code.old.labels)) }
{
    let mut need = 0;
    for one in block {
        let more = put_stmt(code, one, exits)?;
        need = greater(need, more);
    }
    Ok(need)
}

// A statement that may be left out.
#[cycle(stmt)]
fn put_maybe(
    code: &mut Body,
    s: &Option<Boxed<TypedStmt>>,
    exits: Exits,
) -> Result<usize, AllocError>
    ensures { IfOk result (λ places. Puts code.old code.new places (maybe_part s.now exits.out exits.back code.old.labels)) }
{
    match s {
        None => Ok(0),
        Some(s) => put_stmt(code, s.get(), exits),
    }
}

// What is done where the test of an `if` is false, behind what is done where it is true.
#[cycle(stmt)]
fn put_else(
    code: &mut Body,
    s: &Option<Boxed<TypedStmt>>,
    exits: Exits,
    label: usize,
    tested: usize,
    first: usize,
) -> Result<usize, AllocError>
    requires { label + 1 < 2 ^ 64 }
    ensures { IfOk result (λ places. Puts code.old code.new places (else_part s.now exits.out exits.back label tested first code.old.labels)) }
{
    match s {
        None => end_only(code, label, tested, first),
        Some(s) => {
            put_between(code, label)?;
            let second = put_stmt(code, s.get(), exits)?;
            end_choice(code, label, tested, first, second)
        }
    }
}

// The body of a `while`, behind its test, and a jump back.
#[cycle(stmt)]
fn put_body(
    code: &mut Body,
    body: &TypedStmt,
    label: usize,
    tested: usize,
) -> Result<usize, AllocError>
    requires { label + 2 < 2 ^ 64 }
    ensures { IfOk result (λ places. Puts code.old code.new places (body_part body.now label tested code.old.labels)) }
{
    let inside = put_stmt(code, body, exits_of(label))?;
    end_while(code, label, tested, inside)
}

// The change of a `for`, behind its body, and a jump back.
#[cycle(stmt)]
fn put_round(
    code: &mut Body,
    change: &Option<Boxed<TypedStmt>>,
    exits: Exits,
    label: usize,
    before: usize,
    tested: usize,
    inside: usize,
) -> Result<usize, AllocError>
    requires { label + 2 < 2 ^ 64 }
    ensures { IfOk result (λ places. Puts code.old code.new places (round_part change.now exits.out exits.back label before tested inside code.old.labels)) }
{
    code.mark(label + 2)?;
    let changed = put_maybe(code, change, exits)?;
    end_round(code, label, before, tested, inside, changed)
}

// Where `break` and `continue` go in a loop with three labels from one on.
fn exits_of(label: usize) -> Exits
    requires { label + 2 < 2 ^ 64 }
    ensures out { result.out ≡ label + 1 }
    ensures back { result.back ≡ label + 2 }
{
    Exits {
        out: label + 1,
        back: label + 2,
    }
}

fn end_only(code: &mut Body, label: usize, tested: usize, first: usize) -> Result<usize, AllocError>
    ensures { IfOk result (λ places. Ends code.old code.new (Mark label ∷ []) places (max tested first)) }
{
    code.mark(label)?;
    Ok(greater(tested, first))
}

fn end_while(
    code: &mut Body,
    label: usize,
    tested: usize,
    inside: usize,
) -> Result<usize, AllocError>
    requires { label + 2 < 2 ^ 64 }
    ensures { IfOk result (λ places. Ends code.old code.new (Mark (label + 2) ∷ Branch Always label ∷ Mark (label + 1) ∷ []) places (max tested (max inside 0))) }
{
    code.mark(label + 2)?;
    code.branch(Jump::Always, label)?;
    code.mark(label + 1)?;
    Ok(greater(tested, inside))
}

fn end_round(
    code: &mut Body,
    label: usize,
    before: usize,
    tested: usize,
    inside: usize,
    changed: usize,
) -> Result<usize, AllocError>
    requires { label + 1 < 2 ^ 64 }
    ensures { IfOk result (λ places. Ends code.old code.new (Branch Always label ∷ Mark (label + 1) ∷ []) places (max before (max tested (max inside changed)))) }
{
    code.branch(Jump::Always, label)?;
    code.mark(label + 1)?;
    Ok(greater(before, greater(tested, greater(inside, changed))))
}
