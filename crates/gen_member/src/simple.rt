ghost use Rattle.std.specs.Prelude.{◌∷◌, [], Some, None, IfOk};
ghost use Rattle.jvm_table.specs.declared.instr.Instr.TheVariants.{Store};
ghost use Rattle.code_asm.specs.Items.{Plain};
ghost use Rattle.gen_parts.specs.Emits.{Puts, Ends};
ghost use Rattle.gen_member.specs.Blocks.{jump_part, declared_part, return_items, return_part, true_test_part, loop_test_part};

use gen_code::{Body, jump_where, kind_of_type};
use gen_expr::{put_test, put_value};
use jp_meaning::TypedExpr;
use jp_store::Kind;
use jvm_table::{Instr, Jump};
use std::alloc::AllocError;

// Statements that hold no others.

/// Goes to a label.
pub(crate) fn put_jump(code: &mut Body, to: usize) -> Result<usize, AllocError>
    ensures { IfOk result (λ places. Puts code.old code.new places (jump_part to code.old.labels)) }
{
    code.branch(Jump::Always, to)?;
    Ok(0)
}

/// A declared local of a kind, with its value or with what a variable of that kind starts with.
pub(crate) fn put_declared(
    code: &mut Body,
    kind: Option<Kind>,
    slot: u8,
    value: &Option<TypedExpr>,
) -> Result<usize, AllocError>
    ensures { IfOk result (λ places. Puts code.old code.new places (declared_part kind slot value.now code.old.labels)) }
{
    match kind {
        None => Ok(0),
        Some(kind) => put_started(code, kind, slot, value),
    }
}

fn put_started(
    code: &mut Body,
    kind: Kind,
    slot: u8,
    value: &Option<TypedExpr>,
) -> Result<usize, AllocError>
    ensures { IfOk result (λ places. Puts code.old code.new places (declared_part (Some kind) slot value.now code.old.labels)) }
{
    match value {
        None => put_default(code, kind, slot),
        Some(value) => {
            let need = put_value(code, value)?;
            end_store(code, kind, slot, need)
        }
    }
}

fn put_default(code: &mut Body, kind: Kind, slot: u8) -> Result<usize, AllocError>
    ensures { IfOk result (λ places. Puts code.old code.new places (declared_part (Some kind) slot None code.old.labels)) }
{
    code.push_default(kind)?;
    code.plain(Instr::Store(kind, u16::from(slot)))?;
    Ok(1)
}

fn end_store(code: &mut Body, kind: Kind, slot: u8, need: usize) -> Result<usize, AllocError>
    ensures { IfOk result (λ places. Ends code.old code.new (Plain (Store kind slot) ∷ []) places need) }
{
    code.plain(Instr::Store(kind, u16::from(slot)))?;
    Ok(need)
}

/// Leaves a member, with a value or without one.
pub(crate) fn put_return(code: &mut Body, value: &Option<TypedExpr>) -> Result<usize, AllocError>
    ensures { IfOk result (λ places. Puts code.old code.new places (return_part value.now code.old.labels)) }
{
    match value {
        None => {
            code.plain(Instr::ReturnVoid)?;
            Ok(0)
        }
        Some(value) => {
            let need = put_value(code, value)?;
            end_return(code, kind_of_type(&value.ty), need)
        }
    }
}

fn end_return(code: &mut Body, kind: Option<Kind>, need: usize) -> Result<usize, AllocError>
    ensures { IfOk result (λ places. Ends code.old code.new (return_items kind) places need) }
{
    match kind {
        None => Ok(need),
        Some(kind) => {
            code.plain(Instr::ReturnValue(kind))?;
            Ok(need)
        }
    }
}

/// The test of a loop, which is true where it is left out; it goes to a label where it is false.
pub(crate) fn put_loop_test(
    code: &mut Body,
    test: &Option<TypedExpr>,
    to: usize,
) -> Result<usize, AllocError>
    ensures { IfOk result (λ places. Puts code.old code.new places (loop_test_part test.now to code.old.labels)) }
{
    match test {
        None => put_true_test(code, to),
        Some(test) => put_test(code, test, false, to),
    }
}

fn put_true_test(code: &mut Body, to: usize) -> Result<usize, AllocError>
    ensures { IfOk result (λ places. Puts code.old code.new places (true_test_part to code.old.labels)) }
{
    code.plain(Instr::PushInt(1))?;
    code.branch(jump_where(false), to)?;
    Ok(1)
}
