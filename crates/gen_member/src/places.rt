ghost use Rattle.std.specs.Prelude.{◌+◌, ◌∷◌, ◌++◌, max, IfOk, OnOk};
ghost use Rattle.std.specs.Option.{option_map};
ghost use Rattle.jvm_table.specs.declared.instr.Instr.TheVariants.{Binary};
ghost use Rattle.code_asm.specs.Items.{Plain};
ghost use Rattle.gen_body.specs.Statements.{parts_of, copy_parts, get_place, put_place, bump_place, bump};
ghost use Rattle.gen_code.specs.Emitted.{code_of, shape_of, change_as};
ghost use Rattle.gen_parts.specs.Emits.{Puts, Adds, Ends, chained, value_step};
ghost use Rattle.gen_member.specs.Blocks.{spot_part, assigned_part, becomes_part, changed_part};

use gen_code::{Body, Change, above, code_has_its_shape, greater, parts_of};
use gen_expr::put_value;
use jp_meaning::{TypedExpr, TypedKind};
use jp_store::BinaryOp;
use jvm_table::Instr;
use std::alloc::AllocError;

/// A new value of a variable, a field or an element.
pub(crate) fn put_assign(
    code: &mut Body,
    left: &TypedExpr,
    change: Option<Change>,
    right: &TypedExpr,
) -> Result<usize, AllocError>
    ensures { IfOk result (λ places. Puts code.old code.new places (assigned_part (option_map change_as change) left.now right.now code.old.labels)) }
{
    code_has_its_shape();
    match change {
        None => Ok(0),
        Some(change) => match change {
            Change::Becomes => put_becomes(code, left, right),
            Change::Changes(op) => put_changed(code, left, op, right),
        },
    }
}

/// A value that is one more or less.
pub(crate) fn put_bump(code: &mut Body, left: &TypedExpr, up: bool) -> Result<usize, AllocError>
    ensures { IfOk result (λ places. Puts code.old code.new places (bump up (code_of left.now) code.old.labels 0 0)) }
{
    code_has_its_shape();
    let first = put_spot(code, left)?;
    end_bump(code, left, up, first)
}

fn put_becomes(code: &mut Body, left: &TypedExpr, right: &TypedExpr) -> Result<usize, AllocError>
    ensures { IfOk result (λ places. Puts code.old code.new places (chained (spot_part left.now code.old.labels) (becomes_part left.now right.now))) }
{
    let first = put_spot(code, left)?;
    let value = put_value(code, right)?;
    end_becomes(code, left, first, value)
}

// The old value is read before the right side.
fn put_changed(
    code: &mut Body,
    left: &TypedExpr,
    op: BinaryOp,
    right: &TypedExpr,
) -> Result<usize, AllocError>
    ensures { IfOk result (λ places. Puts code.old code.new places (chained (spot_part left.now code.old.labels) (changed_part op left.now right.now))) }
{
    let first = put_spot(code, left)?;
    begin_change(code, left)?;
    let second = put_value(code, right)?;
    end_change(code, left, op, first, second)
}

// Pushes the parts of what is assigned to.
fn put_spot(code: &mut Body, left: &TypedExpr) -> Result<usize, AllocError>
    ensures { IfOk result (λ places. Puts code.old code.new places (spot_part left.now code.old.labels)) }
{
    match &left.kind {
        TypedKind::Field {
            object,
            class: _,
            name: _,
        } => put_value(code, object.get()),
        TypedKind::Index { array, index } => {
            let first = put_value(code, array.get())?;
            let second = put_value(code, index.get())?;
            Ok(greater(first, above(1, second)?))
        }
        _ => Ok(0),
    }
}

fn end_becomes(
    code: &mut Body,
    left: &TypedExpr,
    first: usize,
    value: usize,
) -> Result<usize, AllocError>
    ensures { IfOk result (λ places. Ends code.old code.new (put_place (shape_of left.now).place) places (max first (parts_of (shape_of left.now).place + value))) }
{
    code.put_place(left)?;
    Ok(greater(first, above(parts_of(left), value)?))
}

// Pushes the parts of a place once more, and then its value.
fn begin_change(code: &mut Body, left: &TypedExpr) -> Result<(), AllocError>
    ensures { OnOk result (Adds code.old code.new (copy_parts (shape_of left.now).place ++ get_place (shape_of left.now).place)) }
{
    code.copy_parts(left)?;
    code.get_place(left)
}

fn end_change(
    code: &mut Body,
    left: &TypedExpr,
    op: BinaryOp,
    first: usize,
    value: usize,
) -> Result<usize, AllocError>
    ensures { IfOk result (λ places. Ends code.old code.new (Plain (Binary op) ∷ put_place (shape_of left.now).place) places (max first (parts_of (shape_of left.now).place + (parts_of (shape_of left.now).place + (1 + value))))) }
{
    code.plain(Instr::Binary(op))?;
    code.put_place(left)?;
    let parts = parts_of(left);
    Ok(greater(first, above(parts, above(parts, above(1, value)?)?)?))
}

fn end_bump(code: &mut Body, left: &TypedExpr, up: bool, first: usize) -> Result<usize, AllocError>
    ensures { IfOk result (λ places. Ends code.old code.new (bump_place up (shape_of left.now).place) places (max first (parts_of (shape_of left.now).place + (parts_of (shape_of left.now).place + 2)))) }
{
    code.bump_place(up, left)?;
    let parts = parts_of(left);
    Ok(greater(first, above(parts, above(parts, 2)?)?))
}
