ghost use Rattle.std.specs.Prelude.{◌≡◌, ◌+◌, max, IfOk, OnOk};
ghost use Rattle.gen_body.specs.Codes.{local_codes};
ghost use Rattle.gen_parts.specs.Emits.{Adds, Puts, value_step, null_for, drop_for};

use gen_code::{Body, above, greater};
use jp_store::Kind;
use jvm_table::Instr;
use std::alloc::AllocError;

/// Pushes `null` where an expression has no value.
pub fn give_value(code: &mut Body, void: bool) -> Result<(), AllocError>
    ensures { OnOk result (Adds code.old code.new (null_for void)) }
{
    if void {
        code.plain(Instr::PushNull)
    } else {
        Ok(())
    }
}

/// Drops a value where an expression has one.
pub fn drop_value(code: &mut Body, void: bool) -> Result<(), AllocError>
    ensures { OnOk result (Adds code.old code.new (drop_for void)) }
{
    if void {
        Ok(())
    } else {
        code.plain(Instr::PopTop)
    }
}

/// Loads a local of a kind, if it has one.
pub fn put_local(code: &mut Body, kind: Option<Kind>, slot: u8) -> Result<usize, AllocError>
    ensures { IfOk result (λ places. Puts code.old code.new places (value_step (local_codes kind slot code.old.labels))) }
{
    match kind {
        None => Ok(0),
        Some(kind) => {
            code.plain(Instr::Load(kind, u16::from(slot)))?;
            Ok(1)
        }
    }
}

/// The places that one more value takes, above others.
pub fn row_need(need: usize, below: usize, more: usize) -> Result<usize, AllocError>
    ensures { IfOk result (λ places. places ≡ max (max need (below + more)) (below + 1)) }
{
    Ok(greater(greater(need, above(below, more)?), above(below, 1)?))
}
