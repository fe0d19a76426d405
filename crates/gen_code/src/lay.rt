ghost use Rattle.std.specs.Prelude.{◌≡◌, ◌+◌, ◌<◌, true, length, OnOk};
ghost use Rattle.code_asm.specs.Held.{Extends};
ghost use Rattle.gen_code.specs.Compiled.{are_written, Lays, LaysMembers};

use crate::check::are_written;
use crate::{Body, BodyFault};
use class_form::Code;
use code_asm::{AsmFault, Pool, assemble, items_stand};

/// The code of lines that need so many places of the stack, and have so many locals. The constants that they name are
/// added to the pool; after a fault it may have got some of them. Where the lines are a member's, the code is the
/// member's: it has the member's open traces. `Unfit` comes before all others.
pub fn lay_out(pool: &mut Pool, body: &Body, need: usize, locals: u8) -> Result<Code, BodyFault>
    ensures kept { Extends pool.old pool.new }
    ensures few { OnOk result (1 + length pool.old < 65536 → 1 + length pool.new < 65536) }
    ensures laid { Lays body.now.labels body.now.lines.items pool.old pool.new need locals result }
    ensures members { LaysMembers body.now.labels body.now.lines.items pool.new need locals result }
{
    if are_written(body.lines.as_slice(), body.labels) {
        lay_written(pool, body, need, locals)
    } else {
        Err(BodyFault::Unfit)
    }
}

// The same, of lines that have opcodes and labels.
fn lay_written(pool: &mut Pool, body: &Body, need: usize, locals: u8) -> Result<Code, BodyFault>
    requires { are_written body.now.labels body.now.lines.items ≡ true }
    ensures kept { Extends pool.old pool.new }
    ensures few { OnOk result (1 + length pool.old < 65536 → 1 + length pool.new < 65536) }
    ensures laid { Lays body.now.labels body.now.lines.items pool.old pool.new need locals result }
    ensures members { LaysMembers body.now.labels body.now.lines.items pool.new need locals result }
{
    if need < 65_536 {
        lay_with_places(pool, body, need as u16, locals)
    } else {
        // So many places take as many bytes, so that this is `TooLong`.
        lay_with_places(pool, body, u16::MAX, locals)?;
        Err(BodyFault::Asm(AsmFault::OutOfMemory))
    }
}

fn lay_with_places(
    pool: &mut Pool,
    body: &Body,
    max_stack: u16,
    locals: u8,
) -> Result<Code, BodyFault>
    requires { are_written body.now.labels body.now.lines.items ≡ true }
    ensures kept { Extends pool.old pool.new }
    ensures few { OnOk result (1 + length pool.old < 65536 → 1 + length pool.new < 65536) }
    ensures laid { Lays body.now.labels body.now.lines.items pool.old pool.new max_stack locals result }
    ensures members { LaysMembers body.now.labels body.now.lines.items pool.new max_stack locals result }
{
    items_stand();
    let code = assemble(
        body.alloc,
        pool,
        body.lines.as_slice(),
        body.labels,
        max_stack,
        u16::from(locals),
    )?;
    Ok(code)
}
