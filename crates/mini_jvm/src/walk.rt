ghost use Rattle.std.specs.Prelude.{◌<◌, ◌≤◌, IfOk};
ghost use Rattle.jvm_quick.specs.Rows.{AreDecoded};
ghost use Rattle.jvm_quick.specs.Walks.{IsWalk};
ghost use Rattle.mini_jvm.specs.Steps.{as_turn};

use crate::step::{Step, no_row_at, one_step};
use jvm_link::Linked;
use jvm_quick::{Decoded, Quick, stretch_from};
use jvm_step::{Halt, State};
use std::alloc::{AllocError, Global};

// A step behind so many others that only go on.
#[derive(Clone, Copy)]
pub(crate) struct Walk<'a> {
    pub(crate) count: u64,
    pub(crate) step: Step<'a>,
}

// Runs instructions while they stay in their frame, and the next one, which are `limit` at most. The error is want of
// memory.
pub(crate) fn walk_on<'a>(
    alloc: Global,
    linked: &Linked<'a>,
    decoded: &Decoded,
    limit: u64,
    state: &mut State,
) -> Result<Walk<'a>, AllocError>
    requires some { 1 ≤ limit }
    requires decoded { AreDecoded linked.now decoded.now }
    ensures within { IfOk result (λ walk. walk.count < limit) }
    ensures walk { IfOk result (λ walk. IsWalk linked.now walk.count state.old (as_turn walk.step state.new)) }
{
    let stretch = stretch_from(decoded, limit, state);
    let count = stretch.count;
    match stretch.end {
        Quick::Moved => Ok(Walk {
            count: count - 1,
            step: Step::Move,
        }),
        Quick::Trapped(kind) => Ok(Walk {
            count,
            step: Step::Stop(Halt::Trapped(kind)),
        }),
        Quick::NoRow => Ok(Walk {
            count,
            step: no_row_at(state),
        }),
        Quick::Other => {
            let step = one_step(alloc, linked, state)?;
            Ok(Walk { count, step })
        }
    }
}
