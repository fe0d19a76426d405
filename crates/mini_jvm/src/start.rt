ghost use Rattle.std.specs.Prelude.{◌≡◌, IfOk};
ghost use Rattle.jvm_step.specs.Run as run;

use jp_store::Heap;
use jvm_calls::enter_static;
use jvm_load::Program;
use jvm_step::{Callers, State, Statics};
use std::alloc::{AllocError, Global};

// The state before the first instruction: in the first `main` of the first file of the class, where it is static and has
// code.
pub(crate) fn start_main(
    alloc: Global,
    program: &Program,
    main: &[u8],
) -> Result<Option<State>, AllocError>
    ensures { IfOk result (λ state. state ≡ run.start program.now main.now) }
{
    let Some(class) = program.class(main) else {
        return Ok(None);
    };
    let Some(method) = program.own_method(class, b"main", b"()V") else {
        return Ok(None);
    };
    let Some(current) = enter_static(alloc, program, (class, method))? else {
        return Ok(None);
    };
    let statics = program.first_statics(alloc)?;
    Ok(Some(State {
        current,
        callers: Callers::new(alloc),
        heap: Heap::new(alloc),
        statics: Statics::new(statics),
    }))
}
