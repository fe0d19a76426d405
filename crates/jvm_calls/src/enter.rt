ghost use Rattle.std.specs.Prelude.{◌≡◌, [], true, IfOk};
ghost use Rattle.std.specs.Option.{option_map};
ghost use Rattle.jvm_step.specs.Turn as turn;

use crate::args::{Args, place_args};
use class_form::{Code, MemberInfo};
use jvm_load::{Program, is_static_member};
use jvm_step::Running;
use jvm_table::{Frame, Stack};
use std::alloc::{AllocError, Global};

// The code of a method that is static as wanted.
fn code_where(is_static: bool, method: &MemberInfo) -> Option<&Code>
    ensures { option_map (λ code. code.now) result ≡ turn.code_where is_static method.now }
{
    if is_static == is_static_member(method) {
        method.code.as_ref()
    } else {
        None
    }
}

// The method at these positions with its arguments, if it can be called.
pub(crate) fn enter(
    alloc: Global,
    program: &Program,
    is_static: bool,
    args: Args,
    at: (u32, u32),
) -> Result<Option<Running>, AllocError>
    ensures { IfOk result (λ running. running ≡ turn.entry program.now is_static args at) }
{
    let Some(file) = program.file(at.0) else {
        return Ok(None);
    };
    let Some(method) = file.methods.get(at.1 as usize) else {
        return Ok(None);
    };
    let Some(code) = code_where(is_static, method) else {
        return Ok(None);
    };
    let Some(locals) = place_args(alloc, code.max_locals as usize, args)? else {
        return Ok(None);
    };
    let stack = Stack::new(alloc, code.max_stack as usize)?;
    Ok(Some(Running {
        file: at.0,
        method: at.1,
        frame: Frame {
            place: 0,
            locals,
            stack,
        },
    }))
}

/// A static method without arguments, by its file's position and its own, before its first instruction; `None` where
/// it isn't static or has no code. The error is want of memory.
pub fn enter_static(
    alloc: Global,
    program: &Program,
    at: (u32, u32),
) -> Result<Option<Running>, AllocError>
    ensures { IfOk result (λ running. running ≡ turn.entry program.now true [] at) }
{
    enter(alloc, program, true, Args::new(alloc), at)
}
