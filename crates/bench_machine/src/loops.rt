ghost use Rattle.std.specs.Prelude.{◌<◌, ◌^◌, length, IfOk};

use crate::classes::{ADD, COUNT, COUNTER_CLASS, NEXT, PRINT, STEP_CLASS, STEP_INIT, TURNS};
use crate::opcodes::*;
use std::alloc::{AllocError, Global};

/// What a loop does in each turn.
#[derive(Clone, Copy)]
pub(crate) enum Loop {
    Ints,
    StaticCalls,
    VirtualCalls,
    Fields,
    Casts,
}

pub(crate) fn loop_of(name: &str) -> Option<Loop> {
    match name {
        "ints" => Some(Loop::Ints),
        "static_calls" => Some(Loop::StaticCalls),
        "virtual_calls" => Some(Loop::VirtualCalls),
        "fields" => Some(Loop::Fields),
        "casts" => Some(Loop::Casts),
        _ => None,
    }
}

// A turn computes local 1 from itself, from the turn in local 0, and from the object in local 2.
const INTS: &[u8] = &[ILOAD_1, ILOAD_0, IADD, ICONST_3, IXOR, ISTORE, 1];

const STATIC_CALLS: &[u8] = &[ILOAD_1, ILOAD_0, INVOKESTATIC, 0, ADD, ISTORE, 1];

const VIRTUAL_CALLS: &[u8] = &[ALOAD_2, ILOAD_1, INVOKEVIRTUAL, 0, NEXT, ISTORE, 1];

const FIELDS: &[u8] = &[
    ALOAD_2, ALOAD_2, GETFIELD, 0, COUNT, ILOAD_0, IADD, PUTFIELD, 0, COUNT, ALOAD_2, GETFIELD, 0,
    COUNT, ISTORE, 1,
];

const CASTS: &[u8] = &[
    ALOAD_2,
    INSTANCEOF,
    0,
    COUNTER_CLASS,
    ILOAD_1,
    IADD,
    ISTORE,
    1,
];

fn turn_of(wanted: Loop) -> &'static [u8]
    ensures { length result.now < 200 }
{
    match wanted {
        Loop::Ints => INTS,
        Loop::StaticCalls => STATIC_CALLS,
        Loop::VirtualCalls => VIRTUAL_CALLS,
        Loop::Fields => FIELDS,
        Loop::Casts => CASTS,
    }
}

// The code of `main`: it makes an object, runs the loop, and prints local 1.
pub(crate) fn main_code(alloc: Global, wanted: Loop) -> Result<Vec<u8>, AllocError> {
    let turn = turn_of(wanted);
    // The jumps over a turn, and back to its start.
    let distance = (turn.len() as u8).wrapping_add(6);
    let mut code = Vec::from_slice(
        alloc,
        &[
            NEW,
            0,
            STEP_CLASS,
            DUP,
            INVOKESPECIAL,
            0,
            STEP_INIT,
            ASTORE,
            2,
        ],
    )?;
    code.extend_from_slice(&[ICONST_0, ISTORE, 0, ICONST_0, ISTORE, 1, GOTO, 0, distance])?;
    code.extend_from_slice(turn)?;
    code.extend_from_slice(&[IINC, 0, 1, ILOAD_0, LDC, TURNS])?;
    code.extend_from_slice(&[IF_ICMPLT, 255, distance.wrapping_neg()])?;
    code.extend_from_slice(&[ILOAD_1, INVOKESTATIC, 0, PRINT, RETURN])?;
    Ok(code)
}
