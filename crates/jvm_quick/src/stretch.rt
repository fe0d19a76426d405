ghost use Rattle.std.specs.Prelude.{◌≡◌, ◌≤◌, List};
ghost use Rattle.class_form.specs.declared.class_file.ClassFile.{ClassFile};
ghost use Rattle.class_form.specs.declared.member.MemberInfo.{MemberInfo};
ghost use Rattle.jvm_table.specs.declared.frame.Frame.{Frame as At};
ghost use Rattle.jvm_table.specs.Act.{acts};
ghost use Rattle.jvm_quick.specs.Rows.{DoAs, AreDecoded};
ghost use Rattle.jvm_quick.specs.Walks.{LeadsTo};
ghost use Rattle.jvm_quick.specs.Stretches.{went_act, Says, IsStretch, CountsTo};

use crate::act::{Went, quick};
use crate::{Decoded, Rows};
use jp_store::TrapKind;
use jvm_step::State;
use jvm_table::Frame;

/// What an instruction comes to: it stays in its frame, it traps, there is no row for it, or it isn't one of those that are
/// done here.
#[derive(Clone, Copy)]
pub enum Quick {
    Moved,
    Trapped(TrapKind),
    NoRow,
    Other,
}

/// How many instructions in a row stayed in their frame, and what the next one came to; `Moved` if there was to be none.
#[derive(Clone, Copy)]
pub struct Stretch {
    pub count: u64,
    pub end: Quick,
}

// The answer to an instruction from this place.
fn answer(went: Option<Went>, place: u32, frame: &mut Frame) -> Quick
    ensures { (from : At) → from.place ≡ place → Says result from frame.new (went_act went frame.old) }
{
    match went {
        Some(went) => match went {
            Went::On => Quick::Moved,
            Went::Trap(kind) => Quick::Trapped(kind),
        },
        None => {
            frame.place = place;
            Quick::NoRow
        }
    }
}

fn quick_step(rows: &Rows, frame: &mut Frame) -> Quick
    ensures { (file : ClassFile) (method : MemberInfo) → DoAs file method rows.now
        → Says result frame.old frame.new (acts file method frame.old) }
{
    let place = frame.place;
    let Some(row) = rows.at(place) else {
        return Quick::NoRow;
    };
    frame.place = row.next;
    match quick(row.instr, frame) {
        Some(went) => answer(went, place, frame),
        None => {
            frame.place = place;
            Quick::Other
        }
    }
}

// Runs instructions of a method by its rows while they stay in the frame, as many as `limit` at most.
fn run_stretch(rows: &Rows, limit: u64, frame: &mut Frame) -> Stretch
    ensures count { CountsTo limit result.end result.count }
    ensures stretch { (file : ClassFile) (method : MemberInfo) → DoAs file method rows.now
        → IsStretch file method result.count result.end frame.old frame.new }
{
    for count in 0..limit {
        match quick_step(rows, frame) {
            Quick::Moved => {}
            Quick::Trapped(kind) => {
                return Stretch {
                    count,
                    end: Quick::Trapped(kind),
                };
            }
            Quick::NoRow => {
                return Stretch {
                    count,
                    end: Quick::NoRow,
                };
            }
            Quick::Other => {
                return Stretch {
                    count,
                    end: Quick::Other,
                };
            }
        }
    }
    Stretch {
        count: limit,
        end: Quick::Moved,
    }
}

/// Runs the instructions of the method that runs while they stay in its frame, as many as `limit` at most.
pub fn stretch_from(decoded: &Decoded, limit: u64, state: &mut State) -> Stretch
    requires { 1 ≤ limit }
    ensures count { CountsTo limit result.end result.count }
    ensures leads { (files : List ClassFile) → AreDecoded files decoded.now
        → LeadsTo files result.count result.end state.old state.new }
{
    match decoded.rows(state.current.file, state.current.method) {
        Some(rows) => run_stretch(rows, limit, &mut state.current.frame),
        None => Stretch {
            count: 0,
            end: Quick::Other,
        },
    }
}
