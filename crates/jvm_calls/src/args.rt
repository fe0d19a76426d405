ghost use Rattle.std.specs.Prelude.{◌≡◌, ◌+◌, ◌≤◌, [], ◌∷◌, IfOk, MatchOption, None, nat_eq};
ghost use Rattle.std.specs.Option.{option_map};
ghost use Rattle.jp_store.specs.Arith.{width_of};
ghost use Rattle.jvm_table.specs.Act.{args_taken};
ghost use Rattle.jvm_table.specs.Descriptors as descriptors;
ghost use Rattle.jvm_step.specs.Turn as turn;

use jp_store::{Kind, Value};
use jvm_step::{has_kind, pop};
use jvm_table::{Frame, Locals};
use std::alloc::{AllocError, Global};
use std::marker::Model;

/// The arguments of a call, the first of them first.
#[derive(Drop)]
pub(crate) struct Args {
    last_first: Vec<Value>,
}

impl Model for Args {
    ghost use Rattle.std.specs.Prelude.{List, reverse};
    ghost use Rattle.jp_store.specs.declared.value.Value.{Value as Passed};

    ghost Value = { List Passed };

    ghost view = { λ a. reverse a.last_first.items };
}

impl Args {
    /// No arguments.
    pub(crate) fn new(alloc: Global) -> Args
        ensures { result ≡ [] }
    {
        Args {
            last_first: Vec::new(alloc),
        }
    }

    /// One more, in front of the others. The error is want of memory.
    pub(crate) fn push_front(&mut self, value: Value) -> Result<(), AllocError>
        ensures { IfOk result (λ _. self.new ≡ value ∷ self.old) }
    {
        self.last_first.push(value)?;
        Ok(())
    }

    /// Takes the first, or answers `None` where there is none.
    pub(crate) fn pop_front(&mut self) -> Option<Value>
        ensures { MatchOption result
            ((self.old ≡ []) × (self.new ≡ []))
            (λ value. self.old ≡ value ∷ self.new) }
    {
        self.last_first.pop()
    }
}

// How many places a value takes.
fn width(value: Value) -> usize
    ensures width { result ≡ width_of value }
    ensures least { 1 ≤ result }
{
    match value {
        Value::Long(_) => 2,
        _ => 1,
    }
}

// Takes arguments of these kinds from the stack, on which the last one is on top.
pub(crate) fn take_args(
    alloc: Global,
    kinds: &[Kind],
    frame: &mut Frame,
) -> Result<Option<Args>, AllocError>
    ensures { IfOk result (λ args. option_map (λ args. (args, frame.new)) args ≡ args_taken kinds.now frame.old) }
{
    let mut args = Args::new(alloc);
    for i in (0..kinds.len()).rev() {
        let Some(value) = pop(frame) else {
            return Ok(None);
        };
        if !has_kind(kinds[i], value) {
            return Ok(None);
        }
        args.push_front(value)?;
    }
    Ok(Some(args))
}

// So many local variables with the arguments in the first of them, or none where there are too many arguments.
pub(crate) fn place_args(
    alloc: Global,
    count: usize,
    mut args: Args,
) -> Result<Option<Locals>, AllocError>
    ensures { IfOk result (λ locals. locals ≡ turn.variables count (turn.placed args)) }
{
    let mut locals = Locals::new(alloc, count)?;
    let mut place = 0;
    while let Some(value) = args.pop_front() {
        let wide = width(value);
        if count - place < wide {
            return Ok(None);
        }
        locals.set(place, value);
        place += wide;
    }
    Ok(Some(locals))
}

// Whether a receiver and parameters of these kinds take so many places.
pub(crate) fn take_places(kinds: &[Kind], count: u8) -> bool
    ensures { result ≡ nat_eq (1 + descriptors.places_of kinds.now) count }
{
    let most = u32::from(count);
    let mut places: u32 = 1;
    for kind in kinds {
        if places > most {
            return false;
        }
        places += match kind {
            Kind::LongNumber => 2,
            _ => 1,
        };
    }
    places == most
}
