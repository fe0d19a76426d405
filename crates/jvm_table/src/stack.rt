ghost use Rattle.std.specs.Prelude.{◌≡◌, ◌+◌, ◌<◌, ◌≤◌, ◌↔◌, [], ◌∷◌, length, replicate, IsTrue, IfOk, MatchOption, None, Some, slice_get, slice_set, nat_le, nat_lt, option_and_then};
ghost use Rattle.std.specs.Bool.{OnTrue, OnFalse};
ghost use Rattle.jp_store.specs.Arith.{width_of};
ghost use Rattle.jvm_table.specs.Stack.{Held, depth_of};

use jp_store::Value;
use std::alloc::{AllocError, Global};
use std::marker::Model;

/// The operand stack of a frame: values from the top, which never take more places than there are.
#[derive(Drop)]
pub struct Stack {
    cells: Vec<Value>,
    len: usize,
    places: usize,
}

impl Model for Stack {
    ghost use Rattle.std.specs.Prelude.{◌≡◌, ◌≤◌, length, take, reverse};
    ghost use Rattle.jvm_table.specs.Stack.{Held, depth_of};

    ghost Value = { Held };

    ghost view = { λ s. record { room = length s.cells.items; values = reverse (take s.len s.cells.items) } };

    ghost invariant = { λ s.
        (s.len ≤ s.places) × (s.places ≤ length s.cells.items) × (s.places ≡ depth_of (reverse (take s.len s.cells.items))) };
}

// How many places a value takes.
fn width(value: Value) -> usize
    ensures width { result ≡ width_of value }
    ensures least { 1 ≤ result }
    ensures most { result ≤ 2 }
{
    match value {
        Value::Long(_) => 2,
        _ => 1,
    }
}

impl Stack {
    /// An empty stack of so many places. All its memory is taken here.
    pub fn new(alloc: Global, room: usize) -> Result<Stack, AllocError>
        ensures { IfOk result (λ stack. stack ≡ record { room = room; values = [] }) }
    {
        let cells = vec![in alloc; Value::Null; room]?;
        Ok(Stack {
            cells,
            len: 0,
            places: 0,
        })
    }

    /// Whether there is room for this value more.
    pub fn has_room(&self, value: Value) -> bool
        ensures { result ≡ nat_le (width_of value + depth_of self.now.values) self.now.room }
    {
        width(value) <= self.cells.len() - self.places
    }

    /// Whether there is room for one value more, which is then on top.
    pub fn push(&mut self, value: Value) -> bool
        ensures pushed { result ≡ nat_le (width_of value + depth_of self.old.values) self.old.room }
        ensures yes { OnTrue result (self.new ≡ record self.old { values = value ∷ self.old.values }) }
        ensures no { OnFalse result (self.new ≡ self.old) }
    {
        let wide = width(value);
        if self.cells.len() - self.places < wide {
            return false;
        }
        self.cells[self.len] = value;
        self.len += 1;
        self.places += wide;
        true
    }

    /// Takes the value on top, or answers `None` where there is none.
    pub fn pop(&mut self) -> Option<Value>
        ensures { MatchOption result
            ((self.old.values ≡ []) × (self.new ≡ self.old))
            (λ value. self.old ≡ record self.new { values = value ∷ self.new.values }) }
    {
        if self.len == 0 {
            return None;
        }
        self.len -= 1;
        let value = self.cells[self.len];
        self.places -= width(value);
        Some(value)
    }
}

/// The local variables of a frame. Nothing is stored in those that are `None`.
#[derive(Drop)]
pub struct Locals {
    cells: Vec<Option<Value>>,
}

impl Model for Locals {
    ghost use Rattle.std.specs.Prelude.{List, Option};
    ghost use Rattle.jp_store.specs.declared.value.Value.{Value as Cell};

    ghost Value = { List (Option Cell) };

    ghost view = { λ l. l.cells.items };
}

impl Locals {
    /// So many variables, with nothing stored in them.
    pub fn new(alloc: Global, count: usize) -> Result<Locals, AllocError>
        ensures { IfOk result (λ locals. locals ≡ replicate count None) }
    {
        Ok(Locals {
            cells: vec![in alloc; None; count]?,
        })
    }

    /// What is stored in a variable.
    pub fn get(&self, index: usize) -> Option<Value>
        ensures { result ≡ option_and_then (λ value. value) (slice_get self.now index) }
    {
        *self.cells.get(index)?
    }

    /// Whether there is such a variable, in which the value is then stored.
    pub fn set(&mut self, index: usize, value: Value) -> bool
        ensures set { result ≡ nat_lt index (length self.old) }
        ensures yes { OnTrue result (self.new ≡ slice_set self.old index (Some value)) }
        ensures no { OnFalse result (self.new ≡ self.old) }
    {
        if index >= self.cells.len() {
            return false;
        }
        self.cells[index] = Some(value);
        true
    }
}
