ghost use Rattle.std.specs.Prelude.{◌≡◌, [], ◌∷◌, Some, None, IfOk, MatchOption, option_and_then, slice_get, slice_set};
ghost use Rattle.std.specs.Option.{option_map};
ghost use Rattle.std.specs.Bool.{OnTrue, OnFalse};

use jp_store::{Heap, Value, Values};
use jvm_table::Frame;
use std::alloc::{AllocError, Global};
use std::marker::Model;

/// A method that runs, by its file's position in the program and its own in the file, with its frame.
#[derive(Drop)]
pub struct Running {
    pub file: u32,
    pub method: u32,
    pub frame: Frame,
}

/// Methods that wait for a call to return, the nearest first.
#[derive(Drop)]
pub struct Callers {
    waiting: Vec<Running>,
}

impl Model for Callers {
    ghost use Rattle.std.specs.Prelude.{List, reverse};
    ghost use Rattle.jvm_step.specs.declared.state.Running.{Running as Waiting};

    ghost Value = { List Waiting };

    ghost view = { λ c. reverse c.waiting.items };
}

impl Callers {
    /// No method waits yet.
    pub fn new(alloc: Global) -> Callers
        ensures { result ≡ [] }
    {
        Callers {
            waiting: Vec::new(alloc),
        }
    }

    /// One more, which is the nearest. The error is want of memory.
    pub fn push(&mut self, running: Running) -> Result<(), AllocError>
        ensures { IfOk result (λ _. self.new ≡ running ∷ self.old) }
    {
        self.waiting.push(running)?;
        Ok(())
    }

    /// Takes the nearest, or answers `None` where none waits.
    pub fn pop(&mut self) -> Option<Running>
        ensures { MatchOption result
            ((self.old ≡ []) × (self.new ≡ []))
            (λ running. self.old ≡ running ∷ self.new) }
    {
        self.waiting.pop()
    }
}

/// For each file the values of the static fields that its class declares.
#[derive(Drop)]
pub struct Statics {
    classes: Vec<Values>,
}

impl Model for Statics {
    ghost use Rattle.std.specs.Prelude.{List};
    ghost use Rattle.jp_store.specs.declared.value.Value.{Value as Cell};

    ghost Value = { List (List Cell) };

    ghost view = { λ s. s.classes.items };
}

impl Statics {
    /// These values.
    pub fn new(classes: Vec<Values>) -> Statics
        ensures { result ≡ classes.items }
    {
        Statics { classes }
    }

    /// The value of a static field, if there is one at this position of a file's class.
    pub fn get(&self, class: u32, slot: u32) -> Option<Value>
        ensures { result ≡ option_and_then (λ values. slice_get values slot) (slice_get self.now class) }
    {
        let values = self.classes.get(class as usize)?;
        values.get(slot as usize)
    }

    /// Whether there are static fields of a file's class, of which the one at this position, if there is one, then has
    /// this value.
    pub fn set(&mut self, class: u32, slot: u32, value: Value) -> bool
        ensures set { OnTrue result (option_map (λ values. slice_set self.old class (slice_set values slot value)) (slice_get self.old class) ≡ Some self.new) }
        ensures kept { OnFalse result (self.new ≡ self.old) }
        ensures missing { OnFalse result (slice_get self.old class ≡ None) }
    {
        if class as usize >= self.classes.len() {
            return false;
        }
        let values = &mut self.classes[class as usize];
        values.set(slot as usize, value);
        true
    }
}

/// The method that runs, those that wait, the objects and the static fields.
#[derive(Drop)]
pub struct State {
    pub current: Running,
    pub callers: Callers,
    pub heap: Heap,
    pub statics: Statics,
}
