ghost use Rattle.std.specs.Prelude.{◌≡◌, ◌<◌, ◌^◌, pos, [], ◌∷◌, ◌++◌, length, IfOk, OnErr, slice_get, slice_set};
ghost use Rattle.std.specs.Option.{option_map};
ghost use Rattle.jp_store.specs.Heap.{with_cell};

use crate::{ClassAt, Element, Value};
use std::alloc::{AllocError, Global};
use std::marker::Model;

/// The values of an object's fields, or of a class's static fields, which contracts see as their list.
#[derive(Drop)]
pub struct Values {
    items: Vec<Value>,
}

impl Model for Values {
    ghost use Rattle.std.specs.Prelude.{List};
    ghost use Rattle.jp_store.specs.declared.value.Value.{Value as Cell};

    ghost Value = { List Cell };

    ghost view = { λ v. v.items.items };
}

impl Values {
    /// These values.
    pub fn new(items: Vec<Value>) -> Values
        ensures { result ≡ items.items }
    {
        Values { items }
    }

    /// How many there are.
    pub fn len(&self) -> usize
        ensures { result ≡ length self.now }
    {
        self.items.len()
    }

    /// The value at an index, if there is one.
    pub fn get(&self, index: usize) -> Option<Value>
        ensures { result ≡ slice_get self.now index }
    {
        self.items.get(index).copied()
    }

    /// Another value at an index; nothing changes where there is none.
    pub fn set(&mut self, index: usize, value: Value)
        ensures { self.new ≡ slice_set self.old index value }
    {
        if index < self.items.len() {
            self.items[index] = value;
        }
    }
}

/// An array's elements, fewer than 2^31, which contracts see as their list.
#[derive(Drop)]
pub struct Elements {
    values: Values,
}

impl Model for Elements {
    ghost use Rattle.std.specs.Prelude.{List, length, ◌<◌, ◌^◌};
    ghost use Rattle.jp_store.specs.declared.value.Value.{Value as Cell};

    ghost Value = { List Cell };

    ghost view = { λ e. e.values };

    ghost invariant = { λ e. length e.values < 2 ^ 31 };
}

impl Elements {
    /// These elements.
    pub fn new(items: Vec<Value>) -> Elements
        requires { length items.items < 2 ^ 31 }
        ensures { result ≡ items.items }
    {
        Elements {
            values: Values::new(items),
        }
    }

    /// How many there are.
    pub fn size(&self) -> i32
        ensures { result ≡ pos (length self.now) }
    {
        self.values.len() as i32
    }

    /// The element at an index, if there is one.
    pub fn get(&self, index: usize) -> Option<Value>
        ensures { result ≡ slice_get self.now index }
    {
        self.values.get(index)
    }

    /// Another element at an index; nothing changes where there is none.
    pub fn set(&mut self, index: usize, value: Value)
        ensures { self.new ≡ slice_set self.old index value }
    {
        self.values.set(index, value);
    }
}

/// An object, with the values of its fields from the topmost class down, or an array.
#[derive(Drop)]
pub enum Thing {
    Object(ClassAt, Values),
    Array(Element, Elements),
}

/// Objects and arrays in order of making, which contracts see as their list.
#[derive(Drop)]
pub struct Heap {
    things: Vec<Thing>,
}

impl Model for Heap {
    ghost use Rattle.std.specs.Prelude.{List};
    ghost use Rattle.jp_store.specs.declared.heap.Thing.{Thing as Made};

    ghost Value = { List Made };

    ghost view = { λ h. h.things.items };
}

impl Heap {
    /// Nothing is made yet.
    pub fn new(alloc: Global) -> Heap
        ensures { result ≡ [] }
    {
        Heap {
            things: Vec::new(alloc),
        }
    }

    /// The object or array of a number, if it is made.
    pub fn thing(&self, number: usize) -> Option<&Thing>
        ensures { option_map (λ thing. thing.now) result ≡ slice_get self.now number }
    {
        self.things.get(number)
    }

    /// Another value at an index of an object or array; nothing changes where there is none.
    pub fn set(&mut self, number: usize, index: usize, value: Value)
        ensures { self.new ≡ with_cell self.old number index value }
    {
        if number < self.things.len() {
            let thing = &mut self.things[number];
            match thing {
                Thing::Object(_, fields) => fields.set(index, value),
                Thing::Array(_, elements) => elements.set(index, value),
            }
        }
    }

    /// A new object or array, whose number is that of those before it. The error is want of memory.
    pub fn make(&mut self, thing: Thing) -> Result<usize, AllocError>
        ensures number { IfOk result (λ number. number ≡ length self.old) }
        ensures made { IfOk result (λ _. self.new ≡ self.old ++ thing ∷ []) }
        ensures kept { OnErr result (self.new ≡ self.old) }
    {
        let number = self.things.len();
        self.things.push(thing)?;
        Ok(number)
    }
}
