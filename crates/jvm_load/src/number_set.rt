ghost use Rattle.std.specs.Prelude.{◌≡◌, ℕ};
ghost use Rattle.jp_store.specs.Classes.{is_among};

use std::marker::Model;

/// Numbers in rising order, which contracts see as their list.
#[derive(Drop)]
pub(crate) struct NumberSet {
    numbers: Vec<u32>,
}

impl Model for NumberSet {
    ghost use Rattle.std.specs.Prelude.{List, ℕ};
    ghost use Rattle.std.specs.List.Sorted.{IsNonDecreasing};

    ghost Value = { List ℕ };

    ghost view = { λ s. s.numbers.items };

    ghost invariant = { λ s. IsNonDecreasing s.numbers.items };
}

impl NumberSet {
    /// The numbers of a vector.
    pub(crate) fn new(numbers: Vec<u32>) -> NumberSet
        ensures { (n : ℕ) → is_among n result ≡ is_among n numbers.items }
    {
        let mut sorted = numbers;
        sorted.sort_unstable();
        NumberSet { numbers: sorted }
    }

    /// Whether a number is among them, by bisection.
    pub(crate) fn contains(&self, number: u32) -> bool
        ensures { result ≡ is_among number self.now }
    {
        self.numbers.as_slice().binary_search(&number).is_ok()
    }
}
