ghost use Rattle.std.specs.Prelude.{◌≡◌, ◌↔◌, Err, IsTrue};
ghost use Rattle.jp_outside.specs.Faults.{Rose};
ghost use Rattle.jp_outside.specs.Plans.{new_plan, FailsNext, CountsCall};

use crate::fault_count::FaultCount;
use std::marker::Model;

/// Which calls of a device in memory fail. Contracts see it as a `Plan`.
#[derive(Drop)]
pub(crate) struct Schedule {
    fail: Vec<u64>,
    calls: u64,
    faults: FaultCount,
}

impl Model for Schedule {
    ghost use Rattle.std.specs.Prelude.{◌^◌, ◌<◌, slice_index, EachIndex};
    ghost use Rattle.jp_outside.specs.Plans.{Plan};

    ghost Value = { Plan };

    ghost view = { λ s. record { fail = s.fail.items; calls = s.calls; faults = s.faults.count } };

    // The numbers are `u64`s, which a `Plan` doesn't say.
    ghost invariant = { λ s. EachIndex s.fail.items (λ k. slice_index s.fail.items k < 2 ^ 64) };
}

impl Schedule {
    /// The calls with these numbers, from 1, are to fail.
    pub(crate) fn new(fail: Vec<u64>) -> Schedule
        ensures { result ≡ new_plan fail.items }
    {
        Schedule {
            fail,
            calls: 0,
            faults: FaultCount::new(),
        }
    }

    /// Counts a call, and answers whether it is to fail.
    pub(crate) fn starts_call(&mut self) -> bool
        ensures planned { IsTrue result ↔ FailsNext self.old }
        ensures counted { CountsCall self.old self.new }
        ensures faults { self.new.faults ≡ self.old.faults }
    {
        match self.calls.checked_add(1) {
            Some(call) => {
                self.calls = call;
                self.fail.contains(&call)
            }
            // No number in the list is as great as this call's.
            None => false,
        }
    }

    /// Counts a fault, and answers with its error.
    pub(crate) fn fail<T, E>(&mut self, error: E) -> Result<T, E>
        ensures answer { result ≡ Err error }
        ensures plan { self.new ≡ record self.old { faults = self.new.faults } }
        ensures rose { Rose self.old.faults self.new.faults }
    {
        self.faults.fail(error)
    }
}
