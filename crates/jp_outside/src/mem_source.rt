ghost use Rattle.std.specs.Prelude.{◌≡◌, ◌↔◌, Some, IfOk, OnErr, IsErr};
ghost use Rattle.jp_outside.specs.Faults.{HasCause};
ghost use Rattle.jp_outside.specs.Bytes.{ReadsFirst};
ghost use Rattle.jp_outside.specs.Plans.{new_plan, FailsNext, CountsCall};

use crate::schedule::Schedule;
use crate::{Failed, Source};
use std::marker::Model;
use std::vec::IntoIter;

/// A source in memory, which tells its bytes and fails where it is told to.
#[derive(Drop)]
pub struct MemSource {
    left: IntoIter<u8>,
    schedule: Schedule,
}

impl Model for MemSource {
    ghost use Rattle.std.specs.Prelude.{List, ℕ};
    ghost use Rattle.std.specs.Vec.Iter.{into_iter_items};
    ghost use Rattle.jp_outside.specs.Plans.{Planned};

    ghost Value = { Planned (List ℕ) };

    ghost view = { λ s. record { told = into_iter_items s.left; plan = s.schedule } };
}

impl MemSource {
    /// A source of these bytes. Its k-th call, from 1, fails exactly where k is in `fail`.
    pub fn new(bytes: Vec<u8>, fail: Vec<u64>) -> MemSource
        ensures { result ≡ record { told = bytes.items; plan = new_plan fail.items } }
    {
        MemSource {
            left: bytes.into_iter(),
            schedule: Schedule::new(fail),
        }
    }
}

impl Source for MemSource {
    ghost left = { λ s. Some s.told };

    ghost faults = { λ s. s.plan.faults };

    fn read(&mut self) -> Result<Option<u8>, Failed>
        ensures byte { IfOk result (λ byte. ReadsFirst (Some self.old.told) byte (Some self.new.told)) }
        ensures kept { OnErr result (self.new.told ≡ self.old.told) }
        ensures cause { HasCause self.old.plan.faults self.new.plan.faults result }
        ensures planned { IsErr result ↔ FailsNext self.old.plan }
        ensures counted { CountsCall self.old.plan self.new.plan }
    {
        if self.schedule.starts_call() {
            return self.schedule.fail(Failed);
        }
        Ok(self.left.next())
    }
}
