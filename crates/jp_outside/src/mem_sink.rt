ghost use Rattle.std.specs.Prelude.{◌≡◌, ◌↔◌, ◌-◌, [], Some, length, min, take, IfOk, OnErr, IsErr};
ghost use Rattle.std.specs.Io.KnownBytes.{append_known};
ghost use Rattle.jp_outside.specs.Faults.{HasCause};
ghost use Rattle.jp_outside.specs.Bytes.{IsCountOf};
ghost use Rattle.jp_outside.specs.Plans.{new_plan, CountsCall, WriteFails};

use crate::schedule::Schedule;
use crate::{Failed, Sink};
use std::alloc::{AllocError, Global};
use std::marker::Model;

/// A sink in memory, which tells the bytes it took and fails where it is told to and where it is full.
#[derive(Drop)]
pub struct MemSink {
    taken: Vec<u8>,
    room: usize,
    schedule: Schedule,
}

impl Model for MemSink {
    ghost use Rattle.std.specs.Prelude.{◌≤◌, length};
    ghost use Rattle.std.specs.Vec.{vec_capacity};
    ghost use Rattle.jp_outside.specs.Plans.{PlannedSink};

    ghost Value = { PlannedSink };

    ghost view = { λ s. record { taken = s.taken.items; room = s.room; plan = s.schedule } };

    // All the memory was taken at the start.
    ghost invariant = { λ s. (length s.taken.items ≤ s.room) × (s.room ≤ vec_capacity s.taken) };
}

impl MemSink {
    /// A sink of this room, whose memory is taken now. Its k-th call, from 1, fails exactly where k is in `fail`,
    /// or where it is full and the piece isn't empty. The error is want of memory.
    pub fn new(alloc: Global, room: usize, fail: Vec<u64>) -> Result<MemSink, AllocError>
        ensures { IfOk result (λ sink. sink ≡ record { taken = []; room = room; plan = new_plan fail.items }) }
    {
        let taken = Vec::with_capacity(alloc, room)?;
        Ok(MemSink {
            taken,
            room,
            schedule: Schedule::new(fail),
        })
    }

    /// The bytes that it has taken.
    pub fn taken(&self) -> &[u8]
        ensures { result.now ≡ self.now.taken }
    {
        self.taken.as_slice()
    }
}

impl Sink for MemSink {
    ghost taken = { λ s. Some s.taken };

    ghost faults = { λ s. s.plan.faults };

    fn write(&mut self, bytes: &[u8]) -> Result<usize, Failed>
        ensures count { IfOk result (λ n. IsCountOf n bytes.now) }
        ensures added { IfOk result (λ n. Some self.new.taken ≡ append_known (Some self.old.taken) (take n bytes.now)) }
        ensures kept { OnErr result (self.new.taken ≡ self.old.taken) }
        ensures cause { HasCause self.old.plan.faults self.new.plan.faults result }
        // It takes as much as there is room for.
        ensures fits { IfOk result (λ n. n ≡ min (length bytes.now) (self.old.room - length self.old.taken)) }
        ensures planned { IsErr result ↔ WriteFails self.old bytes.now }
        ensures counted { CountsCall self.old.plan self.new.plan }
        ensures room { self.new.room ≡ self.old.room }
    {
        let full = self.taken.len() == self.room;
        if self.schedule.starts_call() || full && !bytes.is_empty() {
            return self.schedule.fail(Failed);
        }
        let n = bytes.len().min(self.room - self.taken.len());
        self.taken.extend_from_slice(&bytes[..n]).unwrap();
        Ok(n)
    }
}
