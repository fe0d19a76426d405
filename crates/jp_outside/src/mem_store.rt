ghost use Rattle.std.specs.Prelude.{◌≡◌, ◌↔◌, ◌/◌, length, take, IfOk, OnOk, IsErrOf};
ghost use Rattle.std.specs.Option.{option_map};
ghost use Rattle.jp_outside.specs.Faults.{StoreCause};
ghost use Rattle.jp_outside.specs.Files.{AreDistinct, Finds, OthersStay, listed_files, put_known};
ghost use Rattle.jp_outside.specs.Plans.{new_plan, FailsNext, CountsCall, FailsAsPlanned};

use crate::file_list::FileList;
use crate::schedule::Schedule;
use crate::{Store, StoreErr, StoredFile};
use std::alloc::Global;
use std::marker::Model;

/// A store in memory, which tells its files and fails where it is told to.
#[derive(Drop)]
pub struct MemStore {
    files: FileList,
    schedule: Schedule,
}

impl Model for MemStore {
    ghost use Rattle.std.specs.Prelude.{List, ℕ};
    ghost use Rattle.jp_outside.specs.Plans.{Planned};

    ghost Value = { Planned (List (List ℕ × List ℕ)) };

    ghost view = { λ s. record { told = s.files; plan = s.schedule } };
}

impl MemStore {
    /// A store of these files, whose names are distinct. The calls of `get` and `put` are counted together, from 1,
    /// and the k-th fails exactly where k is in `fail`.
    pub fn new(files: Vec<StoredFile>, fail: Vec<u64>) -> MemStore
        requires { AreDistinct files.items }
        ensures { result ≡ record { told = files.items; plan = new_plan fail.items } }
    {
        MemStore {
            files: FileList::new(files),
            schedule: Schedule::new(fail),
        }
    }

    /// The files, in the order in which their names came.
    pub fn files(&self) -> &[StoredFile]
        ensures files { result.now ≡ self.now.told }
        ensures distinct { AreDistinct result.now }
    {
        self.files.as_slice()
    }
}

impl Store for MemStore {
    ghost files = { λ s. listed_files s.told };

    ghost faults = { λ s. s.plan.faults };

    fn get(&mut self, alloc: Global, name: &str) -> Result<Option<Vec<u8>>, StoreErr>
        ensures found { IfOk result (λ found. Finds (listed_files self.old.told) name.now (option_map (λ v. v.items) found)) }
        ensures same { self.new.told ≡ self.old.told }
        ensures cause { StoreCause self.old.plan.faults self.new.plan.faults result }
        ensures planned { IsErrOf result StoreErr.Failed ↔ FailsNext self.old.plan }
        ensures counted { CountsCall self.old.plan self.new.plan }
    {
        if self.schedule.starts_call() {
            return self.schedule.fail(StoreErr::Failed);
        }
        Ok(self.files.get(alloc, name)?)
    }

    /// A call that fails stores the first half of the bytes, rounded down.
    fn put(&mut self, alloc: Global, name: &str, bytes: &[u8]) -> Result<(), StoreErr>
        ensures stored { OnOk result (listed_files self.new.told ≡ put_known (listed_files self.old.told) name.now bytes.now) }
        ensures half { IsErrOf result StoreErr.Failed → listed_files self.new.told ≡ put_known (listed_files self.old.told) name.now (take (length bytes.now / 2) bytes.now) }
        ensures others { IsErrOf result StoreErr.Failed → OthersStay (listed_files self.old.told) (listed_files self.new.told) name.now }
        ensures kept { IsErrOf result StoreErr.OutOfMemory → self.new.told ≡ self.old.told }
        ensures cause { StoreCause self.old.plan.faults self.new.plan.faults result }
        ensures planned { FailsAsPlanned result self.old.plan }
        ensures counted { CountsCall self.old.plan self.new.plan }
    {
        if self.schedule.starts_call() {
            self.files.set(alloc, name, &bytes[..bytes.len() / 2])?;
            return self.schedule.fail(StoreErr::Failed);
        }
        self.files.set(alloc, name, bytes)?;
        Ok(())
    }
}
