ghost use Rattle.std.specs.Prelude.{◌≡◌, ℕ, Option, IfOk, OnOk, IsErrOf};
ghost use Rattle.std.specs.Option.{option_map};
ghost use Rattle.jp_outside.specs.declared.store.StoreErr.TheVariants.{OutOfMemory};
ghost use Rattle.jp_outside.specs.Faults.{StoreCause};
ghost use Rattle.jp_outside.specs.Files.{Files, Finds, put_known, OthersStay};

use std::alloc::{AllocError, AllocFailed, Global};

/// Why a store has no answer.
#[derive(Clone, Copy, Debug, PartialEq, Eq)]
pub enum StoreErr {
    /// The device could not do it.
    Failed,
    /// There was no memory for it.
    OutOfMemory,
}

impl From<AllocError> for StoreErr {
    ghost from_gives = { λ _ e. e ≡ OutOfMemory };

    fn from(_: AllocError) -> StoreErr {
        StoreErr::OutOfMemory
    }
}

impl<T: Drop> From<AllocFailed<T>> for StoreErr {
    ghost from_gives = { λ _ e. e ≡ OutOfMemory };

    fn from(_: AllocFailed<T>) -> StoreErr {
        StoreErr::OutOfMemory
    }
}

/// Where files are kept, each a content under a name.
pub trait Store {
    /// The files, where the store tells them. One that tells none goes on so.
    ghost files: { Self → Option Files };

    /// How often the store has failed, counted up to the greatest `u64`.
    ghost faults: { Self → ℕ };

    /// The content under a name, or `None` where the name isn't there. At every answer the files are as before.
    fn get(&mut self, alloc: Global, name: &str) -> Result<Option<Vec<u8>>, StoreErr>
        ensures found { IfOk result (λ found. Finds (files self.old) name.now (option_map (λ v. v.items) found)) }
        ensures same { files self.new ≡ files self.old }
        ensures cause { StoreCause (faults self.old) (faults self.new) result };

    /// Puts a content under a name. After a fault that name holds unknown bytes, and every other name its own;
    /// after want of memory the files are as before.
    fn put(&mut self, alloc: Global, name: &str, bytes: &[u8]) -> Result<(), StoreErr>
        ensures stored { OnOk result (files self.new ≡ put_known (files self.old) name.now bytes.now) }
        ensures others { IsErrOf result StoreErr.Failed → OthersStay (files self.old) (files self.new) name.now }
        ensures kept { IsErrOf result StoreErr.OutOfMemory → files self.new ≡ files self.old }
        ensures cause { StoreCause (faults self.old) (faults self.new) result };
}
