ghost use Rattle.std.specs.Prelude.{◌≡◌, Some, IfOk, OnOk, OnErr, IsErrOf, IsOk, IsOkUnless};
ghost use Rattle.std.specs.Option.{option_map};
ghost use Rattle.jp_outside.specs.Bytes.{ReadsFirst};
ghost use Rattle.jp_outside.specs.Files.{AreDistinct, Finds, listed_files, put_known};

use crate::file_list::FileList;
use crate::{Failed, Source, Store, StoreErr, StoredFile};
use std::alloc::Global;
use std::marker::Model;
use std::vec::IntoIter;

/// A source in memory, which never fails.
#[derive(Drop)]
pub struct SureSource {
    left: IntoIter<u8>,
}

impl Model for SureSource {
    ghost use Rattle.std.specs.Prelude.{List, ℕ};
    ghost use Rattle.std.specs.Vec.Iter.{into_iter_items};

    ghost Value = { List ℕ };

    ghost view = { λ s. into_iter_items s.left };
}

impl SureSource {
    /// A source of these bytes.
    pub fn new(bytes: Vec<u8>) -> SureSource
        ensures { result ≡ bytes.items }
    {
        SureSource {
            left: bytes.into_iter(),
        }
    }
}

impl Source for SureSource {
    ghost left = { λ s. Some s };

    ghost faults = { λ _. 0 };

    fn read(&mut self) -> Result<Option<u8>, Failed>
        ensures byte { IfOk result (λ byte. ReadsFirst (Some self.old) byte (Some self.new)) }
        ensures sure { IsOk result }
    {
        Ok(self.left.next())
    }
}

/// A store in memory, which never fails. Its calls may still find no memory.
#[derive(Drop)]
pub struct SureStore {
    files: FileList,
}

impl Model for SureStore {
    ghost use Rattle.std.specs.Prelude.{List, ℕ};

    ghost Value = { List (List ℕ × List ℕ) };

    ghost view = { λ s. s.files };
}

impl SureStore {
    /// A store of these files, whose names are distinct.
    pub fn new(files: Vec<StoredFile>) -> SureStore
        requires { AreDistinct files.items }
        ensures { result ≡ files.items }
    {
        SureStore {
            files: FileList::new(files),
        }
    }

    /// The files, in the order in which their names came.
    pub fn files(&self) -> &[StoredFile]
        ensures files { result.now ≡ self.now }
        ensures distinct { AreDistinct result.now }
    {
        self.files.as_slice()
    }
}

impl Store for SureStore {
    ghost files = { listed_files };

    ghost faults = { λ _. 0 };

    fn get(&mut self, alloc: Global, name: &str) -> Result<Option<Vec<u8>>, StoreErr>
        ensures found { IfOk result (λ found. Finds (listed_files self.old) name.now (option_map (λ v. v.items) found)) }
        ensures same { self.new ≡ self.old }
        ensures sure { IsOkUnless result StoreErr.OutOfMemory }
    {
        Ok(self.files.get(alloc, name)?)
    }

    fn put(&mut self, alloc: Global, name: &str, bytes: &[u8]) -> Result<(), StoreErr>
        ensures stored { OnOk result (listed_files self.new ≡ put_known (listed_files self.old) name.now bytes.now) }
        ensures kept { IsErrOf result StoreErr.OutOfMemory → self.new ≡ self.old }
        ensures sure { IsOkUnless result StoreErr.OutOfMemory }
    {
        self.files.set(alloc, name, bytes)?;
        Ok(())
    }
}
