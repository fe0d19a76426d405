ghost use Rattle.std.specs.Prelude.{◌≡◌, IfOk, OnOk, OnErr};
ghost use Rattle.std.specs.List.{position};
ghost use Rattle.std.specs.Str.{bytes_eq};
ghost use Rattle.std.specs.Option.{option_map};
ghost use Rattle.jp_outside.specs.Files.{AreDistinct, Finds, listed_files, put_known};

use crate::StoredFile;
use std::alloc::{AllocError, Global};
use std::marker::Model;

/// Files in memory, each name once.
#[derive(Drop)]
pub(crate) struct FileList {
    files: Vec<StoredFile>,
}

impl Model for FileList {
    ghost use Rattle.std.specs.Prelude.{List, ℕ};
    ghost use Rattle.jp_outside.specs.Files.{AreDistinct};

    ghost Value = { List (List ℕ × List ℕ) };

    ghost view = { λ l. l.files.items };

    ghost invariant = { λ l. AreDistinct l.files.items };
}

impl FileList {
    /// These files, whose names are distinct.
    pub(crate) fn new(files: Vec<StoredFile>) -> FileList
        requires { AreDistinct files.items }
        ensures { result ≡ files.items }
    {
        FileList { files }
    }

    /// The files, in the order in which they came.
    pub(crate) fn as_slice(&self) -> &[StoredFile]
        ensures files { result.now ≡ self.now }
        ensures distinct { AreDistinct result.now }
    {
        self.files.as_slice()
    }

    /// Where a name stands.
    fn place_of(&self, name: &str) -> Option<usize>
        ensures { result ≡ position (λ file. bytes_eq name.now file.0) self.now }
    {
        self.files.iter().position(|file| name == file.name())
    }

    /// The content under a name, or `None` where the name isn't there. The error is want of memory.
    pub(crate) fn get(&self, alloc: Global, name: &str) -> Result<Option<Vec<u8>>, AllocError>
        ensures { IfOk result (λ found. Finds (listed_files self.now) name.now (option_map (λ v. v.items) found)) }
    {
        let Some(place) = self.place_of(name) else {
            return Ok(None);
        };
        let bytes = Vec::from_slice(alloc, self.files[place].bytes())?;
        Ok(Some(bytes))
    }

    /// Puts a content under a name. The error is want of memory.
    pub(crate) fn set(&mut self, alloc: Global, name: &str, bytes: &[u8]) -> Result<(), AllocError>
        ensures ok { OnOk result (listed_files self.new ≡ put_known (listed_files self.old) name.now bytes.now) }
        ensures err { OnErr result (self.new ≡ self.old) }
    {
        let bytes = Vec::from_slice(alloc, bytes)?;
        match self.place_of(name) {
            Some(place) => {
                let file = &mut self.files[place];
                file.set_bytes(bytes);
            }
            None => {
                let name = String::from_str(alloc, name)?;
                self.files.push(StoredFile::new(name, bytes))?;
            }
        }
        Ok(())
    }
}
