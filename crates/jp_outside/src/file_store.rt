ghost use Rattle.std.specs.Prelude.{◌≡◌, ◌≤◌, None, IfOk, IfSome, vec_len};

use crate::fault_count::FaultCount;
use crate::{Store, StoreErr};
use std::alloc::{AllocError, Global};
use std::fs::File;
use std::io::{ErrorKind, Read};
use std::rt::Files;
use std::{fs, io};

/// A longer file counts as a fault.
const MAX_BYTES: u32 = 1 << 31;

/// The files of a folder, each under its name there. It doesn't tell which there are.
#[derive(Drop)]
pub struct FileStore<'a, R: Files> {
    rt: &'a R,
    folder: &'a str,
    faults: FaultCount,
}

impl<'a, R: Files> FileStore<'a, R> {
    /// The files of this folder.
    pub fn new(rt: &'a R, folder: &'a str) -> FileStore<'a, R> {
        FileStore {
            rt,
            folder,
            faults: FaultCount::new(),
        }
    }

    fn path_of(&self, alloc: Global, name: &str) -> Result<String, AllocError> {
        let folder = self.folder;
        format!(in alloc; "{folder}/{name}")
    }
}

/// All the bytes of a reader that gives at most `most`. Nothing is read past one more.
fn content_of<R: Read + Drop>(alloc: Global, reader: R, most: u32) -> io::Result<Vec<u8>>
    ensures whole { IfOk result (λ bytes. IfSome (R.remaining reader) (λ left. bytes.items ≡ left)) }
    ensures bounded { IfOk result (λ bytes. vec_len bytes ≤ most) }
{
    let mut bytes = Vec::new(alloc);
    let most = u64::from(most);
    let count = reader.take(most + 1).read_to_end(&mut bytes)?;
    if count as u64 > most {
        return Err(ErrorKind::FileTooLarge.into());
    }
    Ok(bytes)
}

fn read_file<R: Files>(rt: &R, alloc: Global, path: &str) -> io::Result<Vec<u8>> {
    content_of(alloc, File::open(rt, path)?, MAX_BYTES)
}

impl<R: Files> Store for FileStore<'_, R> {
    ghost files = { λ _. None };

    ghost faults = { λ s. s.faults.count };

    fn get(&mut self, alloc: Global, name: &str) -> Result<Option<Vec<u8>>, StoreErr> {
        let path = self.path_of(alloc, name)?;
        let error = match read_file(self.rt, alloc, path.as_str()) {
            Ok(bytes) => return Ok(Some(bytes)),
            Err(error) => error,
        };
        match error.kind() {
            ErrorKind::NotFound => Ok(None),
            ErrorKind::OutOfMemory => Err(StoreErr::OutOfMemory),
            _ => self.faults.fail(StoreErr::Failed),
        }
    }

    fn put(&mut self, alloc: Global, name: &str, bytes: &[u8]) -> Result<(), StoreErr> {
        let path = self.path_of(alloc, name)?;
        match fs::write(self.rt, path.as_str(), bytes) {
            Ok(()) => Ok(()),
            Err(_) => self.faults.fail(StoreErr::Failed),
        }
    }
}

#[cfg(test)]
mod tests {
    use super::content_of;
    use std::io::ErrorKind;
    use std::test::Fail;

    #[test]
    fn longer_content_is_refused(rt: HostRuntime) -> Result<(), Fail> {
        let content = content_of(rt.alloc(), b"abc".as_slice(), 3)?;
        assert_eq!(rt; content.as_slice(), b"abc".as_slice());
        let kind = match content_of(rt.alloc(), b"abcd".as_slice(), 3) {
            Ok(_) => None,
            Err(error) => Some(error.kind()),
        };
        assert_eq!(rt; kind, Some(ErrorKind::FileTooLarge));
        Ok(())
    }
}
