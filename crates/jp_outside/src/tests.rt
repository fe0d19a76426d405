//! Each device once through its trait, with a call that fails in mid-stream.

use super::*;
use std::alloc::Global;
use std::io::{Error, ErrorKind, Read, Write};
use std::test::Fail;
use std::{fs, io};

fn four_reads<S: Source>(source: &mut S) -> [Result<Option<u8>, Failed>; 4] {
    [source.read(), source.read(), source.read(), source.read()]
}

/// Whether this content stands under a name.
fn holds<S: Store>(
    store: &mut S,
    alloc: Global,
    name: &str,
    bytes: &[u8],
) -> Result<bool, StoreErr> {
    match store.get(alloc, name)? {
        Some(found) => Ok(found.as_slice() == bytes),
        None => Ok(false),
    }
}

/// A reader or writer that the system has nothing good to say of.
#[derive(Drop)]
struct Broken;

impl Read for Broken {
    fn read(&mut self, _buf: &mut [u8]) -> io::Result<usize> {
        Err(Error::from(ErrorKind::Other))
    }
}

impl Write for Broken {
    fn write(&mut self, buf: &[u8]) -> io::Result<usize> {
        if buf.len() == 1 {
            Err(Error::from(ErrorKind::BrokenPipe))
        } else {
            Ok(0)
        }
    }

    fn flush(&mut self) -> io::Result<()> {
        Ok(())
    }
}

#[test]
fn mem_source_gives_its_bytes(rt: HostRuntime) -> Result<(), Fail> {
    let alloc = rt.alloc();
    let mut source = MemSource::new(b"ab".to_vec(alloc)?, [2].to_vec(alloc)?);
    let want = [Ok(Some(b'a')), Err(Failed), Ok(Some(b'b')), Ok(None)];
    assert_eq!(rt; four_reads(&mut source), want);
    Ok(())
}

#[test]
fn sure_source_gives_its_bytes(rt: HostRuntime) -> Result<(), Fail> {
    let mut source = SureSource::new(b"ab".to_vec(rt.alloc())?);
    let want = [Ok(Some(b'a')), Ok(Some(b'b')), Ok(None), Ok(None)];
    assert_eq!(rt; four_reads(&mut source), want);
    Ok(())
}

#[test]
fn mem_sink_takes_what_fits(rt: HostRuntime) -> Result<(), Fail> {
    let alloc = rt.alloc();
    let mut sink = MemSink::new(alloc, 3, [2].to_vec(alloc)?)?;
    assert_eq!(rt; write_all(&mut sink, b"ab"), Ok(()));
    assert_eq!(rt; write_all(&mut sink, b"x"), Err(Failed));
    assert_eq!(rt; write_all(&mut sink, b"cd"), Err(Failed));
    assert_eq!(rt; sink.write(b""), Ok(0));
    assert_eq!(rt; sink.taken(), b"abc".as_slice());
    Ok(())
}

#[test]
fn mem_store_halves_a_failed_put(rt: HostRuntime) -> Result<(), Fail> {
    let alloc = rt.alloc();
    let one = StoredFile::new("one".to_string(alloc)?, b"old".to_vec(alloc)?);
    let mut store = MemStore::new(vec![in alloc; one]?, [2, 3].to_vec(alloc)?);
    assert_eq!(rt; store.put(alloc, "one", b"new"), Ok(()));
    assert_eq!(rt; store.put(alloc, "two", b"12345"), Err(StoreErr::Failed));
    assert_eq!(rt;
        holds(&mut store, alloc, "two", b"12"),
        Err(StoreErr::Failed)
    );
    assert_eq!(rt; holds(&mut store, alloc, "two", b"12"), Ok(true));
    assert_eq!(rt; holds(&mut store, alloc, "one", b"new"), Ok(true));
    assert_eq!(rt; store.files().len(), 2);
    Ok(())
}

#[test]
fn sure_store_keeps_what_is_put(rt: HostRuntime) -> Result<(), Fail> {
    let alloc = rt.alloc();
    let one = StoredFile::new("one".to_string(alloc)?, b"1".to_vec(alloc)?);
    let two = StoredFile::new("two".to_string(alloc)?, b"2".to_vec(alloc)?);
    let mut store = SureStore::new(vec![in alloc; one, two]?);
    assert_eq!(rt; store.put(alloc, "two", b"new"), Ok(()));
    assert_eq!(rt; holds(&mut store, alloc, "two", b"new"), Ok(true));
    assert_eq!(rt; store.get(alloc, "three"), Ok(None));
    assert_eq!(rt; store.files().len(), 2);
    assert_eq!(rt; store.files()[1].bytes(), b"new".as_slice());
    Ok(())
}

#[test]
fn std_source_reads_to_the_end(rt: HostRuntime) {
    let _ = StdSource::new(&rt);
    let mut source = StdSource::over(b"ab".as_slice());
    let want = [Ok(Some(b'a')), Ok(Some(b'b')), Ok(None), Ok(None)];
    assert_eq!(rt; four_reads(&mut source), want);
    assert_eq!(rt; StdSource::over(Broken).read(), Err(Failed));
}

#[test]
fn std_sink_writes_all(rt: HostRuntime) {
    assert_eq!(rt; write_all(&mut StdSink::output(&rt), b"out\n"), Ok(()));
    assert_eq!(rt;
        write_all(&mut StdSink::diagnostics(&rt), b"diag\n"),
        Ok(())
    );
    let mut broken = StdSink::over(Broken);
    assert_eq!(rt; broken.write(b"1"), Err(Failed));
    assert_eq!(rt; broken.write(b"12"), Err(Failed));
    assert_eq!(rt; broken.write(b""), Ok(0));
}

#[test]
fn file_store_keeps_what_is_put(rt: HostRuntime) -> Result<(), Fail> {
    let alloc = rt.alloc();
    let folder = "/tmp/jp_outside_file_store";
    fs::create_dir_all(&rt, "/tmp/jp_outside_file_store/folder")?;
    let mut store = FileStore::new(&rt, folder);
    assert_eq!(rt; store.put(alloc, "one", b"a longer text"), Ok(()));
    assert_eq!(rt; holds(&mut store, alloc, "one", b"a longer text"), Ok(true));
    assert_eq!(rt; store.put(alloc, "one", b"new"), Ok(()));
    assert_eq!(rt; holds(&mut store, alloc, "one", b"new"), Ok(true));
    assert_eq!(rt; store.get(alloc, "absent"), Ok(None));
    assert_eq!(rt; store.get(alloc, "folder"), Err(StoreErr::Failed));
    assert_eq!(rt; store.put(alloc, "folder", b"new"), Err(StoreErr::Failed));
    fs::remove_dir_all(&rt, folder)?;
    Ok(())
}
