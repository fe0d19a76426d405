//! `jpred`: the command line over the files of the current folder and the standard streams.
#![tactic(auto)]

use jp_outside::{FileStore, Sink, StdSink, StdSource, write_all};
use jpred_cli::jpred;
use std::io::ErrorKind;
use std::process::ExitCode;
use std::{env, io};

const OUT_OF_MEMORY: u8 = 12;

const DIAGNOSTICS_FAILED: u8 = 9;

fn main(rt: HostRuntime) -> ExitCode {
    let alloc = rt.alloc();
    let mut store = FileStore::new(&rt, ".");
    let mut input = StdSource::new(&rt);
    let mut out = StdSink::output(&rt);
    let mut diag = StdSink::diagnostics(&rt);
    let words = match words(&rt) {
        Ok(words) => words,
        Err(error) if error.kind() == ErrorKind::OutOfMemory => {
            return ExitCode::from(want_of_memory(&mut diag));
        }
        // Words that aren't UTF-8 ask for nothing, as no words do.
        Err(_) => Vec::new(alloc),
    };
    let status = jpred(alloc, &words, &mut store, &mut input, &mut out, &mut diag);
    ExitCode::from(status)
}

/// The words behind the program's name.
fn words(rt: &HostRuntime) -> io::Result<Vec<String>> {
    let words = env::args(rt)?.skip(1).collect(rt.alloc())?;
    Ok(words)
}

/// The line and the status where there is no memory even for the words.
fn want_of_memory(diag: &mut impl Sink) -> u8 {
    match write_all(diag, b"want of memory\n") {
        Ok(()) => OUT_OF_MEMORY,
        Err(_) => DIAGNOSTICS_FAILED,
    }
}
