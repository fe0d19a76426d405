ghost use Rattle.std.specs.Prelude.{◌≡◌, None};

use crate::fault_count::FaultCount;
use crate::{Failed, Source};
use std::io::{Read, Stdin};

/// Standard input, a byte at a time. It doesn't tell what is to come.
#[derive(Drop)]
pub struct StdSource<R = Stdin> {
    input: R,
    faults: FaultCount,
}

impl StdSource<Stdin> {
    /// The program's standard input.
    pub fn new(rt: &HostRuntime) -> StdSource<Stdin> {
        StdSource::over(rt.stdin())
    }
}

impl<R: Read> StdSource<R> {
    /// What a reader gives.
    pub(crate) fn over(input: R) -> StdSource<R> {
        StdSource {
            input,
            faults: FaultCount::new(),
        }
    }
}

impl<R: Read> Source for StdSource<R> {
    ghost left = { λ _. None };

    ghost faults = { λ s. s.faults.count };

    fn read(&mut self) -> Result<Option<u8>, Failed> {
        let next = self.input.by_ref().bytes().next();
        match next {
            None => Ok(None),
            Some(Ok(byte)) => Ok(Some(byte)),
            Some(Err(_)) => self.faults.fail(Failed),
        }
    }
}
