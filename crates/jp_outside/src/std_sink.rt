ghost use Rattle.std.specs.Prelude.{◌≡◌, None};

use crate::fault_count::FaultCount;
use crate::{Failed, Sink};
use std::io::{Stderr, Stdout, Write};

/// Standard output, or the diagnostics. It doesn't tell what it took.
#[derive(Drop)]
pub struct StdSink<W> {
    output: W,
    faults: FaultCount,
}

impl StdSink<Stdout> {
    /// The program's standard output.
    pub fn output(rt: &HostRuntime) -> StdSink<Stdout> {
        StdSink::over(rt.stdout())
    }
}

impl StdSink<Stderr> {
    /// The program's standard error.
    pub fn diagnostics(rt: &HostRuntime) -> StdSink<Stderr> {
        StdSink::over(rt.stderr())
    }
}

impl<W: Write> StdSink<W> {
    /// What a writer takes.
    pub(crate) fn over(output: W) -> StdSink<W> {
        StdSink {
            output,
            faults: FaultCount::new(),
        }
    }
}

impl<W: Write> Sink for StdSink<W> {
    ghost taken = { λ _. None };

    ghost faults = { λ s. s.faults.count };

    fn write(&mut self, bytes: &[u8]) -> Result<usize, Failed> {
        match self.output.write(bytes) {
            Ok(n) if n > 0 || bytes.is_empty() => Ok(n),
            _ => self.faults.fail(Failed),
        }
    }
}
