ghost use Rattle.std.specs.Prelude.{◌≡◌, OnOk};
ghost use Rattle.std.specs.Io.KnownBytes.{append_known};
ghost use Rattle.jp_outside.specs.Faults.{HasCause};
ghost use Rattle.jp_outside.specs.Bytes.{AppendsFront};
ghost use Rattle.cli_text.specs.Lines.{status_of, line_of, Reports};

use crate::Ending;
use crate::refusal_line::write_refusal;
use crate::writing::write_parts;
use jp_outside::{Failed, Sink, write_all};

const USAGE: &[u8] =
    b"usage: jpred compile U.jp | link M | run [--steps N] M | go [--steps N] M U.jp .. | gen K U.jp\n";

/// Writes the line of an ending to the diagnostics, and answers the status: that of the ending, or 9 where the
/// line can't be written whole. It takes no memory.
pub fn report<D: Sink>(diag: &mut D, ending: &Ending, main: &str, unit: &str) -> u8
    ensures { Reports ending.now main.now unit.now result (D.taken diag.old) (D.taken diag.new) (D.faults diag.old) (D.faults diag.new) }
{
    match ending {
        Ending::Done => 0,
        _ => match write_line(diag, ending, main.as_bytes(), unit.as_bytes()) {
            Ok(()) => status(ending),
            Err(Failed) => 9,
        },
    }
}

fn status(ending: &Ending) -> u8
    ensures { result ≡ status_of ending.now }
{
    match ending {
        Ending::Done => 0,
        Ending::NoCommand => 2,
        Ending::Refused(_) => 3,
        Ending::Missing => 6,
        Ending::UnitFault | Ending::ClassFault => 8,
        Ending::OutputFault => 9,
        Ending::OutOfMemory => 12,
    }
}

fn write_line<D: Sink>(
    diag: &mut D,
    ending: &Ending,
    main: &[u8],
    unit: &[u8],
) -> Result<(), Failed>
    ensures whole { OnOk result (D.taken diag.new ≡ append_known (D.taken diag.old) (line_of ending.now main.now unit.now)) }
    ensures front { AppendsFront (D.taken diag.old) (D.taken diag.new) (line_of ending.now main.now unit.now) }
    ensures cause { HasCause (D.faults diag.old) (D.faults diag.new) result }
{
    match ending {
        Ending::Done => write_all(diag, b""),
        Ending::NoCommand => write_all(diag, USAGE),
        Ending::Refused(refusal) => write_refusal(diag, unit, refusal),
        Ending::Missing => write_parts(diag, b"missing ", unit, b"\n"),
        Ending::UnitFault => write_parts(diag, b"store fault ", unit, b"\n"),
        Ending::ClassFault => write_parts(diag, b"store fault ", main, b".class\n"),
        Ending::OutputFault => write_all(diag, b"output fault\n"),
        Ending::OutOfMemory => write_all(diag, b"want of memory\n"),
    }
}
