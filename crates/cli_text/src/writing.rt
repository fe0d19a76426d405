ghost use Rattle.std.specs.Prelude.{◌≡◌, ◌++◌, OnOk};
ghost use Rattle.std.specs.Io.KnownBytes.{append_known};
ghost use Rattle.jp_outside.specs.Faults.{HasCause};
ghost use Rattle.jp_outside.specs.Bytes.{AppendsFront};

use jp_outside::{Failed, Sink, write_all};

/// Writes three parts, one after the other.
pub(crate) fn write_parts<D: Sink>(
    diag: &mut D,
    first: &[u8],
    second: &[u8],
    third: &[u8],
) -> Result<(), Failed>
    ensures whole { OnOk result (D.taken diag.new ≡ append_known (D.taken diag.old) (first.now ++ second.now ++ third.now)) }
    ensures front { AppendsFront (D.taken diag.old) (D.taken diag.new) (first.now ++ second.now ++ third.now) }
    ensures cause { HasCause (D.faults diag.old) (D.faults diag.new) result }
{
    write_all(diag, first)?;
    write_all(diag, second)?;
    write_all(diag, third)
}
