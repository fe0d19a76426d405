ghost use Rattle.std.specs.Prelude.{◌≡◌, OnOk};
ghost use Rattle.std.specs.Io.KnownBytes.{append_known};
ghost use Rattle.jp_outside.specs.Faults.{HasCause};
ghost use Rattle.jp_outside.specs.Bytes.{AppendsFront};

use crate::{Failed, Sink};

/// Writes all the bytes, or a front part of them before a fault.
pub fn write_all<O: Sink>(out: &mut O, bytes: &[u8]) -> Result<(), Failed>
    ensures whole { OnOk result (O.taken out.new ≡ append_known (O.taken out.old) bytes.now) }
    ensures front { AppendsFront (O.taken out.old) (O.taken out.new) bytes.now }
    ensures cause { HasCause (O.faults out.old) (O.faults out.new) result }
{
    let mut rest = bytes;
    while !rest.is_empty() {
        let n = out.write(rest)?;
        rest = &rest[n..];
    }
    Ok(())
}
