ghost use Rattle.std.specs.Prelude.{◌≡◌, ℕ, List, Option, IfOk, OnErr};
ghost use Rattle.jp_outside.specs.Faults.{HasCause};
ghost use Rattle.jp_outside.specs.Bytes.{ReadsFirst};

/// A device could not do what it was asked to.
#[derive(Clone, Copy, Debug, PartialEq, Eq)]
pub struct Failed;

/// Where bytes come from, one at a time.
pub trait Source {
    /// The bytes still to come, where the source tells them. One that tells none goes on so.
    ghost left: { Self → Option (List ℕ) };

    /// How often the source has failed, counted up to the greatest `u64`.
    ghost faults: { Self → ℕ };

    /// Takes the next byte, or answers `None` at the end. A fault takes nothing.
    fn read(&mut self) -> Result<Option<u8>, Failed>
        ensures byte { IfOk result (λ byte. ReadsFirst (left self.old) byte (left self.new)) }
        ensures kept { OnErr result (left self.new ≡ left self.old) }
        ensures cause { HasCause (faults self.old) (faults self.new) result };
}
