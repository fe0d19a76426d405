ghost use Rattle.std.specs.Prelude.{◌≡◌, ℕ, List, Option, take, IfOk, OnErr};
ghost use Rattle.std.specs.Io.KnownBytes.{append_known};
ghost use Rattle.jp_outside.specs.Faults.{HasCause};
ghost use Rattle.jp_outside.specs.Bytes.{IsCountOf};

use crate::Failed;

/// Where bytes go.
pub trait Sink {
    /// The bytes that the sink has taken, where it tells them. One that tells none goes on so.
    ghost taken: { Self → Option (List ℕ) };

    /// How often the sink has failed, counted up to the greatest `u64`.
    ghost faults: { Self → ℕ };

    /// Takes some first bytes of a piece and answers how many: at least one, where the piece has one.
    /// A fault takes nothing.
    fn write(&mut self, bytes: &[u8]) -> Result<usize, Failed>
        ensures count { IfOk result (λ n. IsCountOf n bytes.now) }
        ensures added { IfOk result (λ n. taken self.new ≡ append_known (taken self.old) (take n bytes.now)) }
        ensures kept { OnErr result (taken self.new ≡ taken self.old) }
        ensures cause { HasCause (faults self.old) (faults self.new) result };
}
