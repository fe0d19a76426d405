ghost use Rattle.std.specs.Prelude.{◌≡◌, Err};
ghost use Rattle.jp_outside.specs.Faults.{Rose};

/// How often a device has failed, counted up to the greatest `u64`.
#[derive(Drop)]
pub(crate) struct FaultCount {
    count: u64,
}

impl FaultCount {
    /// No fault yet.
    pub(crate) fn new() -> FaultCount
        ensures { result.count ≡ 0 }
    {
        FaultCount { count: 0 }
    }

    /// Counts one more fault, and answers with its error.
    pub(crate) fn fail<T, E>(&mut self, error: E) -> Result<T, E>
        ensures answer { result ≡ Err error }
        ensures rose { Rose self.old.count self.new.count }
    {
        self.count = self.count.saturating_add(1);
        Err(error)
    }
}
