ghost use Rattle.std.specs.Prelude.{◌≡◌, ℕ, ◌-◌, ◌^◌, ◌<◌, ◌≤◌, List, length};
ghost use Rattle.std.specs.declared.option.Option.{Option};
ghost use Rattle.outside.specs.Faults.{IsSteady, Rose};
ghost use Rattle.outside.specs.Sink.{IsFault, IsWithinPiece, Takes};

/// The answer of a write.
#[derive(Clone, Copy, Debug, PartialEq, Eq)]
pub enum Took {
    /// So many bytes of the front of the piece were appended. None of a piece that is not empty
    /// counts as a failure.
    Took(usize),
    /// Nothing was appended, and the count of faults rose.
    Failed,
    /// The sink's own want of memory: nothing was appended.
    NoMemory,
}

/// Where bytes go.
///
/// `held` is what the sink holds, where it tells that. `faults` counts the writes that failed, and
/// never falls. `cannot_fail` says that no later write can fail but by want of memory.
pub trait Sink {
    ghost held: { Self → Option (List ℕ) };

    ghost faults: { Self → ℕ };

    ghost cannot_fail: { Self → Type 0 };

    /// Appends bytes of the front of `bytes`.
    fn write(&mut self, bytes: &[u8]) -> Took
        ensures count { IsWithinPiece result (length bytes.now) }
        ensures bytes { Takes (held self.old) (held self.new) result bytes.now }
        ensures later { faults self.old ≤ faults self.new }
        ensures cause { IsFault result (length bytes.now)
            → Rose (faults self.old) (faults self.new) }
        ensures steady { IsSteady cannot_fail faults self.old self.new };

    // so that a count which stays as it was did not rise
    ghost not_spent: { (end : Self) → cannot_fail end → faults end < 2 ^ 64 - 1 };
}
