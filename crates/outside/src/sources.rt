ghost use Rattle.std.specs.Prelude.{◌≡◌, ℕ, ◌-◌, ◌^◌, ◌<◌, ◌≤◌, List, length};
ghost use Rattle.std.specs.declared.option.Option.{Option};
ghost use Rattle.outside.specs.Faults.{IsSteady, Rose};
ghost use Rattle.outside.specs.Source.{IsWithinRoom, Reads};

/// The answer of a read.
#[derive(Clone, Copy, Debug, PartialEq, Eq)]
pub enum Got {
    /// So many bytes were moved to the front of the buffer.
    Got(usize),
    /// Nothing is left.
    End,
    /// Nothing was moved, and the count of faults rose.
    Failed,
}

/// Where bytes come from.
///
/// `left` is what is left to read, where the source tells that. `faults` counts the reads that
/// failed, and never falls. `cannot_fail` says that no later read can fail.
pub trait Source {
    ghost left: { Self → Option (List ℕ) };

    ghost faults: { Self → ℕ };

    ghost cannot_fail: { Self → Type 0 };

    /// Moves bytes from what is left to the front of `into`, at least one where there is room.
    fn read(&mut self, into: &mut [u8]) -> Got
        ensures count { IsWithinRoom result (length into.old) }
        ensures bytes { Reads (left self.old) (left self.new) result into.new }
        ensures later { faults self.old ≤ faults self.new }
        ensures cause { result ≡ Got.Failed → Rose (faults self.old) (faults self.new) }
        ensures steady { IsSteady cannot_fail faults self.old self.new };

    // so that a count which stays as it was did not rise
    ghost not_spent: { (end : Self) → cannot_fail end → faults end < 2 ^ 64 - 1 };
}
