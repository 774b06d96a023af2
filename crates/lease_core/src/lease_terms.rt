ghost use Rattle.std.specs.Prelude.{◌≡◌, MatchOption};
ghost use Rattle.lease_core.specs.Terms.{AreTerms, agreed};

use std::marker::Model;

/// No lease is longer than this.
pub const LONGEST: u64 = 4_294_967_295;

/// What the master and its clients agree on. Moments are whole numbers in one unit of time.
#[derive(Clone, Copy, Debug)]
pub struct Terms {
    /// How long a lease lasts, 1 to `LONGEST`.
    pub length: u64,
    /// By how much two clocks differ at most, less than half of the length.
    pub error: u64,
}

impl Model for Terms {
    ghost use Rattle.lease_core.specs.Terms.{Agreed, AreTerms, agreed};

    ghost Value = { Agreed };

    ghost view = { λ t. agreed t.length t.error };

    ghost invariant = { λ t. AreTerms (agreed t.length t.error) };

    ghost inverse = { λ v. record { length = v.length; error = v.error } };
}

/// These terms, unless the length is out of its limits or the error is too large for it.
pub fn terms_of(length: u64, error: u64) -> Option<Terms>
    ensures { MatchOption result (¬ AreTerms (agreed length error))
        (λ terms. (terms ≡ agreed length error) × AreTerms terms) }
{
    if length == 0 || length > LONGEST {
        return None;
    }
    if error > (length - 1) / 2 {
        return None;
    }
    Some(Terms { length, error })
}
