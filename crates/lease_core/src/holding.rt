ghost use Rattle.std.specs.Prelude.{◌≡◌, ◌<◌, ◌^◌, nat_lt};
ghost use Rattle.lease_core.specs.Holder.{new_holder, taken};

use crate::lease_terms::Terms;
use std::marker::Model;

/// What a client holds of its leases: until when it may act.
#[derive(Drop)]
pub struct Holder {
    terms: Terms,
    until: u64,
}

impl Model for Holder {
    ghost use Rattle.lease_core.specs.Holder.{Held};

    ghost Value = { Held };

    ghost view = { λ h. record { terms = h.terms; until = h.until } };
}

impl Holder {
    /// Holds no lease yet.
    pub fn new(terms: Terms) -> Holder
        ensures { result ≡ new_holder terms }
    {
        Holder { terms, until: 0 }
    }

    /// Takes a lease that was asked for at this moment of the client's clock. It counts from the
    /// asking, and twice the clocks' error is left off: once for the asking, once for the end.
    pub fn take(&mut self, asked: u64)
        requires { asked < 2 ^ 62 }
        ensures { self.new ≡ taken self.old asked }
    {
        let until = asked + self.terms.length - 2 * self.terms.error;
        self.until = self.until.max(until);
    }

    /// Until when the client may act, by its own clock.
    pub fn until(&self) -> u64
        ensures { result ≡ self.now.until }
    {
        self.until
    }

    /// Whether the client may act at this moment of its clock.
    pub fn lawful(&self, now: u64) -> bool
        ensures { result ≡ nat_lt now self.now.until }
    {
        now < self.until
    }
}
