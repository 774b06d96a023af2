ghost use Rattle.std.specs.Prelude.{◌≡◌, ◌<◌, ◌^◌};
ghost use Rattle.lease_core.specs.Book.{IsClient, after_fence, after_grant, empty_book, fence_of, grant_of};

use crate::lease_terms::Terms;
use std::marker::Model;

/// Clients have the numbers 1 to this one.
pub const CLIENTS: usize = 64;

/// What the master answers where a client asks for a lease.
#[derive(Clone, Copy, Debug, PartialEq, Eq)]
pub enum Grant {
    /// The last of the client's leases is over at this moment of the master's clock.
    Until(u64),
    /// The client is fenced, and gets no lease any more.
    Fenced,
}

/// What the master answers where a client is to be called stopped.
#[derive(Clone, Copy, Debug, PartialEq, Eq)]
pub enum Fence {
    /// From now on the client is fenced.
    Fenced,
    /// A lease of the client lasts until this later moment.
    Early(u64),
    /// The client was fenced before.
    Already,
}

/// The master's book of leases: when the last lease of each client is over, and which clients are
/// fenced.
#[derive(Drop)]
pub struct Book {
    terms: Terms,
    expiries: [u64; CLIENTS],
    fenced: [bool; CLIENTS],
}

impl Model for Book {
    ghost use Rattle.lease_core.specs.Book.{Booked};

    ghost Value = { Booked };

    ghost view = { λ b. record { terms = b.terms; expiries = b.expiries; fenced = b.fenced } };
}

impl Book {
    /// Nothing was granted yet, and nobody is fenced.
    pub fn new(terms: Terms) -> Book
        ensures { result ≡ empty_book terms }
    {
        Book {
            terms,
            expiries: [0; CLIENTS],
            fenced: [false; CLIENTS],
        }
    }

    /// Grants a client a lease from this moment of the master's clock on.
    pub fn grant(&mut self, client: u32, now: u64) -> Grant
        requires client { IsClient client }
        requires moment { now < 2 ^ 62 }
        ensures answer { result ≡ grant_of self.old client now }
        ensures after { self.new ≡ after_grant self.old client now }
    {
        let place = client as usize - 1;
        if self.fenced[place] {
            return Grant::Fenced;
        }
        let expiry = self.expiries[place].max(now + self.terms.length);
        self.expiries[place] = expiry;
        Grant::Until(expiry)
    }

    /// Calls a client stopped at this moment of the master's clock, unless a lease of it lasts still.
    pub fn fence(&mut self, client: u32, now: u64) -> Fence
        requires { IsClient client }
        ensures answer { result ≡ fence_of self.old client now }
        ensures after { self.new ≡ after_fence self.old client now }
    {
        let place = client as usize - 1;
        if self.fenced[place] {
            return Fence::Already;
        }
        let expiry = self.expiries[place];
        if now < expiry {
            return Fence::Early(expiry);
        }
        self.fenced[place] = true;
        Fence::Fenced
    }
}
