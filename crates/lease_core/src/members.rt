ghost use Rattle.std.specs.Prelude.{◌≡◌, ◌<◌, ◌≤◌, ◌^◌, ◌+◌, IsTrue, OnOk, OnErr, IfOk, nat_lt, length};
ghost use Rattle.lease_core.specs.Run.{ask_of, asking, granting, has_ask, new_member, passing, taking};

use crate::holding::Holder;
use crate::lease_terms::Terms;
use std::alloc::{AllocError, Global};
use std::marker::Model;

/// An ask for a lease.
#[derive(Clone, Copy, Debug)]
pub struct Ask {
    /// When it was made, by the client's clock.
    pub at: u32,
    pub granted: bool,
}

/// A client of a run.
#[derive(Drop)]
pub struct Member {
    /// Its clock at its last accepted line.
    clock: u32,
    /// Its asks in order, which are counted from 1.
    asks: Vec<Ask>,
    holder: Holder,
}

impl Model for Member {
    ghost use Rattle.lease_core.specs.Run.{Member};

    ghost Value = { Member };

    ghost view = { λ m. record { clock = m.clock; asks = m.asks.items; holder = m.holder } };
}

impl Member {
    pub fn new(alloc: Global, terms: Terms) -> Member
        ensures { result ≡ new_member terms }
    {
        Member {
            clock: 0,
            asks: Vec::new(alloc),
            holder: Holder::new(terms),
        }
    }

    pub fn clock(&self) -> u32
        ensures { result ≡ self.now.clock }
    {
        self.clock
    }

    pub fn has_ask(&self, ask: u32) -> bool
        ensures { result ≡ has_ask self.now ask }
    {
        ask > 0 && ask as usize <= self.asks.len()
    }

    pub fn is_granted(&self, ask: u32) -> bool
        requires { IsTrue (has_ask self.now ask) }
        ensures { result ≡ (ask_of self.now ask).granted }
    {
        self.asks[ask as usize - 1].granted
    }

    /// The number of a new ask.
    pub fn ask(&mut self, now: u32) -> Result<u64, AllocError>
        ensures number { IfOk result (λ ask. ask ≡ length self.old.asks + 1) }
        ensures after { OnOk result (self.new ≡ asking self.old now) }
        ensures err { OnErr result (self.new ≡ self.old) }
    {
        self.asks.push(Ask {
            at: now,
            granted: false,
        })?;
        self.clock = now;
        Ok(self.asks.len() as u64)
    }

    /// Notes that an ask was granted.
    pub fn grant(&mut self, ask: u32, now: u32)
        requires { IsTrue (has_ask self.old ask) }
        ensures { self.new ≡ granting self.old ask now }
    {
        self.asks[ask as usize - 1].granted = true;
        self.clock = now;
    }

    /// Takes the lease of a granted ask, and tells until when the client may act.
    pub fn take(&mut self, ask: u32, now: u32) -> u64
        requires { IsTrue (has_ask self.old ask) }
        ensures until { result ≡ self.new.holder.until }
        ensures after { self.new ≡ taking self.old ask now }
    {
        self.holder.take(u64::from(self.asks[ask as usize - 1].at));
        self.clock = now;
        self.holder.until()
    }

    /// Whether the client may act.
    pub fn act(&mut self, now: u32) -> bool
        ensures lawful { result ≡ nat_lt now self.old.holder.until }
        ensures after { self.new ≡ passing self.old now }
    {
        self.clock = now;
        self.holder.lawful(u64::from(now))
    }

    /// An event at which only the clock moves.
    pub fn pass(&mut self, now: u32)
        ensures { self.new ≡ passing self.old now }
    {
        self.clock = now;
    }
}
