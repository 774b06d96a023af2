ghost use Rattle.std.specs.Prelude.{◌≡◌, ◌+◌, ◌-◌, ◌/◌, ◌%◌, ◌^◌, ◌≤◌, [], ◌∷◌, false};
ghost use Rattle.machine_world.specs.Events.{also, client_bits};
ghost use Rattle.machine_world.specs.World.{is_among};

use arrayvec::ArrayVec;
use std::marker::Model;

/// The clients of whom something holds, the one that came last first.
#[derive(Clone, Debug, Drop)]
pub struct Clients {
    /// Bit c - 1 for client c.
    bits: u64,
    /// The clients in the order in which they came.
    order: ArrayVec<u32, 64>,
}

impl Model for Clients {
    ghost use Rattle.std.specs.Prelude.{ℕ, List, reverse};
    ghost use Rattle.world_ledger.specs.Clients.{AreClients};

    ghost Value = { List ℕ };

    ghost view = { λ c. reverse c.order.items };

    ghost invariant = { λ c. AreClients c.bits (reverse c.order.items) };
}

impl Clients {
    /// No client.
    pub fn new() -> Clients
        ensures { result ≡ [] }
    {
        Clients {
            bits: 0,
            order: ArrayVec::new(),
        }
    }

    /// Bit c - 1 for each client c of these.
    pub fn bits(&self) -> u64
        ensures { result ≡ client_bits self.now }
    {
        self.bits
    }

    /// Whether the client is one of these.
    pub fn has(&self, client: u32) -> bool
        ensures { result ≡ is_among client self.now }
    {
        let bits = self.bits;
        if client < 1 {
            return false;
        }
        if client > 64 {
            return false;
        }
        (bits >> (client - 1)) % 2 == 1
    }

    /// The client is one of these from now on.
    pub fn add(&mut self, client: u32)
        requires least { 1 ≤ client }
        requires most { client ≤ 64 }
        ensures clients { self.new ≡ also client self.old }
        ensures first { is_among client self.old ≡ false → self.new ≡ client ∷ self.old }
    {
        if !self.has(client) {
            self.bits = with_bit(self.bits, client);
            self.order.push(client);
        }
    }
}

// The bit of a client that has none is set.
fn with_bit(bits: u64, client: u32) -> u64
    requires least { 1 ≤ client }
    requires most { client ≤ 64 }
    requires clear { bits / 2 ^ (client - 1) % 2 ≡ 0 }
    ensures { result ≡ bits + 2 ^ (client - 1) }
{
    bits + bit_of(client)
}

fn bit_of(client: u32) -> u64
    requires least { 1 ≤ client }
    requires most { client ≤ 64 }
    ensures { result ≡ 2 ^ (client - 1) }
{
    1 << (client - 1)
}
