ghost use Rattle.std.specs.Prelude.{◌≡◌};

/// A line that tells one event between a client and the master. Each ends with the client's clock `p`
/// and the master's clock `m` at that event.
#[derive(Clone, Copy, Debug, PartialEq, Eq)]
pub enum LeaseLine {
    /// `ask c p m`: the client asks for a lease.
    Ask {
        client: u32,
        p: u32,
        m: u32,
    },
    /// `grant c k p m`: the master grants the client's k-th ask.
    Grant {
        client: u32,
        ask: u32,
        p: u32,
        m: u32,
    },
    /// `take c k p m`: the grant of the client's k-th ask reaches it.
    Take {
        client: u32,
        ask: u32,
        p: u32,
        m: u32,
    },
    /// `verb c p m`: the client acts.
    Verb {
        client: u32,
        p: u32,
        m: u32,
    },
    /// `fence c p m`: the master is to call the client stopped.
    Fence {
        client: u32,
        p: u32,
        m: u32,
    },
}

impl LeaseLine {
    ghost use Rattle.lease_core.specs.Line.{client_clock, client_of, master_clock};

    /// The number of the client.
    pub fn client(&self) -> u32
        ensures { result ≡ client_of self.now }
    {
        match *self {
            LeaseLine::Ask { client, .. }
            | LeaseLine::Grant { client, .. }
            | LeaseLine::Take { client, .. }
            | LeaseLine::Verb { client, .. }
            | LeaseLine::Fence { client, .. } => client,
        }
    }

    /// The client's clock.
    pub fn client_clock(&self) -> u32
        ensures { result ≡ client_clock self.now }
    {
        match *self {
            LeaseLine::Ask { p, .. }
            | LeaseLine::Grant { p, .. }
            | LeaseLine::Take { p, .. }
            | LeaseLine::Verb { p, .. }
            | LeaseLine::Fence { p, .. } => p,
        }
    }

    /// The master's clock.
    pub fn master_clock(&self) -> u32
        ensures { result ≡ master_clock self.now }
    {
        match *self {
            LeaseLine::Ask { m, .. }
            | LeaseLine::Grant { m, .. }
            | LeaseLine::Take { m, .. }
            | LeaseLine::Verb { m, .. }
            | LeaseLine::Fence { m, .. } => m,
        }
    }
}
