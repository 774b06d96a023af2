ghost use Rattle.std.specs.Prelude.{◌≡◌, false};

use map_model::{Call, Entry, Reply};
use std::marker::Model;

/// A call by its client and its number.
#[derive(Debug, Drop)]
pub struct Caller {
    pub client: u32,
    pub number: u32,
    pub call: Call,
}

impl Model for Caller {
    ghost use Rattle.machine_world.specs.Ledger.{Caller};

    ghost Value = { Caller };

    ghost view = { λ c. record { client = c.client; number = c.number; call = c.call } };
}

impl Caller {
    /// The call's entry with this reply. No mark of a return is kept, so the one here means nothing.
    pub(crate) fn replied(self, reply: Reply) -> Entry
        ensures { result ≡ record {
          client = self.client;
          number = self.number;
          call = self.call;
          reply = reply;
          returned = false;
        } }
    {
        let Caller {
            client,
            number,
            call,
        } = self;
        Entry {
            client,
            number,
            call,
            reply,
            returned: false,
        }
    }
}

/// What a client tells of a call that returns.
#[derive(Debug, Drop)]
pub struct Returned {
    pub caller: Caller,
    pub reply: Reply,
    /// The object that the call has chosen, or 0.
    pub object: u32,
    /// The slot and the version at which the call was beaten, if it was.
    pub beaten: Option<(u32, u64)>,
}
