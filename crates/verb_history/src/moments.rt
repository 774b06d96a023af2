ghost use Rattle.std.specs.Prelude.{◌≡◌, IfOk};
ghost use Rattle.map_model.specs.Trace.{is_of};
ghost use Rattle.verb_history.specs.Moments.{moment_of};

use map_model::{Call, Reply};
use std::alloc::AllocError;

/// What is seen of a client from outside.
#[derive(Debug, Drop)]
pub enum Moment {
    /// It makes its call of this number.
    Invoked {
        client: u32,
        number: u32,
        call: Call,
    },
    /// It gets the reply to its call of this number.
    Returned {
        client: u32,
        number: u32,
        reply: Reply,
    },
    /// It stops for good.
    Stopped {
        client: u32,
    },
}

impl Moment {
    /// Whether the moment is of the client's call of this number.
    pub fn is_of(&self, client: u32, number: u32) -> bool
        ensures { result ≡ is_of client number (moment_of self.now) }
    {
        match self {
            Moment::Invoked {
                client: caller,
                number: called,
                ..
            }
            | Moment::Returned {
                client: caller,
                number: called,
                ..
            } => *caller == client && *called == number,
            Moment::Stopped { .. } => false,
        }
    }

    /// An equal value with memory of its own.
    pub fn copy(&self) -> Result<Self, AllocError>
        ensures { IfOk result (λ copy. copy ≡ self.now) }
    {
        match self {
            Moment::Invoked {
                client,
                number,
                call,
            } => Ok(Moment::Invoked {
                client: *client,
                number: *number,
                call: call.copy()?,
            }),
            Moment::Returned {
                client,
                number,
                reply,
            } => Ok(Moment::Returned {
                client: *client,
                number: *number,
                reply: reply.copy()?,
            }),
            Moment::Stopped { client } => Ok(Moment::Stopped { client: *client }),
        }
    }
}
