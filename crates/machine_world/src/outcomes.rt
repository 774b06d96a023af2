use machine::client_call::Step;
use machine::joining::Joined;
use machine::recovery::Recovering;
use machine::settling::Settled;
use verb_words::{Answer, Verb};

/// Who takes a verb.
#[derive(Clone, Copy, Debug, PartialEq, Eq)]
pub enum Actor {
    Client(u32),
    Master,
}

/// A verb that was taken, and its answer.
#[derive(Clone, Copy, Debug, PartialEq, Eq)]
pub struct Seen {
    pub actor: Actor,
    pub verb: Verb,
    pub answer: Answer,
}

/// What an event came to.
#[derive(Clone, Copy, Debug, PartialEq, Eq)]
pub enum Happened {
    /// The client has this number.
    Registered(u32),
    /// The call has this number.
    Invoked(u32),
    Stepped { seen: Seen, step: Step },
    Stopped,
    Lost,
    Filled,
    Chosen,
    Recovering { seen: Seen, step: Recovering },
    Settling { seen: Seen, step: Settled },
    Joining { seen: Seen, step: Joined },
}

/// Why an event is refused: nothing has changed. The numbers are those of the client, the node or the
/// region, lengths are in bytes, and a word is the epoch word.
#[derive(Clone, Copy, Debug, PartialEq, Eq)]
pub enum Refused {
    /// All clients are registered; how many there are.
    Clients(u32),
    /// The client is not registered.
    Unknown(u32),
    /// The client is stopped.
    Stopped(u32),
    /// The client is inside a call.
    Busy(u32),
    /// The key's length is not 1 to 64.
    Key(usize),
    /// The value is too long.
    Value(usize),
    /// The client has made all of its calls.
    Spent(u32),
    /// The client is between calls.
    Idle(u32),
    /// The node is not lost.
    Live(u32),
    /// The client is not stopped.
    Running(u32),
    /// The client is recovered.
    Recovered(u32),
    /// There is no such node.
    Node(u32),
    /// The node is lost already.
    Gone(u32),
    /// The region would be left without a live replica.
    LastLive(u32),
    /// The node is in the view.
    Masked(u32),
    /// The epoch is sealed.
    Sealed(u64),
    /// There is no task.
    NoTask,
    NoMemory,
}
