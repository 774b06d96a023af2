/// What is wrong with an entry of the list, in the order in which it is tested.
#[derive(Clone, Copy, Debug, PartialEq, Eq)]
pub enum Fault {
    /// Its call is not in the trace.
    Unknown,
    /// Its call stands earlier in the list.
    Double,
    /// Its call, its reply or its mark `open` is not what the trace says. A call that has not returned
    /// has the mark, and may have any reply.
    Differs,
    /// The call of a later entry returned before its call was invoked.
    Order,
    /// Its reply is not that of a map after the entries before.
    Reply,
}

/// What is said of an output.
#[derive(Clone, Copy, Debug, PartialEq, Eq)]
pub enum Verdict {
    /// The list is a linearization of the trace, with this many entries.
    Linear(u32),
    /// The first line that no client can give after the lines before it, counted from 1.
    Trace {
        line: u32,
    },
    /// The first entry at fault, counted from 1, its first fault, and its call.
    Entry {
        at: u32,
        fault: Fault,
        client: u32,
        number: u32,
    },
    /// Of the returned calls that are not in the list, the one with the first `ended` line.
    Missing {
        client: u32,
        number: u32,
    },
}
