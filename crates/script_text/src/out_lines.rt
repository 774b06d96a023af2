use crate::byte_text::Text;
use crate::scripts::CallText;

/// A reply as a line names it.
#[derive(Debug, Drop)]
pub enum ReplyText {
    Done,
    Value(Text),
    Absent,
    Full,
    NoSpace { class: u32, client: u32, begin: u64 },
}

/// Why a call or a task is not done yet.
#[derive(Clone, Copy, Debug, PartialEq, Eq)]
pub enum NotYetText {
    /// The epoch word that was read as sealed.
    Sealed(u64),
    /// The node that is lost.
    Lost(u32),
    /// A slot that still has the word that is to be replaced.
    Unchanged { slot: u32, word: u64 },
}

/// Why an event is refused, with the number or the word that the line names.
#[derive(Clone, Copy, Debug, PartialEq, Eq)]
pub enum RefusalText {
    Clients(u32),
    Unknown(u32),
    Stopped(u32),
    Busy(u32),
    Key(u32),
    Value(u32),
    Spent(u32),
    Idle(u32),
    Live(u32),
    Running(u32),
    Recovered(u32),
    Node(u32),
    Gone(u32),
    LastLive(u32),
    Task,
    Masked(u32),
    Sealed(u64),
    /// A refusal of any other words; it comes from reading alone, and is written as `refused`.
    Other,
}

/// A line of the output. The fields are the words of the line that change, in order. An `actor` of
/// `None` is the master, `m`, and an `answer` of `None` is `lost`.
#[derive(Debug, Drop)]
pub enum OutLine {
    /// `client c`
    Client(u32),
    /// `called c n CALL`
    Called {
        client: u32,
        number: u32,
        call: CallText,
    },
    /// `ended c n REPLY`
    Ended {
        client: u32,
        number: u32,
        reply: ReplyText,
    },
    /// `notyet a WHY`
    NotYet {
        actor: Option<u32>,
        why: NotYetText,
    },
    /// `took a n`
    Took {
        actor: Option<u32>,
        verbs: u32,
    },
    /// `stopped c`
    Stopped(u32),
    /// `lost i`
    Lost(u32),
    /// `task settle`
    TaskSettle,
    /// `task recover c`
    TaskRecover(u32),
    /// `recovered c`
    Recovered(u32),
    /// `opened w`
    Opened(u64),
    /// `waiting c w`
    Waiting {
        client: u32,
        begin: u64,
    },
    /// `v a read N A = W`
    VerbRead {
        actor: Option<u32>,
        node: u32,
        at: u32,
        answer: Option<u64>,
    },
    /// `v a write N A W`, with ` = lost` where it was refused
    VerbWrite {
        actor: Option<u32>,
        node: u32,
        at: u32,
        word: u64,
        lost: bool,
    },
    /// `v a swap N A E F = W`
    VerbSwap {
        actor: Option<u32>,
        node: u32,
        at: u32,
        expect: u64,
        fresh: u64,
        answer: Option<u64>,
    },
    /// `v a add N A D = W`
    VerbAdd {
        actor: Option<u32>,
        node: u32,
        at: u32,
        amount: u64,
        answer: Option<u64>,
    },
    /// `w N A W`: a word of a dump
    Word {
        node: u32,
        at: u32,
        word: u64,
    },
    /// `dumped n`
    Dumped(u32),
    /// `blocks unused n owned n awaiting n released n`
    Blocks {
        unused: u32,
        owned: u32,
        awaiting: u32,
        released: u32,
    },
    /// `objects stock n present n held n`
    Objects {
        stock: u32,
        present: u32,
        held: u32,
    },
    /// `history n`: n entries follow
    History(u32),
    /// `h c n CALL REPLY`, with ` open` where the call has not returned
    Entry {
        client: u32,
        number: u32,
        call: CallText,
        reply: ReplyText,
        unreturned: bool,
    },
    /// `refused WORDS`
    Refused(RefusalText),
    /// `end`: the last line
    End,
    /// `filled i`
    Filled(u32),
    /// `joined i`
    Joined(u32),
    /// `task join i`
    TaskJoin(u32),
}
