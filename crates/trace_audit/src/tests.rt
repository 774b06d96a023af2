use super::*;
use script_text::{CallText, OutLine, ReplyText, Text};
use std::alloc::{AllocError, Global};

// The lines of an output that an audit looks at, and one that it does not.
#[derive(Clone, Copy)]
enum Told {
    Called(u32, u32, Ask),
    Ended(u32, u32, Answer),
    Stopped(u32),
    Lost(u32),
    History(u32),
    Listed(u32, u32, Ask, Answer),
    // An entry with the mark `open`.
    Open(u32, u32, Ask, Answer),
    End,
}

#[derive(Clone, Copy)]
enum Ask {
    Put(&'static [u8], &'static [u8]),
    Get(&'static [u8]),
    Delete(&'static [u8]),
}

#[derive(Clone, Copy)]
enum Answer {
    Done,
    Value(&'static [u8]),
    Absent,
    Full,
    NoSpace(u32, u32, u64),
}

use Answer::{Absent, Done, Full, NoSpace, Value};
use Ask::{Delete, Get, Put};
use Told::{Called, End, Ended, History, Listed, Lost, Open, Stopped};

const PUT: Ask = Put(b"a", b"1");

const GET: Ask = Get(b"a");

// An output is what its clients did, and then its last lines.
const ROWS: &[(&[Told], &[Told], Verdict)] = &[
    (&[], &[History(0), End], Verdict::Linear(0)),
    (
        ONE_CLIENT,
        &[
            History(4),
            Listed(1, 1, PUT, Done),
            Listed(1, 2, GET, Value(b"1")),
            Listed(1, 3, Delete(b"a"), Done),
            Listed(1, 4, GET, Absent),
            End,
        ],
        Verdict::Linear(4),
    ),
    (
        ONE_CLIENT,
        &[
            History(4),
            Listed(1, 1, PUT, Done),
            Listed(1, 2, GET, Value(b"2")),
            Listed(1, 3, Delete(b"a"), Done),
            Listed(1, 4, GET, Absent),
            End,
        ],
        Verdict::Entry {
            at: 2,
            fault: Fault::Differs,
            client: 1,
            number: 2,
        },
    ),
    (
        &[
            Called(1, 1, PUT),
            Ended(1, 1, Done),
            Called(1, 2, GET),
            Ended(1, 2, Value(b"2")),
        ],
        &[
            History(2),
            Listed(1, 1, PUT, Done),
            Listed(1, 2, GET, Value(b"2")),
            End,
        ],
        Verdict::Entry {
            at: 2,
            fault: Fault::Reply,
            client: 1,
            number: 2,
        },
    ),
    // The two entries exchanged, and the later one wrong besides.
    (
        TWO_CALLS,
        &[
            History(2),
            Listed(1, 2, GET, Value(b"1")),
            Listed(1, 1, PUT, Done),
            End,
        ],
        Verdict::Entry {
            at: 1,
            fault: Fault::Order,
            client: 1,
            number: 2,
        },
    ),
    (
        TWO_CALLS,
        &[
            History(2),
            Listed(1, 2, GET, Value(b"1")),
            Open(1, 1, PUT, Full),
            End,
        ],
        Verdict::Entry {
            at: 1,
            fault: Fault::Order,
            client: 1,
            number: 2,
        },
    ),
    // A later entry that was not called has no return.
    (
        TWO_CALLS,
        &[
            History(2),
            Listed(1, 1, PUT, Done),
            Listed(3, 1, GET, Value(b"1")),
            End,
        ],
        Verdict::Entry {
            at: 2,
            fault: Fault::Unknown,
            client: 3,
            number: 1,
        },
    ),
    (
        TWO_CALLS,
        &[
            History(2),
            Listed(1, 1, PUT, Done),
            Listed(1, 1, PUT, Full),
            End,
        ],
        Verdict::Entry {
            at: 2,
            fault: Fault::Double,
            client: 1,
            number: 1,
        },
    ),
    // Another call, and the mark of a call that returned.
    (
        TWO_CALLS,
        &[History(1), Listed(1, 1, Put(b"a", b"2"), Done), End],
        Verdict::Entry {
            at: 1,
            fault: Fault::Differs,
            client: 1,
            number: 1,
        },
    ),
    (
        TWO_CALLS,
        &[History(1), Open(1, 1, PUT, Done), End],
        Verdict::Entry {
            at: 1,
            fault: Fault::Differs,
            client: 1,
            number: 1,
        },
    ),
    // A call that has not returned: with the mark and any reply of a map, without it, or left out.
    (
        OPEN_PUT,
        &[
            History(2),
            Open(7, 1, PUT, NoSpace(300, 2, 1)),
            Listed(2, 1, GET, Absent),
            End,
        ],
        Verdict::Linear(2),
    ),
    (
        OPEN_PUT,
        &[
            History(2),
            Open(7, 1, PUT, Done),
            Listed(2, 1, GET, Absent),
            End,
        ],
        Verdict::Entry {
            at: 2,
            fault: Fault::Reply,
            client: 2,
            number: 1,
        },
    ),
    (
        OPEN_PUT,
        &[
            History(2),
            Listed(2, 1, GET, Absent),
            Listed(7, 1, PUT, Done),
            End,
        ],
        Verdict::Entry {
            at: 2,
            fault: Fault::Differs,
            client: 7,
            number: 1,
        },
    ),
    (
        OPEN_PUT,
        &[History(1), Listed(2, 1, GET, Absent), End],
        Verdict::Linear(1),
    ),
    // The last history counts, and of the missing calls the one that ended first.
    (
        &[
            Called(1, 1, PUT),
            Called(2, 1, GET),
            History(0),
            Ended(2, 1, Absent),
            Ended(1, 1, Done),
            History(2),
            Listed(2, 1, GET, Absent),
            Listed(1, 1, PUT, Done),
        ],
        &[History(0), End],
        Verdict::Missing {
            client: 2,
            number: 1,
        },
    ),
    // Lines that no client can give.
    (
        &[Called(1, 2, PUT)],
        &[History(0), End],
        Verdict::Trace { line: 1 },
    ),
    (
        &[Called(1, 0, PUT)],
        &[History(0), End],
        Verdict::Trace { line: 1 },
    ),
    (
        &[Called(1, 1, PUT), Called(2, 1, GET), Called(1, 2, GET)],
        &[History(0), End],
        Verdict::Trace { line: 3 },
    ),
    (
        &[Called(1, 1, PUT), Ended(1, 1, Done), Called(1, 1, PUT)],
        &[History(0), End],
        Verdict::Trace { line: 3 },
    ),
    (
        &[Called(1, 1, PUT), Ended(1, 1, Done), Called(1, 3, PUT)],
        &[History(0), End],
        Verdict::Trace { line: 3 },
    ),
    (
        &[Ended(1, 1, Done)],
        &[History(0), End],
        Verdict::Trace { line: 1 },
    ),
    (
        &[
            Called(1, 1, PUT),
            Ended(1, 1, Done),
            Lost(1),
            Ended(1, 1, Done),
        ],
        &[History(0), End],
        Verdict::Trace { line: 4 },
    ),
    (
        &[Called(1, 1, PUT), Stopped(1), Stopped(1), Ended(1, 1, Done)],
        &[History(0), End],
        Verdict::Trace { line: 4 },
    ),
    (
        &[Stopped(1), Called(2, 1, PUT), Called(1, 1, PUT)],
        &[History(0), End],
        Verdict::Trace { line: 3 },
    ),
];

// A client that puts, gets, deletes and gets.
const ONE_CLIENT: &[Told] = &[
    Called(1, 1, PUT),
    Ended(1, 1, Done),
    Called(1, 2, GET),
    Ended(1, 2, Value(b"1")),
    Called(1, 3, Delete(b"a")),
    Ended(1, 3, Done),
    Called(1, 4, GET),
    Ended(1, 4, Absent),
];

const TWO_CALLS: &[Told] = &[
    Called(1, 1, PUT),
    Ended(1, 1, Done),
    Called(1, 2, GET),
    Ended(1, 2, Value(b"1")),
];

// A put that never returns, beside a get.
const OPEN_PUT: &[Told] = &[
    Called(7, 1, PUT),
    Called(2, 1, GET),
    Ended(2, 1, Absent),
    Stopped(7),
];

fn text(alloc: Global, bytes: &[u8]) -> Result<Text, AllocError> {
    Ok(Text::of_vec(Vec::from_slice(alloc, bytes)?))
}

fn call(alloc: Global, ask: Ask) -> Result<CallText, AllocError> {
    match ask {
        Put(key, value) => Ok(CallText::Put {
            key: text(alloc, key)?,
            value: text(alloc, value)?,
        }),
        Get(key) => Ok(CallText::Get {
            key: text(alloc, key)?,
        }),
        Delete(key) => Ok(CallText::Delete {
            key: text(alloc, key)?,
        }),
    }
}

fn reply(alloc: Global, answer: Answer) -> Result<ReplyText, AllocError> {
    match answer {
        Done => Ok(ReplyText::Done),
        Value(value) => Ok(ReplyText::Value(text(alloc, value)?)),
        Absent => Ok(ReplyText::Absent),
        Full => Ok(ReplyText::Full),
        NoSpace(class, client, begin) => Ok(ReplyText::NoSpace {
            class,
            client,
            begin,
        }),
    }
}

fn entry(
    alloc: Global,
    name: (u32, u32),
    ask: Ask,
    answer: Answer,
    unreturned: bool,
) -> Result<OutLine, AllocError> {
    Ok(OutLine::Entry {
        client: name.0,
        number: name.1,
        call: call(alloc, ask)?,
        reply: reply(alloc, answer)?,
        unreturned,
    })
}

fn line(alloc: Global, told: Told) -> Result<OutLine, AllocError> {
    match told {
        Called(client, number, ask) => Ok(OutLine::Called {
            client,
            number,
            call: call(alloc, ask)?,
        }),
        Ended(client, number, answer) => Ok(OutLine::Ended {
            client,
            number,
            reply: reply(alloc, answer)?,
        }),
        Stopped(client) => Ok(OutLine::Stopped(client)),
        Lost(node) => Ok(OutLine::Lost(node)),
        History(count) => Ok(OutLine::History(count)),
        Listed(client, number, ask, answer) => {
            entry(alloc, (client, number), ask, answer, false)
        }
        Open(client, number, ask, answer) => entry(alloc, (client, number), ask, answer, true),
        End => Ok(OutLine::End),
    }
}

#[test]
fn verdicts_on_outputs(rt: HostRuntime) -> Result<(), AllocError> {
    let alloc = rt.alloc();
    for (done, last, verdict) in ROWS {
        let mut lines = Vec::new(alloc);
        for told in *done {
            lines.push(line(alloc, *told)?)?;
        }
        for told in *last {
            lines.push(line(alloc, *told)?)?;
        }
        assert!(rt; lines.len() < 1000);
        assert_eq!(rt; audit(alloc, &lines)?, *verdict, "{lines:?}");
    }
    Ok(())
}
