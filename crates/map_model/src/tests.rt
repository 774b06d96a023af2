use super::*;
use std::alloc::{AllocError, Global};

// A call of a table, and the reply to it.
#[derive(Clone, Copy)]
enum Step {
    Get(&'static [u8], Answer),
    Put(&'static [u8], &'static [u8], Answer),
    Delete(&'static [u8], Answer),
}

#[derive(Clone, Copy)]
enum Answer {
    Done,
    Value(&'static [u8]),
    Absent,
    Full,
    NoSpace,
}

use Answer::{Absent, Done, Full, NoSpace, Value};
use Step::{Delete, Get, Put};

// Lists of calls, and whether a map answers so.
const LISTS: &[(&[Step], bool)] = &[
    (&[], true),
    (&[Put(b"a", b"1", Done), Get(b"a", Value(b"2"))], false),
    (
        &[
            Put(b"a", b"1", Done),
            Get(b"a", Value(b"1")),
            Delete(b"a", Done),
            Get(b"a", Absent),
        ],
        true,
    ),
    (
        &[
            Put(b"a", b"1", Done),
            Delete(b"a", Done),
            Get(b"a", Value(b"1")),
        ],
        false,
    ),
    (
        &[
            Put(b"a", b"1", Done),
            Put(b"a", b"2", Done),
            Get(b"a", Value(b"2")),
        ],
        true,
    ),
    (
        &[
            Put(b"a", b"1", Done),
            Get(b"b", Absent),
            Put(b"b", b"2", Done),
            Get(b"a", Value(b"1")),
        ],
        true,
    ),
    (&[Put(b"a", b"1", Done), Get(b"b", Value(b"1"))], false),
    (&[Put(b"a", b"1", Done), Get(b"a", Absent)], false),
    (&[Get(b"b", Full)], false),
    (&[Get(b"b", NoSpace)], false),
    (&[Get(b"b", Done)], false),
    (&[Put(b"a", b"1", Full), Get(b"a", Absent)], true),
    (&[Put(b"a", b"1", NoSpace), Get(b"a", Value(b"1"))], false),
    (&[Put(b"a", b"1", Absent)], false),
    (
        &[
            Put(b"a", b"1", Done),
            Delete(b"a", NoSpace),
            Get(b"a", Value(b"1")),
        ],
        true,
    ),
    (&[Delete(b"a", Full)], false),
    (&[Delete(b"a", Done)], true),
];

fn bytes(alloc: Global, text: &[u8]) -> Result<Bytes, AllocError> {
    Ok(Bytes::of_vec(Vec::from_slice(alloc, text)?))
}

fn reply(alloc: Global, answer: Answer) -> Result<Reply, AllocError> {
    match answer {
        Done => Ok(Reply::Done),
        Value(value) => Ok(Reply::Value(bytes(alloc, value)?)),
        Absent => Ok(Reply::Absent),
        Full => Ok(Reply::Full),
        NoSpace => Ok(Reply::NoSpace {
            class: 2,
            client: 7,
            begin: 40,
        }),
    }
}

fn entry(alloc: Global, step: Step) -> Result<Entry, AllocError> {
    let (call, answer) = match step {
        Get(key, answer) => (
            Call::Get {
                key: bytes(alloc, key)?,
            },
            answer,
        ),
        Put(key, value, answer) => (
            Call::Put {
                key: bytes(alloc, key)?,
                value: bytes(alloc, value)?,
            },
            answer,
        ),
        Delete(key, answer) => (
            Call::Delete {
                key: bytes(alloc, key)?,
            },
            answer,
        ),
    };
    Ok(Entry {
        client: 1,
        number: 2,
        call,
        reply: reply(alloc, answer)?,
        returned: true,
    })
}

fn entries(alloc: Global, steps: &[Step]) -> Result<Vec<Entry>, AllocError> {
    let mut entries = Vec::new(alloc);
    for step in steps {
        entries.push(entry(alloc, *step)?)?;
    }
    Ok(entries)
}

#[test]
fn replies_of_a_map(rt: HostRuntime) -> Result<(), AllocError> {
    let alloc = rt.alloc();
    for (steps, yes) in LISTS {
        let entries = entries(alloc, steps)?;
        assert_eq!(rt; legal(alloc, &entries)?, *yes, "{entries:?}");
    }
    Ok(())
}

#[test]
fn copies_are_equal(rt: HostRuntime) -> Result<(), AllocError> {
    let alloc = rt.alloc();
    for step in [
        Put(b"a", b"1", Full),
        Get(b"a", Value(b"1")),
        Delete(b"a", NoSpace),
    ] {
        let entry = entry(alloc, step)?;
        let copy = entry.copy()?;
        assert_eq!(rt;
            format!(in alloc; "{copy:?}")?,
            format!(in alloc; "{entry:?}")?
        );
    }
    Ok(())
}
