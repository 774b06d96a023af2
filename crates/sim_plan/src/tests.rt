use super::*;
use map_model::{Bytes, Call};
use std::alloc::{AllocError, Global};

// A call of a table.
#[derive(Clone, Copy)]
enum Made {
    Get(&'static [u8]),
    Put(&'static [u8], &'static [u8]),
    Delete(&'static [u8]),
}

use Made::{Delete, Get, Put};

// Words, and the calls of them.
const WORDS: &[(u32, Made)] = &[
    (0, Put(b"k0", b"0")),
    (63, Put(b"k63", b"0")),
    (64, Put(b"k0", b"0")),
    (0x0000_0100, Put(b"k0", b"0")),
    (0x0000_0200, Get(b"k0")),
    (0x0000_0300, Delete(b"k0")),
    (0x00ff_fc0a, Put(b"k10", b"255")),
    (0x1234_01c5, Put(b"k5", b"4660")),
    (0xffff_02ff, Get(b"k63")),
    (0xffff_ffff, Delete(b"k63")),
    (0xffff_fdff, Put(b"k63", b"65535")),
];

// Numbers and clients, and how their plans begin.
const PLANS: &[(u64, u32, &[Made])] = &[
    (
        5,
        1,
        &[
            Put(b"k32", b"31212"),
            Put(b"k4", b"34612"),
            Get(b"k62"),
            Put(b"k12", b"59045"),
            Delete(b"k62"),
            Get(b"k17"),
            Put(b"k52", b"21308"),
            Delete(b"k1"),
        ],
    ),
    (
        7,
        2,
        &[
            Delete(b"k54"),
            Delete(b"k31"),
            Delete(b"k47"),
            Put(b"k11", b"30444"),
            Delete(b"k30"),
            Put(b"k57", b"48977"),
        ],
    ),
    (0, 0, &[Put(b"k3", b"4557"), Delete(b"k23"), Delete(b"k19")]),
    (
        u64::MAX,
        1,
        &[
            Put(b"k3", b"4557"),
            Delete(b"k23"),
            Delete(b"k19"),
            Delete(b"k62"),
        ],
    ),
    (
        u64::MAX,
        u32::MAX,
        &[
            Put(b"k59", b"37001"),
            Delete(b"k19"),
            Put(b"k39", b"30873"),
            Delete(b"k48"),
            Put(b"k50", b"34738"),
        ],
    ),
    (1, 1, &[]),
];

// Numbers, and the words that the generator of PCG's reference code gives for them.
const DRAWN: &[(u64, [u32; 5])] = &[
    (
        0,
        [298703107, 4236525527, 336081875, 1056616254, 1060453275],
    ),
    (5, [3086511542, 1342643712, 28595221, 496592263, 2875980676]),
    (
        u64::MAX,
        [2553256318, 1362994822, 3759657484, 3366838333, 2323195082],
    ),
];

const STOP: &str = "shape 3 3 1 2 1 2 10
register
register
put 1 a 0
call 1 put a 1
step 1 36
stop 1
put 2 a 2
recover 1
go 2
get 2 a
count
";

const LOSS: &str = "shape 3 3 1 2 1 2 10
register
register
put 1 a 0
call 1 put a 1
step 1 40
lose 1
go 1
settle
go 1
settle
go 1
get 2 a
count
";

const STOP_AND_LOSS: &str = "shape 3 3 1 2 1 2 10
register
register
put 1 a 0
call 1 put a 1
step 1 1
stop 1
lose 1
call 2 put a 2
go 2
settle
go 2
settle
go 2
recover 1
get 2 a
count
";

const TWO_STOPS: &str = "shape 3 3 1 2 1 3 10
register
register
register
put 1 a 0
call 1 put a 1
step 1 33
call 2 put a 2
step 2 43
stop 1
stop 2
recover 2
recover 1
recover 2
recover 1
get 3 a
count
";

const LOSS_WHILE_COPYING: &str = "shape 3 3 1 2 1 2 10
register
register
put 1 a 0
put 1 a 1
lose 1
task settle
work 100
lose 2
settle
get 1 a
count
";

const LATE_VERB: &str = "shape 3 3 1 2 1 2 10
register
register
put 1 a 0
call 1 put a 1
step 1 4294967295
lose 1
late 1
go 1
settle
go 1
settle
go 1
get 2 a
count
";

fn bytes(alloc: Global, text: &[u8]) -> Result<Bytes, AllocError> {
    Ok(Bytes::of_vec(Vec::from_slice(alloc, text)?))
}

fn call(alloc: Global, made: Made) -> Result<Call, AllocError> {
    match made {
        Get(key) => Ok(Call::Get {
            key: bytes(alloc, key)?,
        }),
        Put(key, value) => Ok(Call::Put {
            key: bytes(alloc, key)?,
            value: bytes(alloc, value)?,
        }),
        Delete(key) => Ok(Call::Delete {
            key: bytes(alloc, key)?,
        }),
    }
}

#[test]
fn calls_of_words(rt: HostRuntime) -> Result<(), AllocError> {
    let alloc = rt.alloc();
    for (word, made) in WORDS {
        let wanted = call(alloc, *made)?;
        let called = call_of(alloc, *word)?;
        assert_eq!(rt;
            format!(in alloc; "{called:?}")?,
            format!(in alloc; "{wanted:?}")?,
            "at {word}"
        );
    }
    Ok(())
}

#[test]
fn plans_of_clients(rt: HostRuntime) -> Result<(), AllocError> {
    let alloc = rt.alloc();
    for (seed, who, calls) in PLANS {
        let mut wanted = Vec::new(alloc);
        for made in *calls {
            wanted.push(call(alloc, *made)?)?;
        }
        let planned = plan(alloc, *seed, *who, calls.len() as u32)?;
        assert_eq!(rt;
            format!(in alloc; "{planned:?}")?,
            format!(in alloc; "{wanted:?}")?,
            "at {seed} and {who}"
        );
    }
    Ok(())
}

#[test]
fn words_of_numbers(rt: HostRuntime) {
    for (seed, words) in DRAWN {
        let mut turns = turns_of(*seed);
        for word in words {
            assert_eq!(rt; turns.draw(), *word, "at {seed}");
        }
    }
}

#[test]
fn scripts_of_faults(rt: HostRuntime) -> Result<(), AllocError> {
    let alloc = rt.alloc();
    for (kind, first, second, text) in [
        (0, 36, 0, STOP),
        (1, 40, 7, LOSS),
        (2, 1, 0, STOP_AND_LOSS),
        (3, 33, 43, TWO_STOPS),
        (4, 100, 9, LOSS_WHILE_COPYING),
        (5, u32::MAX, 0, LATE_VERB),
    ] {
        let script = fault_script(alloc, kind, first, second)?;
        assert_eq!(rt; script.as_slice(), text.as_bytes(), "of kind {kind}");
    }
    Ok(())
}
