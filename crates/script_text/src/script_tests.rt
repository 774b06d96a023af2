use super::{BadKind, ScriptFault, parse};
use std::alloc::{AllocError, Global};
use std::test::Fail;

// What `parse` answers: the lines after the shape line as they are debugged, or the bad line.
fn shown(alloc: Global, text: &[u8]) -> Result<String, AllocError> {
    if text.len() > 4_194_304 {
        return String::from_str(alloc, "too long");
    }
    match parse(alloc, text) {
        Ok(script) => format!(in alloc; "{:?}", script.lines),
        Err(ScriptFault::BadLine { number, kind }) => format!(in alloc; "{number} {kind:?}"),
        Err(ScriptFault::NoMemory) => String::from_str(alloc, "no memory"),
    }
}

// The same of a shape line, and these bytes behind it.
fn shown_behind(alloc: Global, text: &[u8]) -> Result<String, AllocError> {
    let mut whole = b"shape 2 1 1 1 1 1 10\n".to_vec(alloc)?;
    whole.extend_from_slice(text)?;
    shown(alloc, &whole)
}

#[test]
fn the_first_bad_line_is_named_with_its_first_fault(rt: HostRuntime) -> Result<(), Fail> {
    const CASES: [(&[u8], &str); 13] = [
        (b"", "1 NoShape"),
        (b"\n", "2 NoShape"),
        (b"# only", "2 NoShape"),
        (b"register\nshape 1 1 1 1 1 1 10\n", "1 NoShape"),
        (b"#\t\nshape", "1 Byte"),
        (b"\n \n shape  1 1 1 1 1 1 10 \r\n\n", "[]"),
        (b"shape 1 1 1 1 1 1 10\r", "1 Byte"),
        (b"shape 1 2", "1 Count"),
        (b"shape 1 1 1 1 1 1 4294967296", "1 Number"),
        (b"shape 8 5 63 64 256 64 16777215", "[]"),
        (b"shape 1 1 1 1 1 1 16777216", "1 Shape"),
        (b"shape 2 3 1 1 1 1 1", "1 Shape"),
        (b"shape 0 0 1 1 1 1 1", "1 Shape"),
    ];
    for (text, answer) in CASES {
        let got = shown(rt.alloc(), text)?;
        assert_eq!(rt; got.as_str(), answer);
    }
    Ok(())
}

#[test]
fn lines_are_read_by_their_words(rt: HostRuntime) -> Result<(), Fail> {
    const CASES: [(&[u8], &str); 28] = [
        (b"register", "[Register]"),
        (
            b"put 1 a x:",
            "[Put { client: 1, key: Text { bytes: [97] }, value: Text { bytes: [] } }]",
        ),
        (
            b"get 2 x:00ff",
            "[Get { client: 2, key: Text { bytes: [0, 255] } }]",
        ),
        (
            b"delete 0 x",
            "[Delete { client: 0, key: Text { bytes: [120] } }]",
        ),
        (
            b"call 1 get b",
            "[Call { client: 1, call: Get { key: Text { bytes: [98] } } }]",
        ),
        (
            b"step 1 2\nwork 4294967295",
            "[Step { client: 1, count: 2 }, Work(4294967295)]",
        ),
        (
            b"go 1\nlate 2\nstop 3\nlose 4",
            "[Go(1), Late(2), Stop(3), Lose(4)]",
        ),
        (
            b"settle\nrecover 1\njoin 2",
            "[Settle, Recover(1), Join(2)]",
        ),
        (
            b"task settle\ntask recover 1",
            "[TaskSettle, TaskRecover(1)]",
        ),
        (
            b"task join 2\nverbs on\nverbs off",
            "[TaskJoin(2), Verbs(true), Verbs(false)]",
        ),
        (b"dump\ncount\nhistory", "[Dump, Count, History]"),
        (b"fill 1 00000000000000ab", "[Fill { node: 1, word: 171 }]"),
        (b"\tgo 1", "2 Byte"),
        (b"\n# \x7f", "3 Byte"),
        (b"fetch 1 a", "2 Word"),
        (b"call 1 take", "2 Word"),
        (b"task x y", "2 Word"),
        (b"call 1", "2 Count"),
        (b"verbs off off", "2 Count"),
        (b"put 1 a", "2 Count"),
        (b"shape 1", "2 Count"),
        (b"put x x:6 1", "2 Number"),
        (b"step 1 0", "2 Number"),
        (b"go 01234567890", "2 Number"),
        (b"put 1 x:6 1", "2 Hex"),
        (b"put 1 x:6A 1", "2 Hex"),
        (b"fill 1 00000000000000AB", "2 Hex"),
        (b"shape 1 1 1 1 1 1 10", "2 Shape"),
    ];
    for (text, answer) in CASES {
        let got = shown_behind(rt.alloc(), text)?;
        assert_eq!(rt; got.as_str(), answer);
    }
    Ok(())
}
