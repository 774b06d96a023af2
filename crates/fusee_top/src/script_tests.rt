// The command `script` on texts that are no script, and over ends that fail.

ghost use Rattle.std.specs.Prelude.{◌≡◌, ◌⊎◌, IfOk, None};
ghost use Rattle.fusee_top.specs.Offline.{input_status};
ghost use Rattle.fusee_top.specs.declared.commands.Command.TheVariants as command;

use crate::offline;
use crate::tests::{FIRST, call, words_of};
use outside::{Got, MemorySink, MemorySource, Sink, Source, Took};
use std::alloc::{AllocError, Global};
use std::process::Abort;
use std::test::Fail;

// A put, a get, a delete, and the sizes of what there is.
const SCRIPT: &[u8] =
    b"shape 1 1 1 1 1 1 10\nregister\nput 1 a 1\nget 1 a\ndelete 1 a\nget 1 a\ncount\n";

const OUTPUT: &[u8] =
    b"client 1\ncalled 1 1 put a 1\nended 1 1 Done\ncalled 1 2 get a\nended 1 2 Value 1\ncalled 1 3 delete a\nended 1 3 Done\ncalled 1 4 get a\nended 1 4 Absent\nblocks unused 0 owned 1 awaiting 0 released 0\nobjects stock 63 present 1 held 0\nhistory 4\nh 1 1 put a 1 Done\nh 1 2 get a Value 1\nh 1 3 delete a Done\nh 1 4 get a Absent\nend\n";

// The same of `script` where no call fails: but for want of memory, the input alone decides the status.
pub fn script_without_faults(alloc: Global, input: &[u8]) -> Result<(u8, Vec<u8>), AllocError>
    ensures { IfOk result (λ got. (got.0 ≡ input_status command.Script input.now) ⊎ (got.0 ≡ 6)) }
{
    let mut words = Vec::new(alloc);
    words.push(String::from_str(alloc, "script")?)?;
    let mut source = MemorySource::new(input.to_vec(alloc)?, 1, Vec::new(alloc));
    let mut sink = MemorySink::new(alloc, Vec::new(alloc));
    let status = offline(alloc, &words, &mut source, &mut sink);
    let output = sink.bytes().to_vec(alloc)?;
    Ok((status, output))
}

pub fn check_script(
    rt: &(impl Abort + AllocGlobal),
    input: &[u8],
    status: u8,
    output: &[u8],
) -> Result<(), AllocError> {
    let got = script_without_faults(rt.alloc(), input)?;
    assert_eq!(rt; got.0, status);
    assert_eq!(rt; got.1.as_slice(), output);
    Ok(())
}

// Texts that are hardly a script, or none.
const HOSTILE: [(&[u8], u8, &[u8]); 11] = [
    (
        b"shape 1 1 1 1 1 1 10\r\nregister\r\n",
        0,
        b"client 1\nhistory 0\nend\n",
    ),
    (b"shape 1 1 1 1 1 1 10", 0, b"history 0\nend\n"),
    (
        b"shape 1 1 1 1 1 1 10\nput 1 a\t1\n",
        3,
        b"bad line 2 Byte\n",
    ),
    (b"# only", 3, b"bad line 2 NoShape\n"),
    (
        b"register\nshape 1 1 1 1 1 1 10\n",
        3,
        b"bad line 1 NoShape\n",
    ),
    (b"shape 1 1 1 1 1 1 4294967296\n", 3, b"bad line 1 Number\n"),
    (b"shape 1 1 1 1 1 1 16777216\n", 3, b"bad line 1 Shape\n"),
    (b"shape 1 1 1 1 1 1 10\nput 1 a\n", 3, b"bad line 2 Count\n"),
    (
        b"shape 1 1 1 1 1 1 10\nput 1 x:6 1\n",
        3,
        b"bad line 2 Hex\n",
    ),
    (
        b"shape 1 1 1 1 1 1 10\nshape 1 1 1 1 1 1 10\n",
        3,
        b"bad line 2 Shape\n",
    ),
    (
        b"shape 1 1 1 1 1 1 10\ncall 1 take a\n",
        3,
        b"bad line 2 Word\n",
    ),
];

// A pool of 661,616 words, most of which are never written.
const LARGE: &[u8] =
    b"shape 2 2 20 32 1 1 10\nregister\nput 1 a 1\nlose 1\nsettle\nget 1 a\njoin 1\nput 1 a 2\nget 1 a\ncount\n";

const LARGE_OUTPUT: &[u8] =
    b"client 1\ncalled 1 1 put a 1\nended 1 1 Done\nlost 1\nopened 0000000000020002\ncalled 1 2 get a\nended 1 2 Value 1\njoined 1\ncalled 1 3 put a 2\nended 1 3 Done\ncalled 1 4 get a\nended 1 4 Value 2\nblocks unused 639 owned 1 awaiting 0 released 0\nobjects stock 63 present 1 held 0\nhistory 4\nh 1 1 put a 1 Done\nh 1 2 get a Value 1\nh 1 3 put a 2 Done\nh 1 4 get a Value 2\nend\n";

#[test]
fn texts_of_any_size_are_told_apart(rt: HostRuntime) -> Result<(), Fail> {
    for (input, status, output) in HOSTILE {
        check_script(&rt, input, status, output)?;
    }
    check_script(&rt, LARGE, 0, LARGE_OUTPUT)?;
    check_long(&rt, 4_194_304, 0, b"history 0\nend\n")?;
    check_long(&rt, 4_194_305, 7, b"too large 4194305\n")?;
    Ok(())
}

// Further texts that are refused.
const REFUSED: [(&[u8], u8, &[u8]); 5] = [
    (b"", 3, b"bad line 1 NoShape\n"),
    (b"shape 2 3 1 1 1 1 1\n", 3, b"bad line 1 Shape\n"),
    (
        b"shape 1 1 1 1 1 1 10\nregister\nfetch 1 a\n",
        3,
        b"bad line 3 Word\n",
    ),
    (
        b"shape 1 1 1 1 1 1 10\nregister\nstep 1 0\n",
        3,
        b"bad line 3 Number\n",
    ),
    (b"shape 8 5 63 64 256 64 100\n", 7, b"too large 16678928\n"),
];

#[test]
fn refused_scripts_are_told_why(rt: HostRuntime) -> Result<(), Fail> {
    for (input, status, output) in REFUSED {
        check_script(&rt, input, status, output)?;
    }
    Ok(())
}

// The shape line, and notes up to this size.
fn long_script(alloc: Global, len: usize) -> Result<Vec<u8>, AllocError> {
    let mut text = vec![in alloc; b'#'; len]?;
    let shape = b"shape 1 1 1 1 1 1 10\n";
    if len > shape.len() {
        text[..shape.len()].copy_from_slice(shape);
    }
    Ok(text)
}

// The shape and the notes, of which many bytes are read at once.
fn check_long(
    rt: &(impl Abort + AllocGlobal),
    len: usize,
    status: u8,
    output: &[u8],
) -> Result<(), AllocError> {
    let words = words_of(rt.alloc(), &["script"])?;
    let text = long_script(rt.alloc(), len)?;
    let mut source = MemorySource::new(text, 100_000, Vec::new(rt.alloc()));
    let mut sink = MemorySink::new(rt.alloc(), Vec::new(rt.alloc()));
    assert_eq!(rt; offline(rt.alloc(), &words, &mut source, &mut sink), status);
    assert_eq!(rt; sink.bytes(), output);
    Ok(())
}

// Which read or which write fails, and the status.
const FAULTS: [(&[u64], &[u64], u8); 6] = [
    (&[0], &[], 4),
    (&[1], &[], 4),
    (&[20], &[], 4),
    (&[], &[0], 5),
    (&[], &[1], 5),
    (&[], &[5], 5),
];

#[test]
fn failing_ends_are_told(rt: HostRuntime) -> Result<(), Fail> {
    for (reads, writes, status) in FAULTS {
        let got = call(rt.alloc(), &["script"], SCRIPT, reads, writes)?;
        assert_eq!(rt; got.0, status);
        if status == 4 {
            assert_eq!(rt; got.1.as_slice(), b"read fault\n".as_slice());
        } else {
            assert!(rt; OUTPUT.starts_with(&got.1));
            assert!(rt; got.1.len() < OUTPUT.len());
        }
    }
    Ok(())
}

// A source that fails at its third read, and counts the reads behind it.
#[derive(Drop)]
struct Broken {
    reads: u64,
    faults: u64,
}

impl Source for Broken {
    ghost left = { λ s. None };

    ghost faults = { λ s. s.faults };

    ghost cannot_fail = { λ s. ⊥ };

    ghost not_spent = { λ s never. absurd never };

    fn read(&mut self, into: &mut [u8]) -> Got {
        self.reads = self.reads.saturating_add(1);
        if self.reads < 3 {
            return Got::Got(into.len());
        }
        self.faults = self.faults.saturating_add(1);
        Got::Failed
    }
}

// A sink that takes half of a piece, fails at a chosen write, counts the writes behind that one,
// and tells whether a piece had bytes behind a line feed.
#[derive(Drop)]
struct Watched {
    fails_at: u64,
    writes: u64,
    two_lines: bool,
    faults: u64,
}

impl Sink for Watched {
    ghost held = { λ s. None };

    ghost faults = { λ s. s.faults };

    ghost cannot_fail = { λ s. ⊥ };

    ghost not_spent = { λ s never. absurd never };

    fn write(&mut self, bytes: &[u8]) -> Took {
        self.writes = self.writes.saturating_add(1);
        if let Some((_, others)) = bytes.split_last()
            && others.contains(&b'\n')
        {
            self.two_lines = true;
        }
        if self.writes >= self.fails_at {
            self.faults = self.faults.saturating_add(1);
            return Took::Failed;
        }
        Took::Took(bytes.len().div_ceil(2))
    }
}

#[test]
fn nothing_follows_a_fault_and_no_write_has_two_lines(rt: HostRuntime) -> Result<(), Fail> {
    let words = words_of(rt.alloc(), &["script"])?;
    let mut source = Broken {
        reads: 0,
        faults: 0,
    };
    let mut sink = MemorySink::new(rt.alloc(), Vec::new(rt.alloc()));
    assert_eq!(rt; offline(rt.alloc(), &words, &mut source, &mut sink), 4);
    assert_eq!(rt; source.reads, 3);
    for (fails_at, status, writes) in [(1, 5, 1), (7, 5, 7), (1000, 0, 40)] {
        let mut source = MemorySource::new(FIRST.to_vec(rt.alloc())?, 4, Vec::new(rt.alloc()));
        let mut sink = Watched {
            fails_at,
            writes: 0,
            two_lines: false,
            faults: 0,
        };
        assert_eq!(rt; offline(rt.alloc(), &words, &mut source, &mut sink), status);
        assert_eq!(rt; sink.writes, writes);
        assert!(rt; !sink.two_lines);
    }
    Ok(())
}
