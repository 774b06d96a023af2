use super::offline;
use outside::{MemorySink, MemorySource};
use std::alloc::{AllocError, Global};
use std::process::Abort;
use std::test::Fail;

pub const FIRST: &[u8] = b"shape 1 1 1 1 1 1 10\nregister\nput 1 a 1\nget 1 a\n";

pub const FIRST_OUTPUT: &[u8] =
    b"client 1\ncalled 1 1 put a 1\nended 1 1 Done\ncalled 1 2 get a\nended 1 2 Value 1\nhistory 2\nh 1 1 put a 1 Done\nh 1 2 get a Value 1\nend\n";

pub fn words_of(alloc: Global, texts: &[&str]) -> Result<Vec<String>, AllocError> {
    let mut words = Vec::new(alloc);
    for text in texts {
        words.push(String::from_str(alloc, text)?)?;
    }
    Ok(words)
}

// Carries out a command over this input, one byte a read, where the reads and the writes of
// these numbers fail, and answers the status and the output.
pub fn call(
    alloc: Global,
    texts: &[&str],
    input: &[u8],
    reads: &[u64],
    writes: &[u64],
) -> Result<(u8, Vec<u8>), AllocError> {
    let words = words_of(alloc, texts)?;
    let mut source = MemorySource::new(input.to_vec(alloc)?, 1, reads.to_vec(alloc)?);
    let mut sink = MemorySink::new(alloc, writes.to_vec(alloc)?);
    let status = offline(alloc, &words, &mut source, &mut sink);
    let output = sink.bytes().to_vec(alloc)?;
    Ok((status, output))
}

fn check(
    rt: &(impl Abort + AllocGlobal),
    texts: &[&str],
    input: &[u8],
    status: u8,
    output: &[u8],
) -> Result<(), AllocError> {
    let got = call(rt.alloc(), texts, input, &[], &[])?;
    assert_eq!(rt; got.0, status);
    assert_eq!(rt; got.1.as_slice(), output);
    Ok(())
}

// Outputs, with the verdicts on them.
const AUDITS: [(&[u8], u8, &[u8]); 12] = [
    (
        b"client 1\ncalled 1 1 put a 1\nended 1 1 Done\ncalled 1 2 get a\nended 1 2 Value 1\ncalled 1 3 delete a\nended 1 3 Done\ncalled 1 4 get a\nended 1 4 Absent\nblocks unused 0 owned 1 awaiting 0 released 0\nobjects stock 63 present 1 held 0\nhistory 4\nh 1 1 put a 1 Done\nh 1 2 get a Value 1\nh 1 3 delete a Done\nh 1 4 get a Absent\nend\n",
        0,
        b"linear 4\n",
    ),
    (
        b"called 1 1 put a 1\nended 1 1 Done\ncalled 1 2 get a\nended 1 2 Value 1\nhistory 2\nh 1 1 put a 1 Done\nh 1 2 get a Value 2\nend\n",
        0,
        b"no 2 Differs 1 2\n",
    ),
    (
        b"called 1 1 put a 1\nended 1 1 Done\ncalled 1 2 get a\nended 1 2 Value 2\nhistory 2\nh 1 1 put a 1 Done\nh 1 2 get a Value 2\nend\n",
        0,
        b"no 2 Reply 1 2\n",
    ),
    (
        b"called 1 1 put a 1\nended 1 1 Done\ncalled 1 2 get a\nended 1 2 Value 1\nhistory 2\nh 1 2 get a Value 1\nh 1 1 put a 1 Done\nend\n",
        0,
        b"no 1 Order 1 2\n",
    ),
    (
        b"called 1 1 put a 1\nended 1 1 Done\ncalled 1 2 get a\nended 1 2 Value 1\nhistory 2\nh 1 1 put a 1 Done\nh 1 1 put a 1 Done\nend\n",
        0,
        b"no 2 Double 1 1\n",
    ),
    (
        b"called 1 1 put a 1\nended 1 1 Done\ncalled 1 2 get a\nended 1 2 Value 1\nhistory 1\nh 2 1 put a 1 Done\nend\n",
        0,
        b"no 1 Unknown 2 1\n",
    ),
    (
        b"called 1 1 put a 1\nended 1 1 Done\ncalled 1 2 get a\nended 1 2 Value 1\nhistory 1\nh 1 1 put a 1 Done\nend\n",
        0,
        b"missing 1 2\n",
    ),
    (b"called 1 2 get a\nhistory 0\nend\n", 0, b"trace 1\n"),
    (b"", 3, b"bad line 1 Block\n"),
    (b"history 1\nend\n", 3, b"bad line 2 Block\n"),
    (
        b"history 1\nh 1 1 put a 1 Done x\nend\n",
        3,
        b"bad line 2 Word\n",
    ),
    (b"opened 12\n", 3, b"bad line 1 Hex\n"),
];

#[test]
fn outputs_are_audited(rt: HostRuntime) -> Result<(), Fail> {
    check(&rt, &["audit"], FIRST_OUTPUT, 0, b"linear 2\n")?;
    for (input, status, output) in AUDITS {
        check(&rt, &["audit"], input, status, output)?;
    }
    Ok(())
}

// Lease lines, where a lease lasts for 100 and the clocks differ by at most 5, with their answers.
const LEASES: [(&[u8], u8, &[u8]); 8] = [
    (
        b"ask 1 10 12\ngrant 1 1 11 15\ntake 1 1 20 22\nverb 1 99 97\nverb 1 100 101\nfence 1 110 114\nfence 1 111 115\nverb 1 111 115\n",
        0,
        b"asked 1 1\ngranted 1 1 115\ntaken 1 1 100\nlawful 1\nunlawful 1\nearly 1 115\nfenced 1\nunlawful 1\nend\n",
    ),
    (
        b"ask 1 10 9\ngrant 1 1 10 9\ntake 1 1 10 9\nfence 1 104 109\nverb 1 104 109\n",
        0,
        b"asked 1 1\ngranted 1 1 109\ntaken 1 1 100\nfenced 1\nunlawful 1\nend\n",
    ),
    (
        b"take 1 1 5 5\nask 1 5 11\nfence 2 0 0\n",
        0,
        b"refused ask 1\nrefused clocks\nfenced 2\nend\n",
    ),
    (b"", 0, b"end\n"),
    (b"ask 1 2\n", 3, b"bad line 1 Count\n"),
    (b"# a note\nask 1 2 x\n", 3, b"bad line 2 Number\n"),
    (b"lend 1 2 3\n", 3, b"bad line 1 Word\n"),
    (b"verb 1 2 3\t", 3, b"bad line 1 Byte\n"),
];

#[test]
fn lease_lines_are_answered(rt: HostRuntime) -> Result<(), Fail> {
    for (input, status, output) in LEASES {
        check(
            &rt,
            &["leases", "--length", "100", "--error", "5"],
            input,
            status,
            output,
        )?;
    }
    Ok(())
}

fn usage(rt: &(impl Abort + AllocGlobal), texts: &[&str]) -> Result<(), AllocError> {
    check(rt, texts, FIRST, 2, b"usage\n")
}

fn taken(rt: &(impl Abort + AllocGlobal), texts: &[&str]) -> Result<(), AllocError> {
    check(rt, texts, b"", 0, b"end\n")
}

#[test]
fn words_have_a_form(rt: HostRuntime) -> Result<(), Fail> {
    usage(&rt, &[])?;
    for word in ["run", "export", "import", "ring"] {
        usage(&rt, &[word])?;
    }
    usage(&rt, &["script", "x"])?;
    usage(&rt, &["audit", "--"])?;
    usage(&rt, &["leases"])?;
    usage(&rt, &["leases", "--length", "100"])?;
    usage(&rt, &["leases", "--length", "10", "--error", "5"])?;
    usage(&rt, &["leases", "--length", "100", "--error", "+5"])?;
    usage(&rt, &["leases", "--length", "100", "--error", "x"])?;
    usage(&rt, &["leases", "--length", "100", "--error="])?;
    usage(
        &rt,
        &[
            "leases",
            "--length",
            "100",
            "--error",
            "18446744073709551616",
        ],
    )?;
    usage(
        &rt,
        &[
            "leases",
            "--length",
            "100",
            "--error",
            "000000000000000000005",
        ],
    )?;
    usage(&rt, &["leases", "--length", "100", "--error", "5", "x"])?;
    usage(&rt, &["leases", "--length", "100", "--error", "5", "--"])?;
    usage(
        &rt,
        &["leases", "--length", "100", "--error", "5", "--error", "5"],
    )?;
    usage(
        &rt,
        &["leases", "--length", "100", "--error", "5", "--help"],
    )?;
    usage(&rt, &["leases", "--length", "100", "--err", "5"])?;
    taken(&rt, &["leases", "--error=5", "--length", "100"])?;
    taken(&rt, &["leases", "--length=4294967295", "--error=0"])?;
    taken(
        &rt,
        &["leases", "--error", "00000000000000000005", "--length=11"],
    )?;
    Ok(())
}
