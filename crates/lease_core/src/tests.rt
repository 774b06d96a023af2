use super::*;
use std::alloc::{AllocError, Global};
use std::test::Fail;

// The answers to the lines of a text, or nothing where the text is not read.
fn answers(alloc: Global, terms: Terms, text: &[u8]) -> Result<Vec<u8>, AllocError> {
    let mut said = Vec::new(alloc);
    if text.len() > 4_194_304 {
        return Ok(said);
    }
    let Ok(lines) = parse_leases(alloc, text) else {
        return Ok(said);
    };
    let mut run = LeaseRun::new(alloc, terms)?;
    for line in &lines {
        let answer = run.step(line)?;
        push_answer(&mut said, &answer)?;
    }
    push_answer(&mut said, &LeaseAnswer::End)?;
    Ok(said)
}

#[test]
fn lines_are_answered(rt: HostRuntime) -> Result<(), Fail> {
    // The length of a lease, the clocks' error, the lines, and the answers to them.
    const RUNS: [(u64, u64, &[u8], &[u8]); 4] = [
        (
            100,
            5,
            b"ask 1 10 12\ngrant 1 1 11 15\ntake 1 1 20 22\nverb 1 99 97\nverb 1 100 101\n\
              fence 1 110 114\nfence 1 111 115\nverb 1 111 115\n",
            b"asked 1 1\ngranted 1 1 115\ntaken 1 1 100\nlawful 1\nunlawful 1\n\
              early 1 115\nfenced 1\nunlawful 1\nend\n",
        ),
        (
            100,
            5,
            b"take 1 1 5 5\nask 1 5 11\nfence 2 0 0",
            b"refused ask 1\nrefused clocks\nfenced 2\nend\n",
        ),
        (
            100,
            5,
            b"ask 1 10 9\ngrant 1 1 10 9\ntake 1 1 10 9\nfence 1 104 109\nverb 1 104 109\n",
            b"asked 1 1\ngranted 1 1 109\ntaken 1 1 100\nfenced 1\nunlawful 1\nend\n",
        ),
        (
            10,
            2,
            b"verb 0 0 9\nverb 65 0 0\nverb 1 0 3\nask 64 5 5\nask 64 6 6\nask 64 5 6\nask 64 6 5\n\
              grant 64 3 6 6\ngrant 64 0 6 6\ntake 64 3 6 6\ntake 64 2 6 6\ngrant 64 2 7 7\n\
              take 64 2 8 8\ntake 64 1 8 8\ngrant 64 1 8 8\ntake 64 1 9 9\nverb 64 11 11\n\
              verb 64 12 12\nfence 64 17 17\nfence 64 18 18\nask 64 18 18\ngrant 64 3 18 18\n\
              grant 64 4 18 18\nfence 64 18 18\ntake 64 1 18 18\nverb 1 17 17\nfence 1 17 18\n",
            b"refused unknown 0\nrefused unknown 65\nrefused clocks\nasked 64 1\nasked 64 2\n\
              refused clocks\nrefused clocks\nrefused ask 3\nrefused ask 0\nrefused ask 3\n\
              refused grant 2\ngranted 64 2 17\ntaken 64 2 12\nrefused grant 1\ngranted 64 1 18\n\
              taken 64 1 12\nlawful 64\nunlawful 64\nearly 64 18\nfenced 64\nasked 64 3\n\
              refused fenced 64\nrefused ask 4\nrefused fenced 64\ntaken 64 1 12\n\
              refused clocks\nfenced 1\nend\n",
        ),
    ];
    for (length, error, lines, said) in RUNS {
        let terms = terms_of(length, error).ok_or("no terms")?;
        assert_eq!(rt; answers(rt.alloc(), terms, lines)?.as_slice(), said);
    }
    Ok(())
}

#[test]
fn texts_are_read_or_refused(rt: HostRuntime) -> Result<(), Fail> {
    use LeaseKind::{Byte, Count, Number, Word};
    // A text, and its first bad line with what is wrong, if there is one.
    const TEXTS: [(&[u8], Option<(u32, LeaseKind)>); 14] = [
        (b"", None),
        (b"# note\n\n  ask  1 2 3 \r\nverb 1 2 3", None),
        (b"ask 1 2 3\n#\t\n", Some((2, Byte))),
        (b"ask 1 2 3\r", Some((1, Byte))),
        (b"\n\nasks 1 2 3\n", Some((3, Word))),
        (b"ASK 1 2 3\n", Some((1, Word))),
        (b"ask 1 2\nfetch 1 2 3\n", Some((1, Count))),
        (b"ask 1 2 x 4", Some((1, Count))),
        (b"grant 1 2 3\n", Some((1, Count))),
        (b"take 1 2 3 4 5\n", Some((1, Count))),
        (b"verb\n", Some((1, Count))),
        (b"fence 1 2 4294967296\n", Some((1, Number))),
        (b"grant 1 2 3 -4\n", Some((1, Number))),
        (b"take 00000000001 2 3 4\n", Some((1, Number))),
    ];
    for (text, bad) in TEXTS {
        let found = first_bad(rt.alloc(), text);
        assert_eq!(rt; found, bad);
    }
    Ok(())
}

fn first_bad(alloc: Global, text: &[u8]) -> Option<(u32, LeaseKind)> {
    if text.len() > 4_194_304 {
        return None;
    }
    match parse_leases(alloc, text) {
        Err(LeaseFault::BadLine { number, kind }) => Some((number, kind)),
        Ok(_) | Err(LeaseFault::NoMemory) => None,
    }
}

#[test]
fn a_lease_exceeds_twice_the_error(rt: HostRuntime) {
    for (length, error, yes) in [
        (0, 0, false),
        (1, 0, true),
        (10, 4, true),
        (10, 5, false),
        (11, 5, true),
        (4_294_967_295, 2_147_483_647, true),
        (4_294_967_296, 0, false),
        (10, u64::MAX, false),
    ] {
        assert_eq!(rt; terms_of(length, error).is_some(), yes);
    }
}

#[test]
fn no_lease_is_shortened(rt: HostRuntime) -> Result<(), Fail> {
    let terms = terms_of(100, 5).ok_or("no terms")?;
    let mut book = Book::new(terms);
    assert_eq!(rt; book.grant(64, 50), Grant::Until(150));
    assert_eq!(rt; book.grant(64, 20), Grant::Until(150));
    assert_eq!(rt; book.fence(64, 149), Fence::Early(150));
    assert_eq!(rt; book.fence(64, 150), Fence::Fenced);
    assert_eq!(rt; book.fence(64, 10), Fence::Already);
    assert_eq!(rt; book.grant(64, 10), Grant::Fenced);
    assert_eq!(rt; book.fence(63, 0), Fence::Fenced);
    let mut holder = Holder::new(terms);
    assert!(rt; !holder.lawful(0));
    holder.take(10);
    holder.take(4);
    assert!(rt; holder.lawful(99));
    assert!(rt; !holder.lawful(100));
    assert_eq!(rt; holder.until(), 100);
    Ok(())
}
