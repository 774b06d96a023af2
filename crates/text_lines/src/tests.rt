use super::{has_bad_byte, is_skipped, next_line, next_word, number_of};
use std::alloc::{AllocError, Global};
use std::test::Fail;

// The lines of a text, each with `|` behind it.
fn lines(alloc: Global, text: &[u8]) -> Result<Vec<u8>, AllocError> {
    let mut shown = Vec::new(alloc);
    let mut rest = text;
    for _ in 0..16 {
        let Some((line, after)) = next_line(rest) else {
            return Ok(shown);
        };
        shown.extend_from_slice(line)?;
        shown.extend_from_slice(b"|")?;
        rest = after;
    }
    Ok(shown)
}

fn words(alloc: Global, line: &[u8]) -> Result<Vec<u8>, AllocError> {
    let mut shown = Vec::new(alloc);
    let mut rest = line;
    for _ in 0..16 {
        let Some((word, after)) = next_word(rest) else {
            return Ok(shown);
        };
        shown.extend_from_slice(word)?;
        shown.extend_from_slice(b"|")?;
        rest = after;
    }
    Ok(shown)
}

#[test]
fn lines_end_with_a_line_feed(rt: HostRuntime) -> Result<(), Fail> {
    const CASES: [(&[u8], &[u8]); 8] = [
        (b"", b""),
        (b"\n", b"|"),
        (b"a\nb", b"a|b|"),
        (b"a\n\nb\n", b"a||b|"),
        (b"a\r\nb\r\n", b"a|b|"),
        (b"a\r\r\nb\r", b"a\r|b\r|"),
        (b"a\rb\n\r\n", b"a\rb||"),
        (b"\r", b"\r|"),
    ];
    for (text, shown) in CASES {
        assert_eq!(rt; lines(rt.alloc(), text)?.as_slice(), shown);
    }
    Ok(())
}

#[test]
fn words_are_parted_by_blanks(rt: HostRuntime) -> Result<(), Fail> {
    const CASES: [(&[u8], &[u8], bool); 7] = [
        (b"", b"", true),
        (b"   ", b"", true),
        (b"a", b"a|", false),
        (b"  put 1   a ", b"put|1|a|", false),
        (b"a\tb", b"a\tb|", false),
        (b"  # a", b"#|a|", true),
        (b"a# b", b"a#|b|", false),
    ];
    for (line, shown, skipped) in CASES {
        assert_eq!(rt; words(rt.alloc(), line)?.as_slice(), shown);
        assert_eq!(rt; is_skipped(line), skipped);
    }
    Ok(())
}

#[test]
fn numbers_and_bytes_have_bounds(rt: HostRuntime) {
    const NUMBERS: [(&[u8], Option<u32>); 8] = [
        (b"0", Some(0)),
        (b"007", Some(7)),
        (b"4294967295", Some(4294967295)),
        (b"4294967296", None),
        (b"9999999999", None),
        (b"00000000001", None),
        (b"", None),
        (b"1a", None),
    ];
    for (word, number) in NUMBERS {
        assert_eq!(rt; number_of(word), number);
    }
    const LINES: [(&[u8], bool); 6] = [
        (b"", false),
        (b" ~", false),
        (b"a\x1f", true),
        (b"\x7f", true),
        (b"a\tb", true),
        (b"\xff", true),
    ];
    for (line, bad) in LINES {
        assert_eq!(rt; has_bad_byte(line), bad);
    }
}
