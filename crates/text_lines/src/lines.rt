ghost use Rattle.std.specs.Prelude.{◌≡◌, MatchOption, []};
ghost use Rattle.std.specs.List.{position};
ghost use Rattle.text_lines.specs.Cut.{IsCut};
ghost use Rattle.text_lines.specs.Lines.{has_bad_byte, is_bad, is_feed, lines_of, without_return};

/// The first line of a text, without the line feed that ends it and one carriage return directly
/// before that, and the text after it. The last line may lack its line feed.
pub fn next_line(text: &[u8]) -> Option<(&[u8], &[u8])>
    ensures { MatchOption result (lines_of text.now ≡ [])
        (λ parts. IsCut lines_of text.now parts.0.now parts.1.now) }
{
    if text.is_empty() {
        return None;
    }
    match feed_at(text) {
        Some(at) => Some((without_return(&text[..at]), &text[at + 1..])),
        None => Some((text, &text[text.len()..])),
    }
}

/// Whether some byte of a line is outside 20 to 7e.
pub fn has_bad_byte(line: &[u8]) -> bool
    ensures { result ≡ has_bad_byte line.now }
{
    line.iter().any(|byte| is_bad(*byte))
}

fn is_bad(byte: u8) -> bool
    ensures { result ≡ is_bad byte }
{
    byte < b' ' || b'~' < byte
}

fn feed_at(text: &[u8]) -> Option<usize>
    ensures { result ≡ position is_feed text.now }
{
    text.iter().position(|byte| *byte == b'\n')
}

fn without_return(piece: &[u8]) -> &[u8]
    ensures { result.now ≡ without_return piece.now }
{
    match piece {
        [line @ .., b'\r'] => line,
        _ => piece,
    }
}
