ghost use Rattle.std.specs.Prelude.{◌≡◌, MatchOption, []};
ghost use Rattle.std.specs.List.{position};
ghost use Rattle.text_lines.specs.Cut.{IsCut};
ghost use Rattle.text_lines.specs.Words.{begins_note, is_blank, is_of_word, is_skipped, words_of};

/// The first word of a line, and what stands after it.
pub fn next_word(line: &[u8]) -> Option<(&[u8], &[u8])>
    ensures { MatchOption result (words_of line.now ≡ [])
        (λ parts. IsCut words_of line.now parts.0.now parts.1.now) }
{
    let Some(start) = filled_at(line) else {
        return None;
    };
    let words = &line[start..];
    match blank_at(words) {
        Some(end) => Some((&words[..end], &words[end + 1..])),
        None => Some((words, &words[words.len()..])),
    }
}

/// Whether a line is passed over: it has no word, or its first word begins with `#`.
pub fn is_skipped(line: &[u8]) -> bool
    ensures { result ≡ is_skipped (words_of line.now) }
{
    match next_word(line) {
        Some((word, _)) => begins_note(word),
        None => true,
    }
}

fn begins_note(word: &[u8]) -> bool
    ensures { result ≡ begins_note word.now }
{
    word.first() == Some(&b'#')
}

fn blank_at(line: &[u8]) -> Option<usize>
    ensures { result ≡ position is_blank line.now }
{
    line.iter().position(|byte| *byte == b' ')
}

fn filled_at(line: &[u8]) -> Option<usize>
    ensures { result ≡ position is_of_word line.now }
{
    line.iter().position(|byte| *byte != b' ')
}
