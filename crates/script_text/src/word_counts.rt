//! The words of a line, where it has just so many.

ghost use Rattle.std.specs.Prelude.{◌≡◌, ◌==◌, length};
ghost use Rattle.text_lines.specs.Words.{words_of};
ghost use Rattle.script_text.specs.WordCount.{AreThree, AreTwo, IsOnly};

use text_lines::next_word;

pub(crate) fn only_word(line: &[u8]) -> Option<&[u8]>
    ensures { IsOnly (words_of line.now) result }
{
    let Some((word, rest)) = next_word(line) else {
        return None;
    };
    if next_word(rest).is_some() {
        return None;
    }
    Some(word)
}

pub(crate) fn two_words(line: &[u8]) -> Option<(&[u8], &[u8])>
    ensures { AreTwo (words_of line.now) result }
{
    let Some((first, rest)) = next_word(line) else {
        return None;
    };
    let Some(second) = only_word(rest) else {
        return None;
    };
    Some((first, second))
}

pub(crate) fn three_words(line: &[u8]) -> Option<(&[u8], &[u8], &[u8])>
    ensures { AreThree (words_of line.now) result }
{
    let Some((first, rest)) = next_word(line) else {
        return None;
    };
    let Some((second, third)) = two_words(rest) else {
        return None;
    };
    Some((first, second, third))
}

/// Whether a line has just so many words. It reads no more than one word more.
pub(crate) fn has_words(line: &[u8], count: usize) -> bool
    ensures { result ≡ (length (words_of line.now) == count) }
{
    let mut rest = line;
    for seen in 0..count {
        let Some((_, after)) = next_word(rest) else {
            return false;
        };
        rest = after;
    }
    next_word(rest).is_none()
}
