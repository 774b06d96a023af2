ghost use Rattle.std.specs.Prelude.{◌≡◌, ◌≤◌, MatchOption, None, Some, length};
ghost use Rattle.text_lines.specs.Lines.{lines_of};
ghost use Rattle.text_lines.specs.Words.{words_of};
ghost use Rattle.lease_core.specs.Grammar.{IsRead, event_of, events_from, four_numbers, line_event, three_numbers, three_words};
ghost use Rattle.lease_core.specs.declared.reading.LeaseFault.TheVariants.{NoMemory};

use crate::lease_lines::LeaseLine;
use std::alloc::{AllocError, AllocFailed, Global};
use text_lines::{has_bad_byte, is_skipped, next_line, next_word, number_of};

/// What is wrong with a line, in the order in which it is tested.
#[derive(Clone, Copy, Debug, PartialEq, Eq)]
pub enum LeaseKind {
    /// A byte outside 20 to 7e, also in a line that is skipped.
    Byte,
    /// The first word is none of those that begin a line.
    Word,
    /// There are too few words, or too many.
    Count,
    /// A word is no number.
    Number,
}

/// Why a text is not read.
#[derive(Clone, Copy, Debug, PartialEq, Eq)]
pub enum LeaseFault {
    /// The first line that is bad, counted from 1, and what is wrong with it.
    BadLine { number: u32, kind: LeaseKind },
    NoMemory,
}

impl From<AllocError> for LeaseFault {
    ghost from_gives = { λ _ fault. fault ≡ NoMemory };

    fn from(_error: AllocError) -> LeaseFault {
        LeaseFault::NoMemory
    }
}

impl<T: Drop> From<AllocFailed<T>> for LeaseFault {
    ghost from_gives = { λ _ fault. fault ≡ NoMemory };

    fn from(_error: AllocFailed<T>) -> LeaseFault {
        LeaseFault::NoMemory
    }
}

/// The lines of a text that are not skipped, or the first bad line and what is wrong with it.
pub fn parse_leases(alloc: Global, text: &[u8]) -> Result<Vec<LeaseLine>, LeaseFault>
    requires { length text.now ≤ 4194304 }
    ensures { IsRead result (events_from 1 (lines_of text.now)) }
{
    let mut events = Vec::new(alloc);
    let mut number = 1;
    let mut rest = text;
    while let Some((line, after)) = next_line(rest) {
        match line_event(line) {
            Ok(Some(event)) => events.push(event)?,
            Ok(None) => {}
            Err(kind) => return Err(LeaseFault::BadLine { number, kind }),
        }
        number += 1;
        rest = after;
    }
    Ok(events)
}

// The event of a line that is not skipped.
fn line_event(line: &[u8]) -> Result<Option<LeaseLine>, LeaseKind>
    ensures { result ≡ line_event line.now }
{
    if has_bad_byte(line) {
        return Err(LeaseKind::Byte);
    }
    if is_skipped(line) {
        return Ok(None);
    }
    Ok(Some(event_of(line)?))
}

fn event_of(line: &[u8]) -> Result<LeaseLine, LeaseKind>
    ensures { result ≡ event_of (words_of line.now) }
{
    let Some((name, rest)) = next_word(line) else {
        return Err(LeaseKind::Word);
    };
    match name {
        b"ask" => {
            let (client, p, m) = three_numbers(rest)?;
            Ok(LeaseLine::Ask { client, p, m })
        }
        b"grant" => {
            let (client, ask, p, m) = four_numbers(rest)?;
            Ok(LeaseLine::Grant { client, ask, p, m })
        }
        b"take" => {
            let (client, ask, p, m) = four_numbers(rest)?;
            Ok(LeaseLine::Take { client, ask, p, m })
        }
        b"verb" => {
            let (client, p, m) = three_numbers(rest)?;
            Ok(LeaseLine::Verb { client, p, m })
        }
        b"fence" => {
            let (client, p, m) = three_numbers(rest)?;
            Ok(LeaseLine::Fence { client, p, m })
        }
        _ => Err(LeaseKind::Word),
    }
}

fn three_numbers(line: &[u8]) -> Result<(u32, u32, u32), LeaseKind>
    ensures { result ≡ three_numbers (words_of line.now) }
{
    let Some((first, second, third)) = three_words(line) else {
        return Err(LeaseKind::Count);
    };
    let Some(first) = number_of(first) else {
        return Err(LeaseKind::Number);
    };
    let Some(second) = number_of(second) else {
        return Err(LeaseKind::Number);
    };
    let Some(third) = number_of(third) else {
        return Err(LeaseKind::Number);
    };
    Ok((first, second, third))
}

fn four_numbers(line: &[u8]) -> Result<(u32, u32, u32, u32), LeaseKind>
    ensures { result ≡ four_numbers (words_of line.now) }
{
    let Some((first, rest)) = next_word(line) else {
        return Err(LeaseKind::Count);
    };
    let (second, third, fourth) = three_numbers(rest)?;
    let Some(first) = number_of(first) else {
        return Err(LeaseKind::Number);
    };
    Ok((first, second, third, fourth))
}

// The words of a line of three words.
fn three_words(line: &[u8]) -> Option<(&[u8], &[u8], &[u8])>
    ensures { MatchOption result (three_words (words_of line.now) ≡ None)
        (λ words. three_words (words_of line.now) ≡ Some (words.0.now, words.1.now, words.2.now)) }
{
    let (first, rest) = next_word(line)?;
    let (second, rest) = next_word(rest)?;
    let (third, rest) = next_word(rest)?;
    match next_word(rest) {
        None => Some((first, second, third)),
        Some(_) => None,
    }
}
