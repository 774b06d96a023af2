ghost use Rattle.std.specs.Prelude.{◌≡◌, true, false};
ghost use Rattle.text_lines.specs.Number.{number_of};
ghost use Rattle.text_lines.specs.Words.{words_of};
ghost use Rattle.script_text.specs.LineForm.{call_delete, call_get, call_line, call_put, count_due, delete_line, fill_line, get_line, line_after, line_of, plain, put_line, sole_number, step_line, task_line, verbs_line, work_line};
ghost use Rattle.script_text.specs.LineRead.{IsRead};

use crate::faults::BadKind;
use crate::keywords::{Keyword, keyword_of};
use crate::line_faults::LineFault;
use crate::scripts::{CallText, Line};
use crate::shape_reading::shape_again;
use crate::word_counts::{only_word, three_words, two_words};
use crate::word_values::{bytes_of, word_of};
use std::alloc::Global;
use text_lines::{next_word, number_of};

/// Reads a line that is not skipped and stands after the shape line.
#[tactic(auto, unfolding(crate::specs::LineForm::line_of))]
pub(crate) fn line_of(alloc: Global, line: &[u8]) -> Result<Line, LineFault>
    ensures { IsRead result (line_of (words_of line.now)) }
{
    let Some((name, words)) = next_word(line) else {
        return Err(LineFault::Bad(BadKind::Word));
    };
    let Some(keyword) = keyword_of(name) else {
        return Err(LineFault::Bad(BadKind::Word));
    };
    line_after(alloc, keyword, words)
}

fn line_after(alloc: Global, keyword: Keyword, words: &[u8]) -> Result<Line, LineFault>
    ensures { IsRead result (line_after keyword (words_of words.now)) }
{
    match keyword {
        Keyword::Shape => Err(LineFault::Bad(shape_again(words))),
        Keyword::Register => plain(Line::Register, words),
        Keyword::Put => put_line(alloc, words),
        Keyword::Get => get_line(alloc, words),
        Keyword::Delete => delete_line(alloc, words),
        Keyword::Call => call_line(alloc, words),
        Keyword::Step => step_line(words),
        Keyword::Go => Ok(Line::Go(sole_number(words)?)),
        Keyword::Late => Ok(Line::Late(sole_number(words)?)),
        Keyword::Stop => Ok(Line::Stop(sole_number(words)?)),
        Keyword::Lose => Ok(Line::Lose(sole_number(words)?)),
        Keyword::Fill => fill_line(words),
        Keyword::Settle => plain(Line::Settle, words),
        Keyword::Recover => Ok(Line::Recover(sole_number(words)?)),
        Keyword::Join => Ok(Line::Join(sole_number(words)?)),
        Keyword::Task => task_line(words),
        Keyword::Work => work_line(words),
        Keyword::Verbs => verbs_line(words),
        Keyword::Dump => plain(Line::Dump, words),
        Keyword::Count => plain(Line::Count, words),
        Keyword::History => plain(Line::History, words),
    }
}

fn plain(line: Line, words: &[u8]) -> Result<Line, LineFault>
    ensures { IsRead result (plain line (words_of words.now)) }
{
    match next_word(words) {
        Some(_) => Err(LineFault::Bad(BadKind::Count)),
        None => Ok(line),
    }
}

fn sole_number(words: &[u8]) -> Result<u32, BadKind>
    ensures { result ≡ sole_number (words_of words.now) }
{
    let Some(word) = only_word(words) else {
        return Err(BadKind::Count);
    };
    number_of(word).ok_or(BadKind::Number)
}

fn count_due(word: &[u8]) -> Result<u32, BadKind>
    ensures { result ≡ count_due (number_of word.now) }
{
    let Some(count) = number_of(word) else {
        return Err(BadKind::Number);
    };
    if count == 0 {
        return Err(BadKind::Number);
    }
    Ok(count)
}

fn work_line(words: &[u8]) -> Result<Line, LineFault>
    ensures { IsRead result (work_line (words_of words.now)) }
{
    let Some(count) = only_word(words) else {
        return Err(LineFault::Bad(BadKind::Count));
    };
    Ok(Line::Work(count_due(count)?))
}

fn step_line(words: &[u8]) -> Result<Line, LineFault>
    ensures { IsRead result (step_line (words_of words.now)) }
{
    let Some((client, count)) = two_words(words) else {
        return Err(LineFault::Bad(BadKind::Count));
    };
    let Some(client) = number_of(client) else {
        return Err(LineFault::Bad(BadKind::Number));
    };
    let count = count_due(count)?;
    Ok(Line::Step { client, count })
}

fn fill_line(words: &[u8]) -> Result<Line, LineFault>
    ensures { IsRead result (fill_line (words_of words.now)) }
{
    let Some((node, word)) = two_words(words) else {
        return Err(LineFault::Bad(BadKind::Count));
    };
    let Some(node) = number_of(node) else {
        return Err(LineFault::Bad(BadKind::Number));
    };
    let Some(word) = word_of(word) else {
        return Err(LineFault::Bad(BadKind::Hex));
    };
    Ok(Line::Fill { node, word })
}

fn put_line(alloc: Global, words: &[u8]) -> Result<Line, LineFault>
    ensures { IsRead result (put_line (words_of words.now)) }
{
    let Some((client, key, value)) = three_words(words) else {
        return Err(LineFault::Bad(BadKind::Count));
    };
    let Some(client) = number_of(client) else {
        return Err(LineFault::Bad(BadKind::Number));
    };
    let Some(key) = bytes_of(alloc, key)? else {
        return Err(LineFault::Bad(BadKind::Hex));
    };
    let Some(value) = bytes_of(alloc, value)? else {
        return Err(LineFault::Bad(BadKind::Hex));
    };
    Ok(Line::Put { client, key, value })
}

fn get_line(alloc: Global, words: &[u8]) -> Result<Line, LineFault>
    ensures { IsRead result (get_line (words_of words.now)) }
{
    let Some((client, key)) = two_words(words) else {
        return Err(LineFault::Bad(BadKind::Count));
    };
    let Some(client) = number_of(client) else {
        return Err(LineFault::Bad(BadKind::Number));
    };
    let Some(key) = bytes_of(alloc, key)? else {
        return Err(LineFault::Bad(BadKind::Hex));
    };
    Ok(Line::Get { client, key })
}

fn delete_line(alloc: Global, words: &[u8]) -> Result<Line, LineFault>
    ensures { IsRead result (delete_line (words_of words.now)) }
{
    let Some((client, key)) = two_words(words) else {
        return Err(LineFault::Bad(BadKind::Count));
    };
    let Some(client) = number_of(client) else {
        return Err(LineFault::Bad(BadKind::Number));
    };
    let Some(key) = bytes_of(alloc, key)? else {
        return Err(LineFault::Bad(BadKind::Hex));
    };
    Ok(Line::Delete { client, key })
}

fn call_line(alloc: Global, words: &[u8]) -> Result<Line, LineFault>
    ensures { IsRead result (call_line (words_of words.now)) }
{
    let Some((client, words)) = next_word(words) else {
        return Err(LineFault::Bad(BadKind::Count));
    };
    let Some((name, words)) = next_word(words) else {
        return Err(LineFault::Bad(BadKind::Count));
    };
    if name == b"put".as_slice() {
        return call_put(alloc, client, words);
    }
    if name == b"get".as_slice() {
        return call_get(alloc, client, words);
    }
    if name == b"delete".as_slice() {
        return call_delete(alloc, client, words);
    }
    Err(LineFault::Bad(BadKind::Word))
}

fn call_put(alloc: Global, client: &[u8], words: &[u8]) -> Result<Line, LineFault>
    ensures { IsRead result (call_put client.now (words_of words.now)) }
{
    let Some((key, value)) = two_words(words) else {
        return Err(LineFault::Bad(BadKind::Count));
    };
    let Some(client) = number_of(client) else {
        return Err(LineFault::Bad(BadKind::Number));
    };
    let Some(key) = bytes_of(alloc, key)? else {
        return Err(LineFault::Bad(BadKind::Hex));
    };
    let Some(value) = bytes_of(alloc, value)? else {
        return Err(LineFault::Bad(BadKind::Hex));
    };
    let call = CallText::Put { key, value };
    Ok(Line::Call { client, call })
}

fn call_get(alloc: Global, client: &[u8], words: &[u8]) -> Result<Line, LineFault>
    ensures { IsRead result (call_get client.now (words_of words.now)) }
{
    let Some(key) = only_word(words) else {
        return Err(LineFault::Bad(BadKind::Count));
    };
    let Some(client) = number_of(client) else {
        return Err(LineFault::Bad(BadKind::Number));
    };
    let Some(key) = bytes_of(alloc, key)? else {
        return Err(LineFault::Bad(BadKind::Hex));
    };
    let call = CallText::Get { key };
    Ok(Line::Call { client, call })
}

fn call_delete(alloc: Global, client: &[u8], words: &[u8]) -> Result<Line, LineFault>
    ensures { IsRead result (call_delete client.now (words_of words.now)) }
{
    let Some(key) = only_word(words) else {
        return Err(LineFault::Bad(BadKind::Count));
    };
    let Some(client) = number_of(client) else {
        return Err(LineFault::Bad(BadKind::Number));
    };
    let Some(key) = bytes_of(alloc, key)? else {
        return Err(LineFault::Bad(BadKind::Hex));
    };
    let call = CallText::Delete { key };
    Ok(Line::Call { client, call })
}

fn task_line(words: &[u8]) -> Result<Line, LineFault>
    ensures { IsRead result (task_line (words_of words.now)) }
{
    let Some((name, words)) = next_word(words) else {
        return Err(LineFault::Bad(BadKind::Count));
    };
    if name == b"settle".as_slice() {
        return plain(Line::TaskSettle, words);
    }
    if name == b"recover".as_slice() {
        return Ok(Line::TaskRecover(sole_number(words)?));
    }
    if name == b"join".as_slice() {
        return Ok(Line::TaskJoin(sole_number(words)?));
    }
    Err(LineFault::Bad(BadKind::Word))
}

fn verbs_line(words: &[u8]) -> Result<Line, LineFault>
    ensures { IsRead result (verbs_line (words_of words.now)) }
{
    let Some((name, words)) = next_word(words) else {
        return Err(LineFault::Bad(BadKind::Count));
    };
    if name == b"on".as_slice() {
        return plain(Line::Verbs(true), words);
    }
    if name == b"off".as_slice() {
        return plain(Line::Verbs(false), words);
    }
    Err(LineFault::Bad(BadKind::Word))
}
