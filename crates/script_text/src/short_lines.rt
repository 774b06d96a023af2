//! The lines of a call, of its end, of an entry of a history and of a word of a dump, as text. Most of
//! what a script prints are such lines with a short key and a short value, so these are made in place:
//! no memory is asked for.

ghost use Rattle.std.specs.Prelude.{◌≡◌, ◌+◌, ◌≤◌, ◌++◌, ◌&&◌, [], ◌∷◌, false, length, map, true};
ghost use Rattle.script_text.specs.Lent.{call_lent, reply_lent};
ghost use Rattle.script_text.specs.OutputPart.{call_parts, part_text, reply_parts};
ghost use Rattle.script_text.specs.OutputText.{is_plain, is_plain_call, is_plain_reply, is_short, joined, line_text, line_words, spaced};
ghost use Rattle.script_text.specs.Shown.{bytes_text};
ghost use Rattle.script_text.specs.declared.out_lines.OutLine.TheVariants.{Called, Ended, Entry, Word};

use crate::lent::{LentCall, LentReply, lend_call, lend_reply};
use crate::out_lines::OutLine;
use crate::short_texts::{SHORT_LINE, put_number, put_text, put_word};
use crate::writing::is_shown_as_is;
use arrayvec::ArrayVec;

/// Puts the line of a call, of its end, of an entry or of a word with its line feed, where each key and
/// each value in it has at most 16 bytes and is printed as it is, and answers true; of any other line
/// nothing, and false.
pub fn put_short_line(into: &mut ArrayVec<u8, SHORT_LINE>, out: &OutLine) -> bool
    requires { into.old.items ≡ [] }
    ensures short { result ≡ is_short out.now }
    ensures line { result ≡ true → into.new.items ≡ line_text out.now }
    ensures other { result ≡ false → into.new.items ≡ [] }
{
    if !is_short(out) {
        return false;
    }
    match out {
        OutLine::Called {
            client,
            number,
            call,
        } => put_called(into, *client, *number, lend_call(call)),
        OutLine::Ended {
            client,
            number,
            reply,
        } => put_ended(into, *client, *number, lend_reply(reply)),
        OutLine::Entry {
            client,
            number,
            call,
            reply,
            unreturned,
        } => {
            return put_short_entry(
                into,
                *client,
                *number,
                lend_call(call),
                lend_reply(reply),
                *unreturned,
            );
        }
        OutLine::Word { node, at, word } => put_stored(into, *node, *at, *word),
        _ => return false,
    }
    into.push(b'\n');
    true
}

/// Puts the line of an entry with its line feed, where each key and each value in it has at most 16 bytes
/// and is printed as it is, and answers true; else nothing, and false.
#[inline(always)]
pub fn put_short_entry(
    into: &mut ArrayVec<u8, SHORT_LINE>,
    client: u32,
    number: u32,
    call: LentCall<'_>,
    reply: LentReply<'_>,
    unreturned: bool,
) -> bool
    requires { into.old.items ≡ [] }
    ensures short { result ≡ (is_plain_call (call_lent call.entry) && is_plain_reply (reply_lent reply.entry)) }
    ensures line { result ≡ true → into.new.items
        ≡ line_text (Entry client number (call_lent call.entry) (reply_lent reply.entry) unreturned) }
    ensures other { result ≡ false → into.new.items ≡ [] }
{
    if !is_plain_call(call) || !is_plain_reply(reply) {
        return false;
    }
    put_entry(into, client, number, call, reply, unreturned);
    into.push(b'\n');
    true
}

fn is_short(out: &OutLine) -> bool
    ensures { result ≡ is_short out.now }
{
    match out {
        OutLine::Called { call, .. } => is_plain_call(lend_call(call)),
        OutLine::Ended { reply, .. } => is_plain_reply(lend_reply(reply)),
        OutLine::Entry { call, reply, .. } => {
            is_plain_call(lend_call(call)) && is_plain_reply(lend_reply(reply))
        }
        OutLine::Word { .. } => true,
        _ => false,
    }
}

#[inline(always)]
fn is_plain_call(call: LentCall<'_>) -> bool
    ensures { result ≡ is_plain_call (call_lent call.entry) }
{
    match call {
        LentCall::Put { key, value } => is_plain(key) && is_plain(value),
        LentCall::Get { key } => is_plain(key),
        LentCall::Delete { key } => is_plain(key),
    }
}

#[inline(always)]
fn is_plain_reply(reply: LentReply<'_>) -> bool
    ensures { result ≡ is_plain_reply (reply_lent reply.entry) }
{
    match reply {
        LentReply::Value(value) => is_plain(value),
        _ => true,
    }
}

fn is_plain(bytes: &[u8]) -> bool
    ensures { result ≡ is_plain bytes.now }
{
    bytes.len() < 17 && is_shown_as_is(bytes)
}

fn put_called(into: &mut ArrayVec<u8, SHORT_LINE>, client: u32, number: u32, call: LentCall<'_>)
    requires empty { into.old.items ≡ [] }
    requires plain { is_plain_call (call_lent call) ≡ true }
    ensures text { into.new.items ≡ joined (line_words (Called client number (call_lent call.entry))) }
    ensures few { length into.new.items ≤ 127 }
{
    put_text(into, b"called");
    put_number(into, client);
    put_number(into, number);
    put_call(into, call);
}

fn put_ended(into: &mut ArrayVec<u8, SHORT_LINE>, client: u32, number: u32, reply: LentReply<'_>)
    requires empty { into.old.items ≡ [] }
    requires plain { is_plain_reply (reply_lent reply) ≡ true }
    ensures text { into.new.items ≡ joined (line_words (Ended client number (reply_lent reply.entry))) }
    ensures few { length into.new.items ≤ 127 }
{
    put_text(into, b"ended");
    put_number(into, client);
    put_number(into, number);
    put_reply(into, reply);
}

#[inline(always)]
fn put_entry(
    into: &mut ArrayVec<u8, SHORT_LINE>,
    client: u32,
    number: u32,
    call: LentCall<'_>,
    reply: LentReply<'_>,
    unreturned: bool,
)
    requires empty { into.old.items ≡ [] }
    requires call { is_plain_call (call_lent call) ≡ true }
    requires reply { is_plain_reply (reply_lent reply) ≡ true }
    ensures text { into.new.items ≡ joined (line_words (Entry client number (call_lent call.entry) (reply_lent reply.entry) unreturned)) }
    ensures few { length into.new.items ≤ 127 }
{
    into.push(b'h');
    put_number(into, client);
    put_number(into, number);
    put_call(into, call);
    put_reply(into, reply);
    if unreturned {
        put_text(into, b" open");
    }
}

fn put_stored(into: &mut ArrayVec<u8, SHORT_LINE>, node: u32, at: u32, word: u64)
    requires { into.old.items ≡ [] }
    ensures text { into.new.items ≡ joined (line_words (Word node at word)) }
    ensures few { length into.new.items ≤ 127 }
{
    into.push(b'w');
    put_number(into, node);
    put_number(into, at);
    put_word(into, word);
}

#[inline(always)]
fn put_call(into: &mut ArrayVec<u8, SHORT_LINE>, call: LentCall<'_>)
    requires room { length into.old.items + 38 ≤ 128 }
    requires plain { is_plain_call (call_lent call) ≡ true }
    ensures text { into.new.items ≡ into.old.items ++ spaced (map part_text (call_parts (call_lent call.entry))) }
    ensures few { length into.new.items ≤ length into.old.items + 38 }
{
    match call {
        LentCall::Put { key, value } => {
            put_text(into, b" put");
            put_bytes(into, key);
            put_bytes(into, value);
        }
        LentCall::Get { key } => {
            put_text(into, b" get");
            put_bytes(into, key);
        }
        LentCall::Delete { key } => {
            put_text(into, b" delete");
            put_bytes(into, key);
        }
    }
}

#[inline(always)]
fn put_reply(into: &mut ArrayVec<u8, SHORT_LINE>, reply: LentReply<'_>)
    requires room { length into.old.items + 47 ≤ 128 }
    requires plain { is_plain_reply (reply_lent reply) ≡ true }
    ensures text { into.new.items ≡ into.old.items ++ spaced (map part_text (reply_parts (reply_lent reply.entry))) }
    ensures few { length into.new.items ≤ length into.old.items + 47 }
{
    match reply {
        LentReply::Done => put_text(into, b" Done"),
        LentReply::Value(value) => {
            put_text(into, b" Value");
            put_bytes(into, value);
        }
        LentReply::Absent => put_text(into, b" Absent"),
        LentReply::Full => put_text(into, b" Full"),
        LentReply::NoSpace {
            class,
            client,
            begin,
        } => {
            put_text(into, b" NoSpace");
            put_number(into, class);
            put_number(into, client);
            put_word(into, begin);
        }
    }
}

#[tactic(auto, unfolding(crate::specs::Shown::bytes_text))]
fn put_bytes(into: &mut ArrayVec<u8, SHORT_LINE>, bytes: &[u8])
    requires room { length into.old.items + 17 ≤ 128 }
    requires plain { is_plain bytes.now ≡ true }
    ensures text { into.new.items ≡ into.old.items ++ spaced (bytes_text bytes.now ∷ []) }
    ensures few { length into.new.items ≤ length into.old.items + 17 }
{
    into.push(b' ');
    put_text(into, bytes);
}
