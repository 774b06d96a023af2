//! Output lines as text.

ghost use Rattle.std.specs.Prelude.{◌≡◌, ℕ, ◌++◌, List, [], ◌∷◌, IfOk, OnErr, OnOk, false, flat_map, map};
ghost use Rattle.std.specs.Char.{is_ascii_graphic};
ghost use Rattle.std.specs.Fmt.{decimal};
ghost use Rattle.std.specs.List.{list_all};
ghost use Rattle.script_text.specs.OutputPart.{call_parts, not_yet_parts, part_text, refusal_parts, reply_parts};
ghost use Rattle.script_text.specs.OutputText.{is_verb, joined, line_text, line_words, spaced};
ghost use Rattle.script_text.specs.Shown.{actor_text, are_visible, bytes_text, hex_text, is_shown_as_is, word_text};
ghost use Rattle.script_text.specs.declared.out_lines.OutLine.TheVariants.{Blocks, Called, Ended, Entry, NotYet, Objects, Refused, Took, Word};

use crate::byte_text::Text;
use crate::out_lines::{NotYetText, OutLine, RefusalText, ReplyText};
use crate::scripts::CallText;
use crate::verb_lines::put_verb_line;
use crate::word_texts::{hex_digit, word_digits};
use arrayvec::ArrayVec;
use itoa::Buffer;
use std::alloc::{AllocError, Global};

// Room for most lines.
const LINE: usize = 128;

/// Appends one line with its line feed. After want of memory `into` is as it was.
pub fn line_text(alloc: Global, out: &OutLine, into: &mut Vec<u8>) -> Result<(), AllocError>
    ensures text { OnOk result (into.new.items ≡ into.old.items ++ line_text out.now) }
    ensures unchanged { OnErr result (into.new.items ≡ into.old.items) }
{
    let line = line_bytes(alloc, out)?;
    into.extend_from_slice(&line)
}

/// One line with its line feed.
pub fn line_bytes(alloc: Global, out: &OutLine) -> Result<Vec<u8>, AllocError>
    ensures { IfOk result (λ line. line.items ≡ line_text out.now) }
{
    let mut verb = ArrayVec::new();
    if put_verb_line(&mut verb, out) {
        return verb.as_slice().to_vec(alloc);
    }
    let mut line = Vec::with_capacity(alloc, LINE)?;
    push_line(&mut line, out)?;
    line.push(b'\n')?;
    Ok(line)
}

// Each of these appends words, with a blank before each but the first word of a line.

fn push_line(into: &mut Vec<u8>, out: &OutLine) -> Result<(), AllocError>
    requires { is_verb out.now ≡ false }
    ensures { OnOk result (into.new.items ≡ into.old.items ++ joined (line_words out.now)) }
{
    match out {
        OutLine::Client(client) => push_named(into, b"client", *client),
        OutLine::Called {
            client,
            number,
            call,
        } => push_called(into, *client, *number, call),
        OutLine::Ended {
            client,
            number,
            reply,
        } => push_ended(into, *client, *number, reply),
        OutLine::NotYet { actor, why } => push_not_done(into, *actor, why),
        OutLine::Took { actor, verbs } => push_took(into, *actor, *verbs),
        OutLine::Stopped(client) => push_named(into, b"stopped", *client),
        OutLine::Lost(node) => push_named(into, b"lost", *node),
        OutLine::TaskSettle => into.extend_from_slice(b"task settle"),
        OutLine::TaskRecover(client) => push_named(into, b"task recover", *client),
        OutLine::TaskJoin(node) => push_named(into, b"task join", *node),
        OutLine::Recovered(client) => push_named(into, b"recovered", *client),
        OutLine::Opened(epoch) => push_worded(into, b"opened", *epoch),
        OutLine::Waiting { client, begin } => push_marked(into, b"waiting", *client, *begin),
        OutLine::Refused(why) => push_refused(into, why),
        OutLine::Filled(node) => push_named(into, b"filled", *node),
        OutLine::Joined(node) => push_named(into, b"joined", *node),
        OutLine::Word { node, at, word } => push_stored(into, *node, *at, *word),
        OutLine::Dumped(words) => push_named(into, b"dumped", *words),
        OutLine::Blocks {
            unused,
            owned,
            awaiting,
            released,
        } => push_blocks(into, *unused, *owned, *awaiting, *released),
        OutLine::Objects {
            stock,
            present,
            held,
        } => push_objects(into, *stock, *present, *held),
        OutLine::History(entries) => push_named(into, b"history", *entries),
        OutLine::Entry {
            client,
            number,
            call,
            reply,
            unreturned,
        } => push_entry(into, *client, *number, call, reply, *unreturned),
        OutLine::End => into.extend_from_slice(b"end"),
        _ => unreachable!(),
    }
}

fn push_called(
    into: &mut Vec<u8>,
    client: u32,
    number: u32,
    call: &CallText,
) -> Result<(), AllocError>
    ensures { OnOk result (into.new.items ≡ into.old.items ++ joined (line_words (Called client number call.now))) }
{
    push_counted(into, b"called", client, number)?;
    push_call(into, call)
}

fn push_ended(
    into: &mut Vec<u8>,
    client: u32,
    number: u32,
    reply: &ReplyText,
) -> Result<(), AllocError>
    ensures { OnOk result (into.new.items ≡ into.old.items ++ joined (line_words (Ended client number reply.now))) }
{
    push_counted(into, b"ended", client, number)?;
    push_reply(into, reply)
}

fn push_not_done(into: &mut Vec<u8>, actor: Option<u32>, why: &NotYetText) -> Result<(), AllocError>
    ensures { OnOk result (into.new.items ≡ into.old.items ++ joined (line_words (NotYet actor why.now))) }
{
    into.extend_from_slice(b"notyet")?;
    push_actor(into, actor)?;
    push_not_yet(into, why)
}

fn push_took(into: &mut Vec<u8>, actor: Option<u32>, verbs: u32) -> Result<(), AllocError>
    ensures { OnOk result (into.new.items ≡ into.old.items ++ joined (line_words (Took actor verbs))) }
{
    into.extend_from_slice(b"took")?;
    push_actor(into, actor)?;
    push_number(into, verbs)
}

fn push_refused(into: &mut Vec<u8>, why: &RefusalText) -> Result<(), AllocError>
    ensures { OnOk result (into.new.items ≡ into.old.items ++ joined (line_words (Refused why.now))) }
{
    into.extend_from_slice(b"refused")?;
    push_refusal(into, why)
}

fn push_stored(into: &mut Vec<u8>, node: u32, at: u32, word: u64) -> Result<(), AllocError>
    ensures { OnOk result (into.new.items ≡ into.old.items ++ joined (line_words (Word node at word))) }
{
    push_counted(into, b"w", node, at)?;
    push_word(into, word)
}

fn push_blocks(
    into: &mut Vec<u8>,
    unused: u32,
    owned: u32,
    awaiting: u32,
    released: u32,
) -> Result<(), AllocError>
    ensures { OnOk result (into.new.items ≡ into.old.items ++ joined (line_words (Blocks unused owned awaiting released))) }
{
    into.extend_from_slice(b"blocks")?;
    push_sizes(into, b"unused", unused, b"owned", owned)?;
    push_sizes(into, b"awaiting", awaiting, b"released", released)
}

fn push_objects(into: &mut Vec<u8>, stock: u32, present: u32, held: u32) -> Result<(), AllocError>
    ensures { OnOk result (into.new.items ≡ into.old.items ++ joined (line_words (Objects stock present held))) }
{
    into.extend_from_slice(b"objects")?;
    push_sizes(into, b"stock", stock, b"present", present)?;
    push_named(into, b" held", held)
}

fn push_entry(
    into: &mut Vec<u8>,
    client: u32,
    number: u32,
    call: &CallText,
    reply: &ReplyText,
    unreturned: bool,
) -> Result<(), AllocError>
    ensures { OnOk result (into.new.items ≡ into.old.items
        ++ joined (line_words (Entry client number call.now reply.now unreturned))) }
{
    push_counted(into, b"h", client, number)?;
    push_call(into, call)?;
    push_reply(into, reply)?;
    if unreturned {
        into.extend_from_slice(b" open")?;
    }
    Ok(())
}

fn push_call(into: &mut Vec<u8>, call: &CallText) -> Result<(), AllocError>
    ensures { OnOk result (into.new.items ≡ into.old.items ++ spaced (map part_text (call_parts call.now))) }
{
    match call {
        CallText::Put { key, value } => {
            into.extend_from_slice(b" put")?;
            push_bytes(into, key)?;
            push_bytes(into, value)
        }
        CallText::Get { key } => {
            into.extend_from_slice(b" get")?;
            push_bytes(into, key)
        }
        CallText::Delete { key } => {
            into.extend_from_slice(b" delete")?;
            push_bytes(into, key)
        }
    }
}

fn push_reply(into: &mut Vec<u8>, reply: &ReplyText) -> Result<(), AllocError>
    ensures { OnOk result (into.new.items ≡ into.old.items ++ spaced (map part_text (reply_parts reply.now))) }
{
    match reply {
        ReplyText::Done => into.extend_from_slice(b" Done"),
        ReplyText::Value(value) => {
            into.extend_from_slice(b" Value")?;
            push_bytes(into, value)
        }
        ReplyText::Absent => into.extend_from_slice(b" Absent"),
        ReplyText::Full => into.extend_from_slice(b" Full"),
        ReplyText::NoSpace {
            class,
            client,
            begin,
        } => {
            push_counted(into, b" NoSpace", *class, *client)?;
            push_word(into, *begin)
        }
    }
}

fn push_not_yet(into: &mut Vec<u8>, why: &NotYetText) -> Result<(), AllocError>
    ensures { OnOk result (into.new.items ≡ into.old.items ++ spaced (map part_text (not_yet_parts why.now))) }
{
    match why {
        NotYetText::Sealed(epoch) => push_worded(into, b" Sealed", *epoch),
        NotYetText::Lost(node) => push_named(into, b" Lost", *node),
        NotYetText::Unchanged { slot, word } => { push_marked(into, b" Unchanged", *slot, *word) }
    }
}

fn push_refusal(into: &mut Vec<u8>, why: &RefusalText) -> Result<(), AllocError>
    ensures { OnOk result (into.new.items ≡ into.old.items ++ spaced (map part_text (refusal_parts why.now))) }
{
    match why {
        RefusalText::Clients(clients) => push_named(into, b" clients", *clients),
        RefusalText::Unknown(client) => push_named(into, b" unknown", *client),
        RefusalText::Stopped(client) => push_named(into, b" stopped", *client),
        RefusalText::Busy(client) => push_named(into, b" busy", *client),
        RefusalText::Key(bytes) => push_named(into, b" key", *bytes),
        RefusalText::Value(bytes) => push_named(into, b" value", *bytes),
        RefusalText::Spent(client) => push_named(into, b" spent", *client),
        RefusalText::Idle(client) => push_named(into, b" idle", *client),
        RefusalText::Live(node) => push_named(into, b" live", *node),
        RefusalText::Running(client) => push_named(into, b" running", *client),
        RefusalText::Recovered(client) => push_named(into, b" recovered", *client),
        RefusalText::Node(node) => push_named(into, b" node", *node),
        RefusalText::Gone(node) => push_named(into, b" gone", *node),
        RefusalText::LastLive(region) => push_named(into, b" lastlive", *region),
        RefusalText::Task => into.extend_from_slice(b" task"),
        RefusalText::Masked(node) => push_named(into, b" masked", *node),
        RefusalText::Sealed(epoch) => push_worded(into, b" sealed", *epoch),
        RefusalText::Other => Ok(()),
    }
}

fn push_actor(into: &mut Vec<u8>, actor: Option<u32>) -> Result<(), AllocError>
    ensures { OnOk result (into.new.items ≡ into.old.items ++ spaced (actor_text actor ∷ [])) }
{
    match actor {
        None => into.extend_from_slice(b" m"),
        Some(client) => push_number(into, client),
    }
}

// Appends this text, and two numbers.
fn push_counted(into: &mut Vec<u8>, text: &[u8], first: u32, second: u32) -> Result<(), AllocError>
    ensures { OnOk result (into.new.items ≡ into.old.items ++ (text.now ++ spaced (decimal first ∷ decimal second ∷ []))) }
{
    push_named(into, text, first)?;
    push_number(into, second)
}

// Appends this text, a number and a word.
fn push_marked(into: &mut Vec<u8>, text: &[u8], number: u32, word: u64) -> Result<(), AllocError>
    ensures { OnOk result (into.new.items ≡ into.old.items ++ (text.now ++ spaced (decimal number ∷ word_text word ∷ []))) }
{
    push_named(into, text, number)?;
    push_word(into, word)
}

// Appends this text, and a word.
fn push_worded(into: &mut Vec<u8>, text: &[u8], word: u64) -> Result<(), AllocError>
    ensures { OnOk result (into.new.items ≡ into.old.items ++ (text.now ++ spaced (word_text word ∷ []))) }
{
    into.extend_from_slice(text)?;
    push_word(into, word)
}

// Appends two names, each with a number.
fn push_sizes(
    into: &mut Vec<u8>,
    name: &[u8],
    number: u32,
    second_name: &[u8],
    second: u32,
) -> Result<(), AllocError>
    ensures { OnOk result (into.new.items ≡ into.old.items
        ++ spaced (name.now ∷ decimal number ∷ second_name.now ∷ decimal second ∷ [])) }
{
    into.push(b' ')?;
    push_named(into, name, number)?;
    into.push(b' ')?;
    push_named(into, second_name, second)
}

// Appends this text, and a number.
fn push_named(into: &mut Vec<u8>, text: &[u8], number: u32) -> Result<(), AllocError>
    ensures { OnOk result (into.new.items ≡ into.old.items ++ (text.now ++ spaced (decimal number ∷ []))) }
{
    into.extend_from_slice(text)?;
    push_number(into, number)
}

fn push_number(into: &mut Vec<u8>, number: u32) -> Result<(), AllocError>
    ensures { OnOk result (into.new.items ≡ into.old.items ++ spaced (decimal number ∷ [])) }
{
    let mut buffer = Buffer::new();
    into.push(b' ')?;
    into.extend_from_slice(buffer.format(number).as_bytes())
}

// Appends bytes as they are where they can be read back so, and else `x:` and their digits.
#[tactic(auto, unfolding(crate::specs::Shown::bytes_text))]
fn push_bytes(into: &mut Vec<u8>, bytes: &Text) -> Result<(), AllocError>
    ensures { OnOk result (into.new.items ≡ into.old.items ++ spaced (bytes_text bytes.now ∷ [])) }
{
    let bytes = bytes.as_slice();
    into.push(b' ')?;
    if is_shown_as_is(bytes) {
        into.extend_from_slice(bytes)
    } else {
        into.extend_from_slice(b"x:")?;
        push_hex(into, bytes)
    }
}

pub(crate) fn is_shown_as_is(bytes: &[u8]) -> bool
    ensures { result ≡ is_shown_as_is bytes.now }
{
    if bytes.is_empty() || bytes.starts_with(b"x:") {
        return false;
    }
    are_visible(bytes)
}

fn are_visible(bytes: &[u8]) -> bool
    ensures { result ≡ are_visible bytes.now }
{
    bytes.iter().all(|byte| byte.is_ascii_graphic())
}

fn push_word(into: &mut Vec<u8>, word: u64) -> Result<(), AllocError>
    ensures { OnOk result (into.new.items ≡ into.old.items ++ spaced (word_text word ∷ [])) }
{
    let digits = word_digits(word);
    into.push(b' ')?;
    into.extend_from_slice(digits.as_slice())
}

// Appends two digits for each byte, 0 to 9 and a to f.
fn push_hex(into: &mut Vec<u8>, bytes: &[u8]) -> Result<(), AllocError>
    ensures { OnOk result (into.new.items ≡ into.old.items ++ flat_map hex_text bytes.now) }
{
    for byte in bytes {
        into.extend_from_slice(&[hex_digit(*byte / 16), hex_digit(*byte % 16)])?;
    }
    Ok(())
}
