//! The replies of a map to the calls that lines name.

ghost use Rattle.std.specs.Prelude.{◌≡◌, MatchBool, OnOk};
ghost use Rattle.map_model.specs.Held.{map_of};
ghost use Rattle.map_model.specs.Map.{after, may_reply};
ghost use Rattle.trace_audit.specs.Told.{call_of, reply_of};

use map_model::HeldMap;
use script_text::{CallText, ReplyText};
use std::alloc::AllocError;

pub fn same_call(one: &CallText, other: &CallText) -> bool
    ensures { MatchBool result (call_of one.now ≡ call_of other.now) (¬ (call_of one.now ≡ call_of other.now)) }
{
    match one {
        CallText::Put { key, value } => match other {
            CallText::Put {
                key: other_key,
                value: other_value,
            } => {
                if key.as_slice() != other_key.as_slice() {
                    return false;
                }
                value.as_slice() == other_value.as_slice()
            }
            _ => false,
        },
        CallText::Get { key } => match other {
            CallText::Get { key: other_key } => key.as_slice() == other_key.as_slice(),
            _ => false,
        },
        CallText::Delete { key } => match other {
            CallText::Delete { key: other_key } => key.as_slice() == other_key.as_slice(),
            _ => false,
        },
    }
}

pub fn same_reply(one: &ReplyText, other: &ReplyText) -> bool
    ensures { MatchBool result (reply_of one.now ≡ reply_of other.now) (¬ (reply_of one.now ≡ reply_of other.now)) }
{
    match one {
        ReplyText::Done => matches!(other, ReplyText::Done),
        ReplyText::Value(value) => match other {
            ReplyText::Value(other_value) => value.as_slice() == other_value.as_slice(),
            _ => false,
        },
        ReplyText::Absent => matches!(other, ReplyText::Absent),
        ReplyText::Full => matches!(other, ReplyText::Full),
        ReplyText::NoSpace {
            class,
            client,
            begin,
        } => match other {
            ReplyText::NoSpace {
                class: other_class,
                client: other_client,
                begin: other_begin,
            } => {
                if *class != *other_class {
                    return false;
                }
                if *client != *other_client {
                    return false;
                }
                *begin == *other_begin
            }
            _ => false,
        },
    }
}

/// Whether a map that holds these values may reply so.
pub fn fits(held: &HeldMap<'_>, call: &CallText, reply: &ReplyText) -> bool
    ensures { result ≡ may_reply (map_of held.now) (call_of call.now) (reply_of reply.now) }
{
    match call {
        CallText::Get { key } => match reply {
            ReplyText::Value(value) => held.has(key.as_slice(), value.as_slice()),
            ReplyText::Absent => held.lacks(key.as_slice()),
            _ => false,
        },
        CallText::Put { .. } => matches!(
            reply,
            ReplyText::Done | ReplyText::Full | ReplyText::NoSpace { .. }
        ),
        CallText::Delete { .. } => matches!(reply, ReplyText::Done | ReplyText::NoSpace { .. }),
    }
}

/// The call takes effect, where its reply says so.
pub fn perform<'a>(
    held: &mut HeldMap<'a>,
    call: &'a CallText,
    reply: &ReplyText,
) -> Result<(), AllocError>
    ensures { OnOk result (map_of held.new ≡ after (map_of held.old) (call_of call.now) (reply_of reply.now)) }
{
    let ReplyText::Done = reply else {
        return Ok(());
    };
    match call {
        CallText::Get { .. } => {}
        CallText::Put { key, value } => held.put(key.as_slice(), value.as_slice())?,
        CallText::Delete { key } => held.remove(key.as_slice()),
    }
    Ok(())
}
