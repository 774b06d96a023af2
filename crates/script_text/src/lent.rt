//! Calls and replies of which the bytes are lent: a line is made of them without a copy.

ghost use Rattle.std.specs.Prelude.{◌≡◌};
ghost use Rattle.script_text.specs.Lent.{call_lent, reply_lent};

use crate::out_lines::ReplyText;
use crate::scripts::CallText;

/// A call of which key and value are lent.
#[derive(Clone, Copy, Debug)]
pub enum LentCall<'a> {
    Put { key: &'a [u8], value: &'a [u8] },
    Get { key: &'a [u8] },
    Delete { key: &'a [u8] },
}

/// A reply of which the value is lent.
#[derive(Clone, Copy, Debug)]
pub enum LentReply<'a> {
    Done,
    Value(&'a [u8]),
    Absent,
    Full,
    NoSpace { class: u32, client: u32, begin: u64 },
}

pub(crate) fn lend_call(call: &CallText) -> LentCall<'_>
    ensures { call_lent result ≡ call.now }
{
    match call {
        CallText::Put { key, value } => LentCall::Put {
            key: key.as_slice(),
            value: value.as_slice(),
        },
        CallText::Get { key } => LentCall::Get {
            key: key.as_slice(),
        },
        CallText::Delete { key } => LentCall::Delete {
            key: key.as_slice(),
        },
    }
}

pub(crate) fn lend_reply(reply: &ReplyText) -> LentReply<'_>
    ensures { reply_lent result ≡ reply.now }
{
    match reply {
        ReplyText::Done => LentReply::Done,
        ReplyText::Value(value) => LentReply::Value(value.as_slice()),
        ReplyText::Absent => LentReply::Absent,
        ReplyText::Full => LentReply::Full,
        ReplyText::NoSpace {
            class,
            client,
            begin,
        } => LentReply::NoSpace {
            class: *class,
            client: *client,
            begin: *begin,
        },
    }
}
