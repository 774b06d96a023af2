// What the world tells, as lines of the output.

ghost use Rattle.std.specs.Prelude.{◌≡◌, IfOk, map, not};
ghost use Rattle.script_meaning.specs.Shown.{found_in, is_refused, shown_actor, shown_call, shown_reply, shown_verb, shown_why};
ghost use Rattle.script_meaning.specs.Lines.{client_of, line_of_joining, line_of_recovery, line_of_settling};
ghost use Rattle.script_run.specs.Turns.{ended_by, ended_of, subject_in, told_by, told_of_step};
ghost use Rattle.script_text.specs.Lent.{call_lent, reply_lent};
ghost use Rattle.trace_audit.specs.Told.{call_of};
ghost use Rattle.verb_history.specs.Moments.{moment_of};

use machine::client_call::Step;
use machine::joining::Joined;
use machine::recovery::Recovering;
use machine::settling::Settled;
use map_model::{Bytes, Call, Reply};
use script_text::{CallText, LentCall, LentReply, NotYetText, OutLine, ReplyText, Text};
use std::alloc::{AllocError, Global};
use verb_history::Moment;
use verb_words::{Answer, Verb, Why};
use world_core::{Actor, Happened, Seen, Task};

/// The call that a text names.
pub(crate) fn call_of(alloc: Global, call: &CallText) -> Result<Call, AllocError>
    ensures { IfOk result (λ named. named ≡ call_of call.now) }
{
    match call {
        CallText::Put { key, value } => Ok(Call::Put {
            key: bytes_of(alloc, key)?,
            value: bytes_of(alloc, value)?,
        }),
        CallText::Get { key } => Ok(Call::Get {
            key: bytes_of(alloc, key)?,
        }),
        CallText::Delete { key } => Ok(Call::Delete {
            key: bytes_of(alloc, key)?,
        }),
    }
}

/// An equal text with memory of its own.
pub(crate) fn copy_call(alloc: Global, call: &CallText) -> Result<CallText, AllocError>
    ensures { IfOk result (λ copy. copy ≡ call.now) }
{
    match call {
        CallText::Put { key, value } => Ok(CallText::Put {
            key: copy_text(alloc, key)?,
            value: copy_text(alloc, value)?,
        }),
        CallText::Get { key } => Ok(CallText::Get {
            key: copy_text(alloc, key)?,
        }),
        CallText::Delete { key } => Ok(CallText::Delete {
            key: copy_text(alloc, key)?,
        }),
    }
}

/// A call as a line names it.
pub(crate) fn shown_call(alloc: Global, call: &Call) -> Result<CallText, AllocError>
    ensures { IfOk result (λ shown. shown ≡ shown_call call.now) }
{
    match call {
        Call::Get { key } => Ok(CallText::Get {
            key: text_of(alloc, key)?,
        }),
        Call::Put { key, value } => Ok(CallText::Put {
            key: text_of(alloc, key)?,
            value: text_of(alloc, value)?,
        }),
        Call::Delete { key } => Ok(CallText::Delete {
            key: text_of(alloc, key)?,
        }),
    }
}

/// A reply as a line names it.
pub(crate) fn shown_reply(alloc: Global, reply: &Reply) -> Result<ReplyText, AllocError>
    ensures { IfOk result (λ shown. shown ≡ shown_reply reply.now) }
{
    match reply {
        Reply::Done => Ok(ReplyText::Done),
        Reply::Value(value) => Ok(ReplyText::Value(text_of(alloc, value)?)),
        Reply::Absent => Ok(ReplyText::Absent),
        Reply::Full => Ok(ReplyText::Full),
        Reply::NoSpace {
            class,
            client,
            begin,
        } => Ok(ReplyText::NoSpace {
            class: u32::from(*class),
            client: *client,
            begin: *begin,
        }),
    }
}

/// A call as a line names it, with its bytes lent.
pub(crate) fn lend_call(call: &Call) -> LentCall<'_>
    ensures { call_lent result ≡ shown_call call.now }
{
    match call {
        Call::Get { key } => LentCall::Get {
            key: key.as_slice(),
        },
        Call::Put { key, value } => LentCall::Put {
            key: key.as_slice(),
            value: value.as_slice(),
        },
        Call::Delete { key } => LentCall::Delete {
            key: key.as_slice(),
        },
    }
}

/// A reply as a line names it, with its bytes lent.
pub(crate) fn lend_reply(reply: &Reply) -> LentReply<'_>
    ensures { reply_lent result ≡ shown_reply reply.now }
{
    match reply {
        Reply::Done => LentReply::Done,
        Reply::Value(value) => LentReply::Value(value.as_slice()),
        Reply::Absent => LentReply::Absent,
        Reply::Full => LentReply::Full,
        Reply::NoSpace {
            class,
            client,
            begin,
        } => LentReply::NoSpace {
            class: u32::from(*class),
            client: *client,
            begin: *begin,
        },
    }
}

fn bytes_of(alloc: Global, text: &Text) -> Result<Bytes, AllocError>
    ensures { IfOk result (λ bytes. bytes ≡ text.now) }
{
    Bytes::of_slice(alloc, text.as_slice())
}

/// An equal text with memory of its own.
pub(crate) fn copy_text(alloc: Global, text: &Text) -> Result<Text, AllocError>
    ensures { IfOk result (λ copy. copy ≡ text.now) }
{
    Text::of_slice(alloc, text.as_slice())
}

fn text_of(alloc: Global, bytes: &Bytes) -> Result<Text, AllocError>
    ensures { IfOk result (λ text. text ≡ bytes.now) }
{
    Text::of_slice(alloc, bytes.as_slice())
}

/// A verb that was taken, with its answer.
#[inline(always)]
pub(crate) fn shown_verb(seen: Seen) -> OutLine
    ensures { result ≡ shown_verb seen }
{
    let actor = shown_actor(seen.actor);
    match seen.verb {
        Verb::Read(place) => OutLine::VerbRead {
            actor,
            node: place.node,
            at: place.at,
            answer: found_in(seen.answer),
        },
        Verb::Write(place, word) => OutLine::VerbWrite {
            actor,
            node: place.node,
            at: place.at,
            word,
            lost: is_refused(seen.answer),
        },
        Verb::Swap {
            place,
            expect,
            fresh,
        } => OutLine::VerbSwap {
            actor,
            node: place.node,
            at: place.at,
            expect,
            fresh,
            answer: found_in(seen.answer),
        },
        Verb::Add(place, amount) => OutLine::VerbAdd {
            actor,
            node: place.node,
            at: place.at,
            amount,
            answer: found_in(seen.answer),
        },
    }
}

fn shown_actor(actor: Actor) -> Option<u32>
    ensures { result ≡ shown_actor actor }
{
    match actor {
        Actor::Client(client) => Some(client),
        Actor::Master => None,
    }
}

fn found_in(answer: Answer) -> Option<u64>
    ensures { result ≡ found_in answer }
{
    match answer {
        Answer::Word(found) => Some(found),
        Answer::Done => None,
        Answer::Lost => None,
    }
}

fn is_refused(answer: Answer) -> bool
    ensures { result ≡ is_refused answer }
{
    match answer {
        Answer::Word(_) => false,
        Answer::Done => false,
        Answer::Lost => true,
    }
}

fn shown_why(why: Why) -> NotYetText
    ensures { result ≡ shown_why why }
{
    match why {
        Why::Sealed(word) => NotYetText::Sealed(word),
        Why::Lost(node) => NotYetText::Lost(node),
        Why::Unchanged { slot, word } => NotYetText::Unchanged { slot, word },
    }
}

/// The client that a task recovers, or the node that it admits; 0 where it does neither.
pub(crate) fn subject_of(task: Option<Task>) -> u32
    ensures { result ≡ subject_in task }
{
    match task {
        None => 0,
        Some(Task::Settle) => 0,
        Some(Task::Recover(client)) => client,
        Some(Task::Join(node)) => node,
    }
}

/// The line by which a row of verbs ends, if it ends with what has happened. `subject` is that of the
/// master's task before it, and of the moments after it the last one is a return, if a call has ended.
pub(crate) fn told_by(
    alloc: Global,
    subject: u32,
    happened: Happened,
    moments: &[Moment],
) -> Result<Option<OutLine>, AllocError>
    ensures { IfOk result (λ told. told ≡ told_by subject happened (map moment_of moments.now)) }
{
    match happened {
        Happened::Stepped { seen, step } => told_of_step(
            alloc,
            client_of(seen.actor),
            step,
            moments,
        ),
        Happened::Recovering { step, .. } => Ok(told_of_recovery(subject, step)),
        Happened::Settling { step, .. } => Ok(told_of_settling(step)),
        Happened::Joining { step, .. } => Ok(told_of_joining(subject, step)),
        Happened::Registered(_) => Ok(None),
        Happened::Invoked(_) => Ok(None),
        Happened::Stopped => Ok(None),
        Happened::Lost => Ok(None),
        Happened::Filled => Ok(None),
        Happened::Chosen => Ok(None),
    }
}

fn client_of(actor: Actor) -> u32
    ensures { result ≡ client_of actor }
{
    match actor {
        Actor::Client(client) => client,
        Actor::Master => 0,
    }
}

pub(crate) fn told_of_step(
    alloc: Global,
    client: u32,
    step: Step,
    moments: &[Moment],
) -> Result<Option<OutLine>, AllocError>
    ensures { IfOk result (λ told. told ≡ told_of_step client step (map moment_of moments.now)) }
{
    match step {
        Step::Going => Ok(None),
        Step::Ended(_) => ended_by(alloc, client, moments),
        Step::NotYet(why) => Ok(Some(OutLine::NotYet {
            actor: Some(client),
            why: shown_why(why),
        })),
    }
}

// The return of a client's call, if the last moment is one.
fn ended_by(alloc: Global, client: u32, moments: &[Moment]) -> Result<Option<OutLine>, AllocError>
    ensures { IfOk result (λ told. told ≡ ended_by client (map moment_of moments.now)) }
{
    match moments.last() {
        None => Ok(None),
        Some(moment) => ended_of(alloc, client, moment),
    }
}

fn ended_of(alloc: Global, client: u32, moment: &Moment) -> Result<Option<OutLine>, AllocError>
    ensures { IfOk result (λ told. told ≡ ended_of client (moment_of moment.now)) }
{
    match moment {
        Moment::Returned { number, reply, .. } => Ok(Some(OutLine::Ended {
            client,
            number: *number,
            reply: shown_reply(alloc, reply)?,
        })),
        Moment::Invoked { .. } => Ok(None),
        Moment::Stopped { .. } => Ok(None),
    }
}

fn told_of_recovery(client: u32, step: Recovering) -> Option<OutLine>
    ensures { result ≡ line_of_recovery client step }
{
    match step {
        Recovering::Going => None,
        Recovering::Recovered => Some(OutLine::Recovered(client)),
        Recovering::NotYet(why) => Some(OutLine::NotYet {
            actor: None,
            why: shown_why(why),
        }),
    }
}

fn told_of_settling(step: Settled) -> Option<OutLine>
    ensures { result ≡ line_of_settling step }
{
    match step {
        Settled::Going => None,
        Settled::Opened(word) => Some(OutLine::Opened(word)),
        Settled::NotYet { client, begin } => Some(OutLine::Waiting { client, begin }),
    }
}

fn told_of_joining(node: u32, step: Joined) -> Option<OutLine>
    ensures { result ≡ line_of_joining node step }
{
    match step {
        Joined::Going => None,
        Joined::Joined => Some(OutLine::Joined(node)),
        Joined::NotYet(why) => Some(OutLine::NotYet {
            actor: None,
            why: shown_why(why),
        }),
    }
}
