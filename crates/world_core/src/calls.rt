//! A client's call, as the trace and the history tell it.

ghost use Rattle.std.specs.Prelude.{◌≡◌, IfOk};
ghost use Rattle.machine_world.specs.Calls.{call_of, reply_of};
ghost use Rattle.machine_world.specs.Ledger.{caller_of};

use kv_ops::{Actor, Operation, Outcome};
use map_model::{Bytes, Call, Reply};
use std::alloc::{AllocError, Global};
use world_ledger::Caller;

/// The client's present or last call.
pub(crate) fn call_of(alloc: Global, actor: &Actor) -> Result<Call, AllocError>
    ensures { IfOk result (λ call. call ≡ call_of actor.now) }
{
    let key = Bytes::of_slice(alloc, actor.key())?;
    match actor.operation() {
        Operation::Get => Ok(Call::Get { key }),
        Operation::Put => Ok(Call::Put {
            key,
            value: Bytes::of_slice(alloc, actor.written())?,
        }),
        Operation::Delete => Ok(Call::Delete { key }),
    }
}

/// The same with its client and its number.
pub(crate) fn caller_of(alloc: Global, actor: &Actor) -> Result<Caller, AllocError>
    ensures { IfOk result (λ caller. caller ≡ caller_of actor.now) }
{
    Ok(Caller {
        client: actor.client(),
        number: actor.number(),
        call: call_of(alloc, actor)?,
    })
}

/// The reply to the client's call that returns so.
pub(crate) fn reply_of(alloc: Global, actor: &Actor, outcome: Outcome) -> Result<Reply, AllocError>
    ensures { IfOk result (λ reply. reply ≡ reply_of actor.now outcome) }
{
    match outcome {
        Outcome::Done => Ok(Reply::Done),
        Outcome::Value => Ok(Reply::Value(Bytes::of_slice(alloc, actor.value())?)),
        Outcome::Absent => Ok(Reply::Absent),
        Outcome::Full => Ok(Reply::Full),
        Outcome::NoSpace {
            class,
            client,
            begin,
        } => Ok(Reply::NoSpace {
            class,
            client,
            begin,
        }),
    }
}
