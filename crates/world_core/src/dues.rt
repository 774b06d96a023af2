//! What a client's next verb may bring into the past, made ready before the verb is taken.

ghost use Rattle.std.specs.Prelude.{◌≡◌, ◌++◌, ◌<◌, ◌&&◌, IfOk, OnOk, length, map, vec_capacity};
ghost use Rattle.machine_world.specs.Ledger.{caller_of, with_read};
ghost use Rattle.machine_world.specs.Standing.{node_sizes};
ghost use Rattle.verb_history.specs.Moments.{moment_of};
ghost use Rattle.world_core.specs.Dues.{HasRankToReturn, HasRoomToDecide, HasSlot, IsOfIndex, IsReturning, OwnsNoneOrOne, decision_for, has_own_in_stock, may_take, moments_told, with_decided, with_returning, word_to_replace};
ghost use Rattle.world_ledger.specs.Kept.{HasEntryRoom};

use crate::calls::{caller_of, reply_of};
use key_test::Object;
use kv_ops::{Actor, Step};
use region_view::Shape;
use std::alloc::{AllocError, Global};
use verb_history::Moment;
use verb_words::{Answer, Nodes, Place};
use world_ledger::{Caller, Ledger, Returned, deciding_word, is_in_stock, may_bear_on_stock};

/// The word of this call becomes deciding in the slot, if the verb puts it there.
#[derive(Debug, Drop)]
pub(crate) struct Decision {
    pub(crate) slot: u32,
    pub(crate) fresh: u64,
    pub(crate) caller: Caller,
}

/// The call returns so, if the verb ends it.
#[derive(Debug, Drop)]
pub(crate) struct Returning {
    pub(crate) returned: Returned,
    pub(crate) moment: Moment,
}

/// The decision that a final swap may bring, if one is due: the slot and the fresh word of it, for
/// the call of this client.
pub(crate) fn decision_of(
    alloc: Global,
    actor: &Actor,
    swap: Option<(u32, u64)>,
) -> Result<Option<Decision>, AllocError>
    ensures { IfOk result (λ decision. decision ≡ decision_for (caller_of actor.now) swap) }
{
    match swap {
        Some((slot, fresh)) => Ok(Some(Decision {
            slot,
            fresh,
            caller: caller_of(alloc, actor)?,
        })),
        None => Ok(None),
    }
}

/// The return that the client's next verb may bring, if it may.
pub(crate) fn returning_of(alloc: Global, actor: &Actor) -> Result<Option<Returning>, AllocError>
    ensures { IfOk result (λ returning. IsReturning actor.now returning) }
{
    if !actor.is_ending() {
        return Ok(None);
    }
    let outcome = actor.outcome();
    let returned = Returned {
        caller: caller_of(alloc, actor)?,
        reply: reply_of(alloc, actor, outcome)?,
        object: actor.object(),
        beaten: actor.beaten(),
    };
    let moment = Moment::Returned {
        client: actor.client(),
        number: actor.number(),
        reply: reply_of(alloc, actor, outcome)?,
    };
    Ok(Some(Returning { returned, moment }))
}

/// Makes room for what a verb may bring: a decision, if one is due, two entries and a moment.
pub(crate) fn make_room(
    ledger: &mut Ledger,
    trace: &mut Vec<Moment>,
    decision: &Option<Decision>,
) -> Result<(), AllocError>
    requires { HasSlot ledger.old.ledger decision.now }
    ensures ledger { ledger.new.ledger ≡ ledger.old.ledger }
    ensures trace { trace.new.items ≡ trace.old.items }
    ensures decision { OnOk result (HasRoomToDecide ledger.new decision.now) }
    ensures entries { OnOk result (HasEntryRoom ledger.new 2) }
    ensures moment { OnOk result (length trace.new.items < vec_capacity trace.new) }
{
    if let Some(decision) = decision {
        ledger.reserve_decision(decision.slot)?;
    }
    ledger.reserve_entries(2)?;
    trace.reserve(1)
}

/// The deciding word of the slot that is to be decided, if one is.
pub(crate) fn word_to_replace(nodes: &Nodes, shape: &Shape, decision: &Option<Decision>) -> u64
    requires whole { map length nodes.now ≡ node_sizes shape.now }
    requires slot { IsOfIndex shape.now decision.now }
    ensures { result ≡ word_to_replace shape.now nodes.now decision.now }
{
    match decision {
        Some(decision) => deciding_word(nodes, shape, decision.slot),
        None => 0,
    }
}

/// Notes a decision that was due, if the word is deciding now and was not before.
pub(crate) fn note_decision(
    ledger: &mut Ledger,
    nodes: &Nodes,
    shape: &Shape,
    before: u64,
    decision: Option<Decision>,
    event: u64,
)
    requires whole { map length nodes.now ≡ node_sizes shape.now }
    requires slot { IsOfIndex shape.now decision }
    requires decision { HasRoomToDecide ledger.old decision }
    requires entries { HasEntryRoom ledger.old 2 }
    ensures ledger { ledger.new.ledger ≡ with_decided shape.now before nodes.now event decision ledger.old.ledger }
    ensures entries { HasEntryRoom ledger.new 1 }
{
    if let Some(decision) = decision {
        let now = deciding_word(nodes, shape, decision.slot);
        if before != decision.fresh && now == decision.fresh {
            ledger.decide(shape, decision.slot, event, before, Some(decision.caller));
        }
    }
}

/// Notes that the client has read a slot in a search, if this answer has told it one.
#[inline(always)]
pub(crate) fn note_read(ledger: &mut Ledger, actor: &Actor, answer: Answer, event: u64)
    ensures ledger { ledger.new.ledger ≡ with_read event actor.now answer ledger.old.ledger }
    ensures rooms { ledger.new.rooms ≡ ledger.old.rooms }
{
    if let Answer::Word(_) = answer {
        if actor.reads_slot() {
            ledger.note_read(actor.client(), event);
        }
    }
}

/// Whether a verb that goes to this place may change the bit of the object that the client's call has
/// chosen. Most verbs do not, and need no look at the bit.
#[inline(always)]
pub(crate) fn may_take(shape: &Shape, actor: &Actor, place: Place) -> bool
    requires object { OwnsNoneOrOne shape.now actor.now }
    ensures { result ≡ may_take shape.now actor.now place }
{
    let pointer = actor.object();
    if pointer == 0 {
        return false;
    }
    may_bear_on_stock(shape, pointer, place)
}

/// Whether the bit of the object that the client's call has chosen is set on the primary, where that
/// is asked; false where it is not asked, or the call has chosen none.
#[inline(always)]
pub(crate) fn has_own_in_stock(nodes: &Nodes, shape: &Shape, actor: &Actor, is_asked: bool) -> bool
    requires whole { map length nodes.now ≡ node_sizes shape.now }
    requires object { OwnsNoneOrOne shape.now actor.now }
    ensures { result ≡ (is_asked && has_own_in_stock shape.now nodes.now actor.now) }
{
    if !is_asked {
        return false;
    }
    let pointer = actor.object();
    if pointer == 0 {
        return false;
    }
    let class = actor.class();
    is_in_stock(nodes, shape, Object { pointer, class })
}

/// Notes a return that was due, if the call has ended.
pub(crate) fn note_return(
    ledger: &mut Ledger,
    trace: &mut Vec<Moment>,
    returning: Option<Returning>,
    told: Step,
    event: u64,
)
    requires entries { HasEntryRoom ledger.old 1 }
    requires moment { length trace.old.items < vec_capacity trace.old }
    requires rank { HasRankToReturn ledger.old.ledger returning }
    ensures ledger { ledger.new.ledger ≡ with_returning returning told event ledger.old.ledger }
    ensures trace { map moment_of trace.new.items ≡ map moment_of trace.old.items ++ moments_told returning told }
{
    if let Some(returning) = returning {
        if let Step::Ended(outcome) = told {
            ledger.enter_return(returning.returned, outcome, event);
            trace.push_reserved(returning.moment);
        }
    }
}
