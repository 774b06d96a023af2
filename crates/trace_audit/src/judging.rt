//! The entries of the list, each held against the trace, those before it and those after it.

ghost use Rattle.std.specs.Prelude.{◌≡◌, ℕ, ◌+◌, ◌<◌, ◌^◌, length, List, map, slice_get, Option, Some, vec_len, IfOk, MatchBool, MatchOption};
ghost use Rattle.map_model.specs.declared.entries.Entry.{Entry};
ghost use Rattle.map_model.specs.Trace.{Moment};
ghost use Rattle.trace_audit.specs.Faults.{Agrees, IsFaultless, IsFirstFault};
ghost use Rattle.trace_audit.specs.Fits.{HasReturned};
ghost use Rattle.trace_audit.specs.Judged.{earlier_time, IsEarliest, IsJudged, IsPlace};
ghost use Rattle.trace_audit.specs.Listing.{entry_of};
ghost use Rattle.trace_audit.specs.Traced.{IsRow, IsTidy, IsTold, RepliedAt};

use crate::calls::Calls;
use crate::listing::Listed;
use crate::replies::{fits, perform, same_call, same_reply};
use crate::tables::{Names, Row, add_name, is_named};
use crate::verdicts::Fault;
use map_model::HeldMap;
use std::alloc::{AllocError, Global};
use std::collections::BTreeSet;

/// What the list is found to be.
#[derive(Drop)]
pub enum Judged {
    /// No entry is at fault, and these are their calls.
    Sound(Names),
    /// The first entry at fault, counted from 1, its first fault, and its call.
    Faulty {
        at: u32,
        fault: Fault,
        client: u32,
        number: u32,
    },
}

/// The first entry at fault, or the calls of all entries.
pub fn judge(alloc: Global, calls: &Calls<'_>, list: &[Listed<'_>]) -> Result<Judged, AllocError>
    requires { length list.now + 1 < 2 ^ 32 }
    ensures { IfOk result (λ judged. (trace : List Moment) → IsTold trace calls.now → IsJudged trace (map entry_of list.now) judged) }
{
    let later = returns_after(alloc, calls, list)?;
    let mut names = BTreeSet::new(alloc);
    let mut held = HeldMap::new(alloc);
    for (i, entry) in list.iter().enumerate() {
        if let Some(fault) = fault_of(calls, &names, &held, entry, later[i]) {
            return Ok(Judged::Faulty {
                at: i as u32 + 1,
                fault,
                client: entry.client,
                number: entry.number,
            });
        }
        add_name(&mut names, entry.client, entry.number)?;
        perform(&mut held, entry.call, entry.reply)?;
    }
    Ok(Judged::Sound(names))
}

// The first fault of an entry, by the calls, the names of the entries before it, the map after them,
// and the time at which a call of the entries after it returned first.
fn fault_of(
    calls: &Calls<'_>,
    names: &Names,
    held: &HeldMap<'_>,
    entry: &Listed<'_>,
    later: Option<u32>,
) -> Option<Fault>
    ensures { (trace : List Moment) (entries : List Entry) (place : ℕ) → IsPlace trace entries place calls.now names.now held.now later →
        MatchOption result (IsFaultless trace entries place (entry_of entry.now)) (IsFirstFault trace entries place (entry_of entry.now)) }
{
    let Some(row) = calls.row(entry.client, entry.number) else {
        return Some(Fault::Unknown);
    };
    if is_named(names, entry.client, entry.number) {
        return Some(Fault::Double);
    }
    if !agrees(&row, entry) {
        return Some(Fault::Differs);
    }
    if is_before(later, row.invoked) {
        return Some(Fault::Order);
    }
    if !fits(held, entry.call, entry.reply) {
        return Some(Fault::Reply);
    }
    None
}

// Whether the entry says of its call what the trace says.
fn agrees(row: &Row<'_>, entry: &Listed<'_>) -> bool
    ensures { (trace : List Moment) → IsTidy trace → IsRow trace entry.now.client entry.now.number row.now →
        MatchBool result (Agrees trace (entry_of entry.now)) (¬ Agrees trace (entry_of entry.now)) }
{
    if !same_call(row.call, entry.call) {
        return false;
    }
    match row.returned {
        Some((_, reply)) => {
            if !entry.returned {
                return false;
            }
            same_reply(reply, entry.reply)
        }
        None => !entry.returned,
    }
}

fn is_before(later: Option<u32>, time: u32) -> bool
    ensures { MatchBool result ((t : ℕ) × (later ≡ Some t) × (t < time)) (¬ ((t : ℕ) × (later ≡ Some t) × (t < time))) }
{
    match later {
        Some(t) => t < time,
        None => false,
    }
}

// For each entry the time at which a call of the entries after it returned first.
fn returns_after(
    alloc: Global,
    calls: &Calls<'_>,
    list: &[Listed<'_>],
) -> Result<Vec<Option<u32>>, AllocError>
    ensures length { IfOk result (λ later. vec_len later ≡ length list.now) }
    ensures earliest { IfOk result (λ later. (trace : List Moment) → IsTold trace calls.now → (place : ℕ) (time : Option ℕ) →
        slice_get later.items place ≡ Some time → IsEarliest trace (map entry_of list.now) (place + 1) time) }
{
    let mut later = vec![in alloc; None; list.len()]?;
    let mut earliest = None;
    for i in (0..list.len()).rev() {
        later[i] = earliest;
        earliest = earlier(earliest, return_time(calls, &list[i]));
    }
    Ok(later)
}

// When the call of the entry returned.
fn return_time(calls: &Calls<'_>, entry: &Listed<'_>) -> Option<u32>
    ensures { (trace : List Moment) → IsTold trace calls.now → MatchOption result (¬ HasReturned trace entry.now.client entry.now.number) (RepliedAt trace entry.now.client entry.now.number) }
{
    match calls.row(entry.client, entry.number) {
        Some(row) => match row.returned {
            Some((time, _)) => Some(time),
            None => None,
        },
        None => None,
    }
}

// The earlier of two times.
fn earlier(one: Option<u32>, other: Option<u32>) -> Option<u32>
    ensures { result ≡ earlier_time one other }
{
    match one {
        Some(a) => match other {
            Some(b) => Some(a.min(b)),
            None => Some(a),
        },
        None => other,
    }
}
