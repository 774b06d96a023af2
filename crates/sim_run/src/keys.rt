// How many keys have a value.

ghost use Rattle.std.specs.Prelude.{◌≡◌, ◌≤◌, IfOk, OnOk, if◌then◌else◌, map};
ghost use Rattle.machine_world.specs.Ledger.{history_of};
ghost use Rattle.map_model.specs.Held.{map_of};
ghost use Rattle.sim_meaning.specs.Summary.{values_after};
ghost use Rattle.sim_run.specs.Keys.{leaves_value, with_decided};

use map_model::{Call, HeldMap, Reply};
use std::alloc::{AllocError, Global};
use verb_history::Placed;
use world_core::World;

/// How many keys have a value after the history of a world. It takes time n log n in the number of
/// calls.
pub(crate) fn count_keys(alloc: Global, world: &World) -> Result<usize, AllocError>
    ensures { IfOk result (λ count. count ≡ values_after (history_of world.now)) }
{
    let order = world.in_order()?;
    let count = count_values(alloc, order.as_slice())?;
    Ok(count)
}

// The calls are gone through from the last one on: what was decided of a key last holds.
fn count_values(alloc: Global, order: &[&Placed]) -> Result<usize, AllocError>
    ensures { IfOk result (λ count. count ≡ values_after (map (λ one. one.now.entry) order.now)) }
{
    let mut decided = HeldMap::new(alloc);
    let mut count = 0;
    for i in (0..order.len()).rev() {
        let entry = &order[i].entry;
        count += decide(&mut decided, &entry.call, &entry.reply)?;
    }
    Ok(count)
}

// How many values stay that a call has left, one or none, where it is known of which keys something
// was decided later.
fn decide<'a>(decided: &mut HeldMap<'a>, call: &'a Call, reply: &Reply) -> Result<usize, AllocError>
    ensures decided { OnOk result (map_of decided.new ≡ with_decided call.now reply.now (map_of decided.old)) }
    ensures stay { IfOk result (λ stay. stay ≡ (if leaves_value (map_of decided.old) call.now reply.now then 1 else 0)) }
    ensures few { IfOk result (λ stay. stay ≤ 1) }
{
    let Reply::Done = reply else {
        return Ok(0);
    };
    match call {
        Call::Get { .. } => Ok(0),
        Call::Put { key, value } => {
            let stays = decided.lacks(key.as_slice());
            decided.put(key.as_slice(), value.as_slice())?;
            if stays { Ok(1) } else { Ok(0) }
        }
        Call::Delete { key } => {
            decided.put(key.as_slice(), key.as_slice())?;
            Ok(0)
        }
    }
}
