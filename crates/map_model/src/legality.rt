ghost use Rattle.std.specs.Prelude.{◌≡◌, IfOk, OnOk};
ghost use Rattle.map_model.specs.Map.{after, is_legal, may_reply};
ghost use Rattle.map_model.specs.Held.{map_of};

use crate::calls::{Call, Reply};
use crate::entries::Entry;
use crate::held_map::HeldMap;
use std::alloc::{AllocError, Global};

/// Whether the calls, made one after the other from the first entry to the last, get the replies of
/// a map that starts empty: a legal sequential history in the sense of Herlihy and Wing,
/// "Linearizability: a correctness condition for concurrent objects" (1990), of a map. It takes
/// time n log n in the number of entries.
pub fn legal(alloc: Global, entries: &[Entry]) -> Result<bool, AllocError>
    ensures { IfOk result (λ yes. yes ≡ is_legal entries.now) }
{
    let mut held = HeldMap::new(alloc);
    for entry in entries {
        if !fits(&held, &entry.call, &entry.reply) {
            return Ok(false);
        }
        perform(&mut held, &entry.call, &entry.reply)?;
    }
    Ok(true)
}

// Whether a map that holds these values may reply so.
fn fits(held: &HeldMap<'_>, call: &Call, reply: &Reply) -> bool
    ensures { result ≡ may_reply (map_of held.now) call.now reply.now }
{
    match call {
        Call::Get { key } => match reply {
            Reply::Value(value) => held.has(key.as_slice(), value.as_slice()),
            Reply::Absent => held.lacks(key.as_slice()),
            _ => false,
        },
        Call::Put { .. } => matches!(reply, Reply::Done | Reply::Full | Reply::NoSpace { .. }),
        Call::Delete { .. } => matches!(reply, Reply::Done | Reply::NoSpace { .. }),
    }
}

// The call takes effect, where its reply says so.
fn perform<'a>(held: &mut HeldMap<'a>, call: &'a Call, reply: &Reply) -> Result<(), AllocError>
    ensures { OnOk result (map_of held.new ≡ after (map_of held.old) call.now reply.now) }
{
    let Reply::Done = reply else {
        return Ok(());
    };
    match call {
        Call::Get { .. } => {}
        Call::Put { key, value } => held.put(key.as_slice(), value.as_slice())?,
        Call::Delete { key } => held.remove(key.as_slice()),
    }
    Ok(())
}
