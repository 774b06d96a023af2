ghost use Rattle.std.specs.Prelude.{◌≡◌, ℕ, ◌+◌, ◌-◌, ◌<◌, ◌≤◌, [], ◌∷◌, ◌++◌, OnOk, Some, map, length, slice_get, slice_index_or, slice_set, vec_capacity, vec_items};
ghost use Rattle.machine_world.specs.Ledger.{winner_rank};

use std::alloc::AllocError;
use std::marker::Model;

/// A slot's word became deciding at this event, and so many calls that it has beaten are entered.
#[derive(Clone, Copy, Debug)]
pub(crate) struct Decided {
    pub(crate) event: u64,
    pub(crate) beaten: u32,
}

impl Model for Decided {
    ghost use Rattle.machine_world.specs.World.{Decided};

    ghost Value = { Decided };

    ghost view = { λ d. record { event = d.event; beaten = d.beaten } };

    ghost inverse = { λ v. record { event = v.event; beaten = v.beaten } };
}

/// The decision of this version of a slot, if there is one.
pub(crate) fn decision(decided: &Vec<Vec<Decided>>, slot: u32, version: u64) -> Option<Decided>
    ensures { result ≡ slice_get (slice_index_or (map vec_items decided.now.items) slot []) (version - 1) }
{
    if slot as usize >= decided.len() {
        return None;
    }
    decided[slot as usize]
        .get(version.saturating_sub(1) as usize)
        .copied()
}

/// Makes room for one decision more of a slot.
pub(crate) fn reserve_decision(decided: &mut Vec<Vec<Decided>>, slot: u32) -> Result<(), AllocError>
    requires { slot < length decided.old.items }
    ensures lists { map vec_items decided.new.items ≡ map vec_items decided.old.items }
    ensures room { OnOk result (length (slice_index_or (map vec_items decided.new.items) slot [])
        < slice_index_or (map vec_capacity decided.new.items) slot 0) }
    ensures more { (other : ℕ) → slice_index_or (map vec_capacity decided.old.items) other 0
        ≤ slice_index_or (map vec_capacity decided.new.items) other 0 }
{
    decided[slot as usize].reserve(1)
}

/// One decision more of a slot, for which there is room.
pub(crate) fn push_decision(decided: &mut Vec<Vec<Decided>>, slot: u32, event: u64)
    requires room { length (slice_index_or (map vec_items decided.old.items) slot [])
        < slice_index_or (map vec_capacity decided.old.items) slot 0 }
    ensures lists { map vec_items decided.new.items
        ≡ slice_set (map vec_items decided.old.items) slot
        (slice_index_or (map vec_items decided.old.items) slot [] ++ record { event = event; beaten = 0 } ∷ []) }
    ensures rooms { map vec_capacity decided.new.items ≡ map vec_capacity decided.old.items }
{
    decided[slot as usize].push_reserved(Decided { event, beaten: 0 });
}

/// One call more is beaten at this version of a slot, whose decision is this one.
pub(crate) fn count_beaten(
    decided: &mut Vec<Vec<Decided>>,
    slot: u32,
    version: u64,
    winner: Decided,
)
    requires winner { slice_get (slice_index_or (map vec_items decided.old.items) slot []) (version - 1) ≡ Some winner }
    requires rank { winner.beaten < winner_rank }
    ensures lists { map vec_items decided.new.items
        ≡ slice_set (map vec_items decided.old.items) slot
        (slice_set (slice_index_or (map vec_items decided.old.items) slot []) (version - 1)
        (record winner { beaten = winner.beaten + 1 })) }
    ensures rooms { map vec_capacity decided.new.items ≡ map vec_capacity decided.old.items }
{
    decided[slot as usize][version.saturating_sub(1) as usize] = Decided {
        event: winner.event,
        beaten: winner.beaten + 1,
    };
}
