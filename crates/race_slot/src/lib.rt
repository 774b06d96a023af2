//! The index slot after RACE hashing: eight bytes with a fingerprint, a length and a pointer.
//!
//! | bits | what |
//! |---|---|
//! | 56 to 63 | the fingerprint of the key |
//! | 48 to 55 | the length of the pair, in units |
//! | 28 to 47 | 0 |
//! | 0 to 27 | the pointer to the pair: its region in bits 20 to 27, its unit in bits 0 to 19 |
//!
//! The word 0 is the empty slot.
#![tactic(auto)]

pub mod laws;

ghost use Rattle.std.specs.Prelude.{◌≡◌, ◌≢◌, IfSome, IfNone};
ghost use Rattle.race_slot.specs.declared.Slot.{Slot};
ghost use Rattle.race_slot.specs.Slot.{IsSlot, slot_word, unpacked};

/// What stands in a slot that is not empty.
#[derive(Clone, Copy, Debug, PartialEq, Eq)]
pub struct Slot {
    /// The fingerprint of the key.
    pub finger: u8,
    /// The length of the pair in units, at least 1.
    pub units: u8,
    /// Where the pair stands: a pointer of 28 bits, whose region is at least 1.
    pub pointer: u32,
}

/// The word of a slot: the fingerprint in bits 56 to 63, the units in bits 48 to 55, the pointer in
/// bits 0 to 27, and all other bits 0.
pub fn pack(slot: Slot) -> u64
    requires { IsSlot slot }
    ensures { result ≡ slot_word slot }
{
    (u64::from(slot.finger) << 56) | (u64::from(slot.units) << 48) | u64::from(slot.pointer)
}

/// The slot that packs to a word.
///
/// `None` is the answer exactly where there is no such slot: where the units or the region are 0,
/// as in the empty slot's word, or where a bit from 28 to 47 is set.
#[tactic(auto, unfolding(crate::specs::Slot::unpacked))]
pub fn unpack(word: u64) -> Option<Slot>
    ensures found { IfSome result (λ slot. IsSlot slot × (slot_word slot ≡ word)) }
    ensures none { IfNone result ((slot : Slot) → IsSlot slot → slot_word slot ≢ word) }
    ensures value { result ≡ unpacked word }
{
    let units = (word >> 48) & 0xff;
    let between = (word >> 28) & 0xf_ffff;
    let pointer = word & 0xfff_ffff;
    if units == 0 {
        return None;
    }
    if pointer >> 20 == 0 {
        return None;
    }
    if between != 0 {
        return None;
    }
    Some(Slot {
        finger: (word >> 56) as u8,
        units: units as u8,
        pointer: pointer as u32,
    })
}

#[cfg(test)]
mod tests;
