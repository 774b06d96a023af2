//! What the world of single verbs reads of its memory, and what it keeps of the past.
//!
//! The readings are the words on the primaries under the mask of the epoch word, as it stands now.
//! The past is a ledger: the calls that are in the history, when each slot's words became deciding,
//! who holds which object, and when each client last read a slot.
#![tactic(auto)]

mod clients;
mod decisions;
mod divisions;
mod entries;
pub mod laws;
mod ledgers;
mod losses;
mod named_units;
mod objects;
mod readings;
mod returns;
mod states;
#[cfg(test)]
mod tests;

pub use clients::Clients;
pub use divisions::division;
pub use entries::{Caller, Returned};
pub use ledgers::Ledger;
pub use losses::region_lost;
pub use objects::{
    block_in_force, is_in_stock, link_word_in_force, may_bear_on_stock, slot_of_present,
};
pub use readings::{deciding_word, epoch_in_force, is_lost, is_sealed, mask_in_force, primary_of};
pub use states::{block_state, object_state};
