//! A map from byte strings to byte strings as an object that takes one call at a time, and what it
//! means that a history of calls by many clients is the history of such a map.
#![tactic(auto)]

mod byte_list;
mod calls;
mod entries;
mod held_map;
pub mod laws;
mod legality;
#[cfg(test)]
mod tests;

pub use byte_list::Bytes;
pub use calls::{Call, Reply};
pub use entries::Entry;
pub use held_map::HeldMap;
pub use legality::legal;
