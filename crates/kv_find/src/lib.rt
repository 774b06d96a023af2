//! The search for a key, and the reading of a value.
//!
//! A search reads the slots of the key's order one after the other, and tests the key of each object
//! that has the key's fingerprint. The order is that of RACE hashing (ATC 2021) in outline.
#![tactic(auto)]

pub mod laws;
mod reading;
mod search;
#[cfg(test)]
mod tests;

pub use machine::key_search::Found;
pub use machine::value_read::Fetched;
pub use reading::{ReadValue, value};
pub use search::Find;
