//! The test of whether an object has a key: its meta word is read, and then its key, word by word.
//!
//! A word that does not fit the key ends the test: an object with another key seldom costs more than
//! two verbs.
#![tactic(auto)]

mod keys;
mod objects;
mod places;
mod program;
#[cfg(test)]
mod tests;

pub use keys::key_bytes;
pub use machine::key_test::Tested;
pub use objects::{Object, candidate_in, names_object, object_in};
pub use places::{index_primary, object_place};
pub use program::KeyTest;
