//! A key's hash, and the fixed order of its index slots.
//!
//! The index has G bucket groups of 24 slots each. As in RACE hashing (USENIX ATC 2021), a group
//! has two main buckets that share one overflow bucket, and a key goes to the buckets of two hashes.
#![tactic(auto)]

mod fnv;
mod slots;

pub use fnv::{finger, fnv1a};
pub use slots::{MOST_GROUPS, order};

#[cfg(test)]
mod tests;
