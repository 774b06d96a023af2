//! The word of one block on its replicas, which clients claim and which is released for them.
//!
//! This crate has no code: it has the block with its claimants as definitions, and laws on every
//! list of events.
#![tactic(auto)]

pub mod laws;
