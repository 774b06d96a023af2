//! The bit of one object on the replicas of its bitmap, and the changes that set and clear it.
//!
//! This crate has no code: it has the bit with all that may happen to it as definitions, and laws on
//! every list of events.
#![tactic(auto)]

pub mod laws;
