//! The rounds of one replicated slot, which any number of writers change at once.
//!
//! This crate has no code: it has the slot with its writers as definitions, and laws on every list
//! of events.
#![tactic(auto)]

pub mod laws;
