//! Slot writes on one slot, by any number of writers at once: runs of the machine's own rows on the
//! words of the memory.
//!
//! This crate has no code: it has the runs as definitions, and the law on every run. The law comes
//! from the small machine of `slot_rounds`, which each run is shown to be one of.
#![tactic(auto)]

pub mod laws;
