//! When an object that was freed may be used again, over all that its owner and the clients do.
//!
//! This crate has no code: it has the objects of one owner and the calls that may know them as
//! definitions, and laws on every list of events.
#![tactic(auto)]

pub mod laws;
