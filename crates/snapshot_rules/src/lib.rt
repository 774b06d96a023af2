//! Who wins a round that changes a replicated slot of an index.
//!
//! Each client that takes part swaps its own word into every backup of the slot, where that still
//! holds the old word. The words that the backups then hold are the list of the round: all clients
//! read the same list, and find the same winner in it.
#![tactic(auto)]

mod rules;
#[cfg(test)]
mod tests;

pub use rules::{Verdict, judge, settle};
