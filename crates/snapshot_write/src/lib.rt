//! The write of one slot on all its replicas, after the SNAPSHOT protocol of FUSEE (FAST 2023).
//!
//! A write puts its word on every backup that still has the expected word. The words that the
//! backups then have are the same list for each writer, and name one winner. The winner puts its
//! word on the backups that have another one, and at last on the primary; a loser reads the primary
//! until the winner has changed it.
#![tactic(auto)]

pub mod laws;
mod program;
#[cfg(test)]
mod tests;

pub use machine::slot_write::Wrote;
pub use program::SlotWrite;
