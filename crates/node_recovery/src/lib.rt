//! A settling: the epoch is sealed, the clients that are inside a call pause, the words of the nodes
//! that are left are copied to all that are live, and the next view is opened with these.
#![tactic(auto)]

pub mod laws;
mod program;
mod steps;
#[cfg(test)]
mod tests;

pub use machine::settling::Settled;
pub use program::Settling;
