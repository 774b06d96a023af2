//! Whether a printed history is the history of one map: the lines of an output are read as the
//! moments of its calls, and the list of its last history is held against them.
#![tactic(auto)]

mod auditing;
mod calls;
mod judging;
pub mod laws;
mod listing;
mod reading;
mod replies;
mod tables;
#[cfg(test)]
mod tests;
mod verdicts;

pub use auditing::audit;
pub use verdicts::{Fault, Verdict};
