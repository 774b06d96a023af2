//! The recovery of a stopped client.
//!
//! A recovery puts the client's reserves back in stock, settles its last call by the log in the
//! call's object, and releases the blocks that the client owned, after FUSEE (FAST 2023).
#![tactic(auto)]

mod blocks;
mod ends;
mod objects;
mod progress;
mod recovery;
mod slots;
#[cfg(test)]
mod tests;
mod turns;
mod verbs;

pub use machine::recovery::Recovering;
pub use recovery::Recovery;
