//! Work for clients that is made up from a number, so that a run can be repeated: the calls of each
//! client, the words that decide whose turn it is, and scripts in which something fails.
#![tactic(auto)]

mod fault_scripts;
pub mod laws;
mod made_calls;
#[cfg(test)]
mod tests;
mod turns;

pub use fault_scripts::fault_script;
pub use made_calls::{call_of, plan};
pub use turns::{Turns, turns_of};
