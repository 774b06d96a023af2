//! What a simulation is, as definitions: a driver that makes calls, stops clients and loses nodes as the
//! words of a number have it, turn by turn, and the summary of the run.
#![tactic(auto)]

pub mod laws;
mod numbers;

pub use numbers::Numbers;
