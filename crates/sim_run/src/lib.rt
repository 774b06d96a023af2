//! Simulations from numbers, carried out and summed up: a driver makes calls, stops clients and loses
//! nodes turn by turn, with nothing printed, and at the end the summary is written.
#![tactic(auto)]

mod counted_world;
mod driving;
mod happened;
mod keys;
mod simulating;
mod simulators;
mod summary;
mod takers;
#[cfg(test)]
mod tests;
mod works;

pub use simulating::{run_shape, simulate};
