//! What is seen of the calls of clients: the moments of a trace, and the history, in which each call
//! stands at the point at which it took effect.
#![tactic(auto)]

pub mod laws;
mod moments;
mod points;
#[cfg(test)]
mod tests;

pub use moments::Moment;
pub use points::{Placed, Point, Points};
