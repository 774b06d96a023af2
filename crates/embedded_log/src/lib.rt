//! The walk along a client's links of a class, from the head word on.
//!
//! Each object that a client takes is linked to the object that it takes next. So from the head word
//! the links lead to the object that the client linked last, and to its reserve, which is the embedded
//! operation log of FUSEE (FAST 2023) in outline.
#![tactic(auto)]

pub mod laws;
#[cfg(test)]
mod tests;
mod walking;

pub use machine::link_walk::Walked;
pub use walking::Walk;
