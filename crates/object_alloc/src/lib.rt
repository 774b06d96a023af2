//! The objects of a client: how it gains blocks, chooses objects in them, and marks an object as
//! taken or as given back.
#![tactic(auto)]

mod bits;
mod blocks;
mod choosers;
pub mod laws;
mod places;
mod steps;
mod stocks;
#[cfg(test)]
mod tests;
mod turns;

pub use bits::{BitChange, change};
pub use machine::bit_change::Changed;
pub use machine::choosing::Took;
pub use stocks::Stock;
