//! The joining of a lost node, and where the words come from and go to that nodes of a new view are
//! given.
#![tactic(auto)]

mod admitting;
mod copying;
mod masks;
#[cfg(test)]
mod tests;

pub use admitting::Join;
pub use copying::{Targets, copy_of, sources};
pub use machine::joining::Joined;
pub use masks::{leaves_none_bare, open_mask};
