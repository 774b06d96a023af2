//! The writing of an object's words to every replica, and how an interrupted slot write is resolved.
#![tactic(auto)]

mod course;
pub mod laws;
mod object_writes;
mod resolutions;

pub use machine::object_write::Written;
pub use machine::resolution::Resolved;
pub use object_writes::{LogWrite, ObjectWrite, body, erase, log};
pub use resolutions::{Resolve, resolving, walking_back};

#[cfg(test)]
mod tests;
