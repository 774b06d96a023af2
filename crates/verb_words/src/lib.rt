//! The words of all nodes, and the verbs on them.
//!
//! A word has 8 bytes. A verb goes to one word on one node, and is one step: it finds a word there,
//! leaves a word there, and gives an answer.
#![tactic(auto)]

mod memory;
mod pages;
mod verbs;

pub use memory::{MOST_NODES, Nodes};
pub use pages::Pages;
pub use verbs::{Answer, Place, Verb, Why};

#[cfg(test)]
mod tests;
