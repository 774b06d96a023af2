//! When objects that were freed may be used again.
//!
//! A client has a begin word, which is odd while it runs an operation. An operation that runs when
//! an object is freed may still read it. So whoever frees objects takes the list of the clients
//! whose words are odd then, and looks at their words again: a client whose word is another one has
//! ended that operation. The objects may be used again once no client is left in the list.
#![tactic(auto)]

mod grace;
#[cfg(test)]
mod tests;

pub use grace::{Grace, MOST_CLIENTS};
