//! What a script means, as definitions: the events of each line, and the text of the whole.
#![tactic(auto)]

pub mod laws;
