//! What a pointer is: the region and the unit that it names, in one number of 28 bits.
#![tactic(auto)]

pub mod laws;
