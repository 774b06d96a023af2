//! The lines of a text, the words of a line, and numbers: what the texts of this store are read by.
//!
//! A text is read from its front, a line at a time, and a line a word at a time, so no list of
//! lines or of words is made, and no byte is read more than a few times.
#![tactic(auto)]

pub mod laws;
mod lines;
mod numbers;
#[cfg(test)]
mod tests;
mod words;

pub use lines::{has_bad_byte, next_line};
pub use numbers::number_of;
pub use words::{is_skipped, next_word};
