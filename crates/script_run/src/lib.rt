//! Whole scripts, run and printed: each line is carried out in the world of single verbs, and what
//! came of it is written before the next one begins.
#![tactic(auto)]

mod line_writing;
mod lines;
mod printing;
mod running;
mod shown;
mod verbs;
mod writing;

pub use running::{MOST_WORDS, Ran, run};
pub use writing::{Unwritten, write_all, write_line, write_lines};

#[cfg(test)]
mod tests;
