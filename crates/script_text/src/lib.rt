//! The texts of scripts and of their output, as lines: what each line says, how it is read, and how
//! it is written.
#![tactic(auto)]

mod byte_text;
mod faults;
mod keywords;
pub mod laws;
mod lent;
mod line_faults;
mod line_reading;
mod out_lines;
mod out_names;
mod out_reading;
mod out_words;
pub mod output_laws;
#[cfg(test)]
mod output_tests;
mod outputs;
mod script_reading;
#[cfg(test)]
mod script_tests;
mod scripts;
mod shape_reading;
mod short_lines;
mod short_texts;
mod verb_lines;
mod word_counts;
mod word_texts;
mod word_values;
mod writing;

pub use byte_text::Text;
pub use faults::{BadKind, ScriptFault};
pub use lent::{LentCall, LentReply};
pub use out_lines::{NotYetText, OutLine, RefusalText, ReplyText};
pub use outputs::parse_output;
pub use script_reading::{MOST_BYTES, parse};
pub use scripts::{CallText, Line, Script, Shape};
pub use short_lines::{put_short_entry, put_short_line};
pub use short_texts::SHORT_LINE;
pub use verb_lines::put_verb_line;
pub use writing::{line_bytes, line_text};
