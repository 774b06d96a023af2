//! What holds of the definitions: each function does nothing, and its clause is the law.

ghost use Rattle.std.specs.Prelude.{ℕ, ◌≤◌, List, length};
ghost use Rattle.text_lines.specs.Bound.{bytes_in};
ghost use Rattle.text_lines.specs.Lines.{lines_of};
ghost use Rattle.text_lines.specs.Words.{words_of};

/// The lines of a text have no more bytes than the text, and are no more than its bytes.
pub fn lines_are_within_their_text()
    ensures bytes { (text : List ℕ) → bytes_in (lines_of text) ≤ length text }
    ensures count { (text : List ℕ) → length (lines_of text) ≤ length text }
{}

/// The words of a line have no more bytes than the line.
pub fn words_are_within_their_line()
    ensures { (line : List ℕ) → bytes_in (words_of line) ≤ length line }
{}
