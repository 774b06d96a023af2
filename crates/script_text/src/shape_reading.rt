ghost use Rattle.std.specs.Prelude.{◌≡◌};
ghost use Rattle.text_lines.specs.Words.{words_of};
ghost use Rattle.script_text.specs.LineRead.{IsKind};
ghost use Rattle.script_text.specs.ShapeForm.{is_size, is_within, seven_numbers, shape_again, shape_line};

use crate::faults::BadKind;
use crate::scripts::Shape;
use crate::word_counts::has_words;
use text_lines::{next_word, number_of};

// How many sizes a shape has.
const SIZES: usize = 7;

/// Reads the first line that is not skipped.
#[tactic(auto, unfolding(crate::specs::ShapeForm::shape_line))]
pub(crate) fn shape_line(line: &[u8]) -> Result<Shape, BadKind>
    ensures { result ≡ shape_line (words_of line.now) }
{
    let Some((name, words)) = next_word(line) else {
        return Err(BadKind::NoShape);
    };
    if name != b"shape".as_slice() {
        return Err(BadKind::NoShape);
    }
    let sizes = seven_numbers(words)?;
    let shape = Shape {
        nodes: sizes[0],
        replicas: sizes[1],
        regions: sizes[2],
        blocks: sizes[3],
        groups: sizes[4],
        clients: sizes[5],
        calls: sizes[6],
    };
    if !is_within(&shape) {
        return Err(BadKind::Shape);
    }
    Ok(shape)
}

/// What is wrong with a later line whose first word is `shape`, from the words after it.
pub(crate) fn shape_again(words: &[u8]) -> BadKind
    ensures { IsKind result (shape_again (words_of words.now)) }
{
    match seven_numbers(words) {
        Ok(_) => BadKind::Shape,
        Err(kind) => kind,
    }
}

#[tactic(auto, unfolding(crate::specs::ShapeForm::seven_numbers))]
fn seven_numbers(words: &[u8]) -> Result<[u32; SIZES], BadKind>
    ensures { result ≡ seven_numbers (words_of words.now) }
{
    if !has_words(words, SIZES) {
        return Err(BadKind::Count);
    }
    let mut numbers = [0; SIZES];
    let mut rest = words;
    for number in &mut numbers {
        let Some((word, after)) = next_word(rest) else {
            unreachable!();
        };
        let Some(value) = number_of(word) else {
            return Err(BadKind::Number);
        };
        *number = value;
        rest = after;
    }
    Ok(numbers)
}

#[tactic(auto, unfolding(crate::specs::ShapeForm::is_within))]
fn is_within(shape: &Shape) -> bool
    ensures { result ≡ is_within shape.now }
{
    if !is_size(8, shape.nodes) {
        return false;
    }
    if !is_size(5, shape.replicas) {
        return false;
    }
    if shape.replicas > shape.nodes {
        return false;
    }
    if !is_size(63, shape.regions) {
        return false;
    }
    if !is_size(64, shape.blocks) {
        return false;
    }
    if !is_size(256, shape.groups) {
        return false;
    }
    if !is_size(64, shape.clients) {
        return false;
    }
    is_size(16_777_215, shape.calls)
}

fn is_size(limit: u32, size: u32) -> bool
    ensures { result ≡ is_size limit size }
{
    1 <= size && size <= limit
}
