ghost use Rattle.std.specs.Prelude.{◌≡◌, ℕ, ◌≤◌};
ghost use Rattle.outside.specs.Faults.{IsSteady};
ghost use Rattle.fusee_top.specs.Input.{IsInput};

use map_model::Bytes;
use outside::{Got, Source};
use std::alloc::Global;

/// The most bytes that an input may have.
pub const LIMIT: usize = 4_194_304;

// How many bytes are asked for at once.
const CHUNK: usize = 4096;

/// What reading a source to its end came to.
#[derive(Debug, Drop)]
pub enum Input {
    /// All that was left.
    Whole(Bytes),
    /// More than [`LIMIT`] bytes were given.
    TooLarge,
    /// A read failed, and nothing more was read.
    Failed,
    NoMemory,
}

/// Reads a source to its end, or until it has given more than [`LIMIT`] bytes.
pub fn read_all<S: Source>(alloc: Global, source: &mut S) -> Input
    ensures input { IsInput S.left S.faults source.old source.new result }
    ensures later { S.faults source.old ≤ S.faults source.new }
    ensures steady { IsSteady S.cannot_fail S.faults source.old source.new }
{
    let mut input = Vec::new(alloc);
    let mut chunk = [0u8; CHUNK];
    // Each turn takes a byte or is the last.
    for _ in 0..LIMIT + 1 {
        let room = CHUNK.min(LIMIT + 1 - input.len());
        match source.read(&mut chunk[..room]) {
            Got::Got(count) => {
                if input.extend_from_slice(&chunk[..count]).is_err() {
                    return Input::NoMemory;
                }
                if input.len() > LIMIT {
                    return Input::TooLarge;
                }
            }
            Got::End => return Input::Whole(Bytes::of_vec(input)),
            Got::Failed => return Input::Failed,
        }
    }
    Input::TooLarge
}
