ghost use Rattle.std.specs.Prelude.{◌≡◌, ◌++◌, IfOk, codes, decimal};
ghost use Rattle.sim_plan.specs.Made.{call_of, plan};

use crate::turns::turns_of;
use map_model::{Bytes, Call};
use std::alloc::{AllocError, Global};

/// The call of a word.
pub fn call_of(alloc: Global, word: u32) -> Result<Call, AllocError>
    ensures { IfOk result (λ call. call ≡ call_of word) }
{
    let key = numbered(alloc, "k", word % 64)?;
    match (word >> 8) % 4 {
        0 | 1 => Ok(Call::Put {
            key,
            value: numbered(alloc, "", word >> 16)?,
        }),
        2 => Ok(Call::Get { key }),
        _ => Ok(Call::Delete { key }),
    }
}

/// The calls that client `who` makes, one after the other, in a run of the number `seed`.
pub fn plan(alloc: Global, seed: u64, who: u32, calls: u32) -> Result<Vec<Call>, AllocError>
    ensures { IfOk result (λ made. made.items ≡ plan seed who calls) }
{
    let mut turns = turns_of(seed.wrapping_add(u64::from(who)));
    let mut plan = Vec::new(alloc);
    'words: for _ in 0..calls {
        plan.push(call_of(alloc, turns.draw())?)?;
    }
    Ok(plan)
}

// A word of a text: some letters and a number in decimal.
fn numbered(alloc: Global, letters: &str, number: u32) -> Result<Bytes, AllocError>
    ensures { IfOk result (λ word. word ≡ letters.now ++ decimal number) }
{
    let text = format!(in alloc; "{letters}{number}")?;
    Bytes::of_slice(alloc, text.as_bytes())
}
