//! The words of the blocks: who owns a block of a data region, and what stands in it.
//!
//! Clients grant blocks themselves: a client reads the word of a block, makes the word that it
//! wants to have there in its place, and swaps the two in one step.
//!
//! | word | bits 56 to 63 | bits 16 to 55 | bits 8 to 15 | bits 0 to 7 |
//! |---|---|---|---|---|
//! | unused | 0 | 0 | 0 | 0 |
//! | owned | 1 | 0 | the client, 1 to 64 | the class, 0 to 5 |
//! | released | 2 | 0 | 0 | the class, 0 to 5 |
#![tactic(auto)]

pub mod laws;

ghost use Rattle.std.specs.Prelude.{◌≡◌, ◌≢◌, ℕ, ◌-◌, ◌/◌, ◌^◌, ◌<◌, ◌≤◌, IfSome, IfNone};
ghost use Rattle.std.specs.Option.{SomeIff};
ghost use Rattle.block_alloc.specs.declared.BlockWord.{BlockWord};
ghost use Rattle.block_alloc.specs.BlockWord.{IsClient, IsBlock, word_of, block_in, MayClaim, IsOwned};

/// How many classes of objects there are; they are numbered from 0.
pub const CLASSES: u8 = 6;

/// Who owns a block, and of which class the objects in it are.
#[derive(Clone, Copy, Debug, PartialEq, Eq)]
pub enum BlockWord {
    /// No client has owned the block yet.
    Unused,
    /// A client, 1 to 64, owns the block, with objects of a class below `CLASSES`.
    Owned { client: u32, class: u8 },
    /// No client owns the block now; its objects are of a class below `CLASSES`.
    Released { class: u8 },
}

/// The word of a block: 0 where it is unused; otherwise 1 (owned) or 2 (released) in bits 56 to 63,
/// the client of an owned block from bit 8 on, up to bit 15 for a client within its limits, and the
/// class in bits 0 to 7.
pub fn block_word(block: BlockWord) -> u64
    ensures { result ≡ word_of block }
{
    match block {
        BlockWord::Unused => 0,
        BlockWord::Owned { client, class } => {
            (1 << 56) + (u64::from(client) << 8) + u64::from(class)
        }
        BlockWord::Released { class } => (2 << 56) + u64::from(class),
    }
}

/// The block with this word, or `None` where no block with a client from 1 to 64 and a class below
/// `CLASSES` has it.
#[tactic(auto, unfolding(crate::specs::BlockWord::block_in))]
pub fn block_of(word: u64) -> Option<BlockWord>
    ensures found { IfSome result (λ block. IsBlock block × (word_of block ≡ word)) }
    ensures none { IfNone result ((block : BlockWord) → IsBlock block → word_of block ≢ word) }
    ensures value { result ≡ block_in word }
{
    if word == 0 {
        return Some(BlockWord::Unused);
    }
    let class = (word & 0xff) as u8;
    if class >= CLASSES {
        return None;
    }

    // Above the class stand the client and the state.
    let above = word >> 8;
    if above == 2 << 48 {
        return Some(BlockWord::Released { class });
    }
    if above <= 1 << 48 {
        return None;
    }
    if above > (1 << 48) + 64 {
        return None;
    }
    Some(BlockWord::Owned {
        client: (above - (1 << 48)) as u32,
        class,
    })
}

/// The word by which a client owns a block for a class, where it may put it in place of `word`.
///
/// It may where the block is unused, is released with objects of that very class, or is the
/// client's own already, for that class. Anything else is answered by `None`.
pub fn claim(word: u64, client: u32, class: u8) -> Option<u64>
    ensures { SomeIff result
        (MayClaim word client class)
        (word_of (BlockWord.Owned client class)) }
{
    let owned = block_word(BlockWord::Owned { client, class });
    if word == block_word(BlockWord::Unused) {
        return Some(owned);
    }
    if word == block_word(BlockWord::Released { class }) {
        return Some(owned);
    }
    if word == owned {
        return Some(owned);
    }
    None
}

/// The word by which a client gives back a block that it owns, with the class that the block has.
///
/// `None` is the answer exactly where the client does not own the block.
pub fn release(word: u64, client: u32) -> Option<u64>
    ensures owned { IfSome result (λ released.
        (class : ℕ) × IsOwned word client class × (released ≡ word_of (BlockWord.Released class))) }
    ensures not_owned { IfNone result ((class : ℕ) → ¬ IsOwned word client class) }
{
    match block_of(word) {
        Some(
            BlockWord::Owned {
                client: owner,
                class,
            },
        ) => {
            if owner == client {
                Some(block_word(BlockWord::Released { class }))
            } else {
                None
            }
        }
        Some(BlockWord::Unused) => None,
        Some(BlockWord::Released { .. }) => None,
        None => None,
    }
}

/// A bit for each object of a class that fits into a block: the lowest `64 >> class` bits.
pub fn all_bits(class: u8) -> u64
    requires { class < CLASSES }
    ensures { result ≡ 2 ^ (64 / 2 ^ class) - 1 }
{
    u64::MAX >> (64 - (64u32 >> class))
}

#[cfg(test)]
mod tests;
