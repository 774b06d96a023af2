//! What holds of the definitions: each function does nothing, and its clauses are the laws.

ghost use Rattle.std.specs.Prelude.{◌≡◌, ℕ, ◌<◌, Some};
ghost use Rattle.block_alloc.specs.declared.TheConstants.{CLASSES};
ghost use Rattle.block_alloc.specs.declared.BlockWord.{BlockWord};
ghost use Rattle.block_alloc.specs.BlockWord.{IsBlock, word_of, block_in, MayClaim, IsOwned};

/// No two blocks have one word.
pub fn words_tell_blocks_apart()
    ensures { (a b : BlockWord) → IsBlock a → IsBlock b → word_of a ≡ word_of b → a ≡ b }
{}

/// A block comes back from its word, and what a word gives is a block with that word.
pub fn words_give_their_blocks()
    ensures block { (block : BlockWord) → IsBlock block
        → block_in (word_of block) ≡ Some block }
    ensures word { (word : ℕ) (block : BlockWord) → block_in word ≡ Some block
        → IsBlock block × (word_of block ≡ word) }
{}

/// A block that a client owns may be claimed by no other.
pub fn owned_blocks_stay()
    ensures { (word client class owner class' : ℕ) → class < CLASSES
        → IsOwned word owner class' → MayClaim word client class → client ≡ owner }
{}
