//! What holds of the definitions: each function does nothing, and its clauses are the laws.

ghost use Rattle.std.specs.Prelude.{◌≡◌, ℕ, List, ◌<◌, ◌≤◌, ◌^◌, ◌↔◌, ◌++◌, length, slice_index};
ghost use Rattle.object_form.specs.declared.classes.TheConstants.{CLASSES, LONGEST, OBJECT_WORDS};
ghost use Rattle.object_form.specs.declared.metas.Meta.{Meta};
ghost use Rattle.object_form.specs.declared.links.Link.{Link};
ghost use Rattle.object_form.specs.Class.{words_of, room_of};
ghost use Rattle.object_form.specs.Block.{block_of_unit, object_of_unit, IsInBlock, IsInObject};
ghost use Rattle.object_form.specs.Meta.{word_of_meta, IsMeta};
ghost use Rattle.object_form.specs.Link.{word_of_link, IsLink};
ghost use Rattle.object_form.specs.Content.{padded_words, IsSpelled};

/// An object of the largest class is as long as the longest key and the longest value make it.
pub fn the_longest_object_is_full()
    ensures words { words_of 64 LONGEST ≡ OBJECT_WORDS }
    ensures room { room_of 5 ≡ OBJECT_WORDS }
{}

/// A unit lies in its block, and in no other.
pub fn units_lie_in_one_block()
    ensures { (unit block : ℕ) → 16 ≤ unit → IsInBlock unit block ↔ (block ≡ block_of_unit unit) }
{}

/// A unit lies in its object of its block, and in no other.
pub fn units_lie_in_one_object()
    ensures lies { (unit class : ℕ) → 16 ≤ unit → class < CLASSES
        → IsInObject unit class (block_of_unit unit) (object_of_unit unit class) }
    ensures only { (unit class block object : ℕ) → class < CLASSES
        → IsInObject unit class block object
        → (block ≡ block_of_unit unit) × (object ≡ object_of_unit unit class) }
{}

/// A meta word says one kind and one pair of lengths, and has 40 bits.
pub fn meta_words_say_one_meta()
    ensures one { (a b : Meta) → IsMeta a → IsMeta b → word_of_meta a ≡ word_of_meta b → a ≡ b }
    ensures size { (meta : Meta) → IsMeta meta → word_of_meta meta < 2 ^ 40 }
{}

/// A link word says one link, is not 0, and has 64 bits.
pub fn link_words_say_one_link()
    ensures one { (a b : Link) → IsLink a → IsLink b → word_of_link a ≡ word_of_link b → a ≡ b }
    ensures some { (link : Link) → IsLink link → 0 < word_of_link link }
    ensures size { (link : Link) → IsLink link → word_of_link link < 2 ^ 64 }
{}

/// Bytes that are put into words are spelled by them, whatever words come behind.
pub fn padded_words_spell_their_bytes()
    ensures { (bytes more : List ℕ) → ((i : ℕ) → slice_index bytes i < 2 ^ 8)
        → IsSpelled (padded_words bytes ++ more) (length bytes) bytes }
{}
