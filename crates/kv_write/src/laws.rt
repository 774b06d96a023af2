//! What holds of the definitions: each function does nothing, and its clauses are the laws.

ghost use Rattle.std.specs.Prelude.{◌≡◌, ◌↔◌, ◌+◌, ◌-◌, ◌*◌, ◌<◌, ◌≤◌, ℕ, List, length, slice_index_or};
ghost use Rattle.kv_write.specs.Bound.{GoesOn, IsUnderWay, IsVersionWithin, verbs_left};
ghost use Rattle.kv_write.specs.Done.{done};
ghost use Rattle.machine.specs.EpochRead.{IsView};
ghost use Rattle.machine.specs.Places.{object_word, replica_count, written_place};
ghost use Rattle.machine.specs.Resolution as resolving;
ghost use Rattle.machine.specs.Resolution.{Resolution, resolution_of};
ghost use Rattle.machine.specs.WordsWrite.{Piece, next, turn, words_write_of};
ghost use Rattle.machine.specs.declared.object_write.Written.TheVariants.{Whole};
ghost use Rattle.machine.specs.declared.resolution.Resolved.TheVariants.{Going};
ghost use Rattle.object_form.specs.Class.{IsKeyLength, words_for};
ghost use Rattle.region_view.specs.Placed.{Viewed};
ghost use Rattle.verb_words.specs.declared.verbs.Answer.{Answer};
ghost use Rattle.verb_words.specs.declared.verbs.Answer.TheVariants.{Done, Word};
ghost use Rattle.verb_words.specs.declared.verbs.Verb.TheVariants.{Write};

/// A writing of words writes each of them on every replica, one word after the other, and is whole
/// exactly when all of this is done.
pub fn each_word_goes_to_every_replica()
    ensures each { (view : Viewed) (pointer : ℕ) (pieces : List Piece) (piece replica : ℕ)
        → piece < length pieces → replica < replica_count view (object_word pointer 0)
        → next (done (piece * replica_count view (object_word pointer 0) + replica)
        (words_write_of view pointer pieces))
        ≡ Write (written_place view
        (object_word pointer (slice_index_or pieces piece (0, 0)).0) replica)
        (slice_index_or pieces piece (0, 0)).1 }
    ensures whole { (view : Viewed) (pointer : ℕ) (pieces : List Piece) (piece replica : ℕ)
        → piece < length pieces → replica < replica_count view (object_word pointer 0)
        → ((turn (done (piece * replica_count view (object_word pointer 0) + replica)
        (words_write_of view pointer pieces)) Done).told ≡ Whole)
        ↔ ((piece + 1 ≡ length pieces)
        × (replica + 1 ≡ replica_count view (object_word pointer 0))) }
{}

/// A resolution is under way from its beginning on, whatever is answered.
pub fn resolutions_stay_under_way()
    ensures begun { (view : Viewed) (slot expect fresh version : ℕ) (key : List ℕ) → IsView view
        → slot < 24 * view.shape.groups → IsKeyLength (length key)
        → IsUnderWay (resolution_of view slot expect fresh version key) }
    ensures kept { (resolution : Resolution) (answer : Answer) → IsUnderWay resolution
        → IsUnderWay (resolving.turn resolution answer).state }
{}

/// Each verb that is answered and leaves a resolution going takes one from the verbs that are left,
/// where no version that is read is above `most`. At first these are the slot's, the key test's and
/// those of a walk, in which each version is below the one before it.
pub fn verbs_are_used_up()
    ensures begun { (most : ℕ) (view : Viewed) (slot expect fresh version : ℕ) (key : List ℕ)
        → verbs_left most (resolution_of view slot expect fresh version key)
        ≡ 1 + (1 + words_for (length key)) + (2 * (most - version) + 1) }
    ensures falls { (most : ℕ) (resolution : Resolution) (word : ℕ) → IsUnderWay resolution
        → IsVersionWithin most resolution.phase word
        → (resolving.turn resolution (Word word)).told ≡ Going
        → verbs_left most (resolving.turn resolution (Word word)).state < verbs_left most resolution }
{}

/// A resolution goes on at so many answers at most, and has ended at the next: one for the slot, one
/// and one for each word of the key for its test, and two for each version above the write's.
pub fn a_resolution_takes_few_verbs()
    ensures { (most : ℕ) (view : Viewed) (slot expect fresh version : ℕ) (key words : List ℕ)
        → IsView view → slot < 24 * view.shape.groups → IsKeyLength (length key)
        → GoesOn most (resolution_of view slot expect fresh version key) words
        → length words ≤ 2 + words_for (length key) + 2 * (most - version) }
{}
