//! What holds of the definitions: each function does nothing, and its clause is the law.

ghost use Rattle.std.specs.Prelude.{◌≡◌, ◌+◌, ◌<◌, ◌≤◌, ◌++◌, ◌∷◌, [], ℕ, List, length, Some};
ghost use Rattle.kv_find.specs.Passed.{WasPassed, WasRead, after_all};
ghost use Rattle.kv_find.specs.Readings.{HasRoom};
ghost use Rattle.kv_find.specs.Verbs.{EndsWith, words_with_key};
ghost use Rattle.machine.specs.KeySearch.{AtKey, AtSlot, IsKeySearch, KeySearch, key_search_of, slot_at, turn};
ghost use Rattle.machine.specs.KeyTest.{KeyTest};
ghost use Rattle.machine.specs.ObjectNames.{Object, candidate_in};
ghost use Rattle.machine.specs.declared.key_search.Found.TheVariants.{At, Nowhere};
ghost use Rattle.object_form.specs.Class.{room_of, words_for, words_of};
ghost use Rattle.object_form.specs.Meta.{IsMeta};
ghost use Rattle.object_form.specs.declared.metas.Kind.{Kind};
ghost use Rattle.object_form.specs.declared.metas.Meta.{Meta};
ghost use Rattle.region_view.specs.Placed.{Viewed};
ghost use Rattle.verb_words.specs.declared.verbs.Answer.{Answer};

/// Where the first slot's word names an object with the fingerprint of the key, whose meta word and
/// key's words are those of the key, the slot is found at their last word. These are two words and
/// the key's.
pub fn a_key_in_its_first_slot_takes_few_verbs()
    ensures found { (view : Viewed) (key : List ℕ) (from word : ℕ) (object : Object) (meta : Meta)
        → candidate_in view.shape key word ≡ Some object
        → IsMeta meta → meta.key_len ≡ length key
        → words_of meta.key_len meta.value_len ≤ room_of object.class
        → EndsWith (key_search_of view key from) (words_with_key key word meta)
        (At (slot_at (key_search_of view key from)) word meta.kind meta.value_len) }
    ensures verbs { (key : List ℕ) (word : ℕ) (meta : Meta)
        → length (words_with_key key word meta) ≡ 2 + words_for (length key) }
{}

/// A slot that is found names an object that has room for the key and for a value of the length
/// that is told.
pub fn what_is_found_can_be_read()
    ensures { (search : KeySearch) (answer : Answer) (slot word : ℕ) (kind : Kind) (value_len : ℕ)
        → IsKeySearch search.view search.key search
        → (turn search answer).told ≡ At slot word kind value_len
        → HasRoom search.view.shape word (length search.key) value_len }
{}

/// Where a search tells that the key is nowhere, each slot of the key's order, from the place of the
/// start on, was passed over by an answer of this search: it is the slot's word, which is not empty
/// and names no object with the key's fingerprint, or with it the test of the object's key tells
/// another key. The start is any search, so these are the answers since the search began, or since
/// the caller passed over a slot itself with `pass`.
pub fn nowhere_passes_every_slot()
    ensures { (start : KeySearch) (answers : List Answer) (answer : Answer)
        → (turn (after_all start answers) answer).told ≡ Nowhere
        → (place : ℕ) → start.place ≤ place → place < length start.order
        → WasPassed start (answers ++ answer ∷ []) place }
{}

/// Where a search starts at a slot, the word whose object's key is tested was read of the slot at
/// the search's place, by an answer of this search.
pub fn a_tested_word_was_read_of_its_slot()
    ensures { (start : KeySearch) (answers : List Answer) (word : ℕ) (key_test : KeyTest)
        → start.phase ≡ AtSlot → (after_all start answers).phase ≡ AtKey word key_test
        → WasRead start answers (after_all start answers).place word }
{}
