//! What holds of the definitions: each function does nothing, and its clauses are the laws.

ghost use Rattle.std.specs.Prelude.{◌≡◌, ℕ, Some, None};
ghost use Rattle.race_slot.specs.declared.Slot.{Slot};
ghost use Rattle.race_slot.specs.Slot.{IsSlot, slot_word, unpacked};

/// No two slots have one word.
pub fn words_tell_slots_apart()
    ensures { (a b : Slot) → IsSlot a → IsSlot b → slot_word a ≡ slot_word b → a ≡ b }
{}

/// A slot comes back from its word, what a word gives is a slot with that word, and the word of the
/// empty slot gives none.
pub fn words_give_their_slots()
    ensures slot { (slot : Slot) → IsSlot slot → unpacked (slot_word slot) ≡ Some slot }
    ensures word { (word : ℕ) (slot : Slot) → unpacked word ≡ Some slot
        → IsSlot slot × (slot_word slot ≡ word) }
    ensures empty { unpacked 0 ≡ None }
{}
