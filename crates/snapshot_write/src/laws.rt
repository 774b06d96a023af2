//! What holds of the definitions: each function does nothing, and its clause is the law.

ghost use Rattle.std.specs.Prelude.{◌≡◌, ◌+◌, ◌*◌, ◌<◌, ◌≤◌, ℕ, List, [], length};
ghost use Rattle.machine.specs.declared.slot_write.Wrote.TheVariants.{Going};
ghost use Rattle.machine.specs.EpochRead.{IsView};
ghost use Rattle.machine.specs.Places.{backup_count};
ghost use Rattle.machine.specs.SlotWrite.{SlotWrite, slot_write_of, turn};
ghost use Rattle.region_view.specs.Placed.{Viewed};
ghost use Rattle.slot_runs.specs.Allowed.{IsAllowed, IsSettled};
ghost use Rattle.slot_runs.specs.Claims.{HoldsAlong};
ghost use Rattle.slot_runs.specs.Run.{Event, opening};
ghost use Rattle.snapshot_write.specs.Bound.{GoesOn, verbs_left};
ghost use Rattle.snapshot_write.specs.States.{IsUnderWay};
ghost use Rattle.verb_words.specs.declared.verbs.Answer.{Answer};
ghost use Rattle.verb_words.specs.declared.verbs.Answer.TheVariants.{Word};

/// A slot write is under way from its beginning on, whatever is answered.
pub fn slot_writes_stay_under_way()
    ensures begun { (view : Viewed) (slot expect fresh : ℕ) → IsView view
        → slot < 24 * view.shape.groups → IsUnderWay (slot_write_of view slot expect fresh) }
    ensures kept { (write : SlotWrite) (answer : Answer) → IsUnderWay write
        → IsUnderWay (turn write answer).state }
{}

/// Each verb that is answered and leaves a write going takes one from the verbs that are left,
/// which are 2 b + 1 at first on b backups.
pub fn verbs_are_used_up()
    ensures begun { (view : Viewed) (slot expect fresh : ℕ)
        → verbs_left (slot_write_of view slot expect fresh) ≡ 2 * backup_count view slot + 1 }
    ensures falls { (write : SlotWrite) (word : ℕ) → IsUnderWay write
        → (turn write (Word word)).told ≡ Going
        → verbs_left (turn write (Word word)).state < verbs_left write }
{}

/// On b backups a write goes on at 2 b answers at most: at the next it has ended, or has read the
/// primary after a list that lost.
pub fn a_slot_write_takes_few_verbs()
    ensures { (view : Viewed) (slot expect fresh : ℕ) (words : List ℕ) → IsView view
        → slot < 24 * view.shape.groups → GoesOn (slot_write_of view slot expect fresh) words
        → length words ≤ 2 * backup_count view slot }
{}

/// Any number of writers write one slot at once, verb by verb in any order, on one to four backups
/// and with no node lost. At the opening all words of the slot are equal; a write begins while its
/// expected word is deciding, with a word that is unused since the oldest write under way began.
///
/// Then the deciding word changes by the final swap of one write alone. It finds the expected word,
/// its word is the winner of the round's first words, every backup holds it then, and that write
/// alone is told that it has won. A write that began in a round that has ended keeps too few words of
/// its own to win.
pub fn rounds()
    ensures backups { (view : Viewed) (slot : ℕ) → IsView view
        → (1 ≤ backup_count view slot) × (backup_count view slot ≤ 4) }
    ensures holds { (view : Viewed) (slot : ℕ) (nodes : List (List ℕ)) (events : List Event)
        → IsView view → slot < 24 * view.shape.groups → IsSettled view slot nodes
        → IsAllowed (opening view slot nodes) [] events
        → HoldsAlong (opening view slot nodes) events }
{}
