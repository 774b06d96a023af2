ghost use Rattle.std.specs.Prelude.{◌≡◌, ◌≢◌, ◌↔◌, ℕ, ◌+◌, ◌*◌, ◌<◌, ◌≤◌, [], ◌∷◌, ◌++◌, drop, length};
ghost use Rattle.machine.specs.Places.{IsInPool, place_at};
ghost use Rattle.machine.specs.SlotWrite.{Gather, gathered, judged, listed, mend_from, next, on_verdict, slot_write_of, turn, turn_at};
ghost use Rattle.machine.specs.declared.slot_write.Wrote.TheVariants.{Won, Changed, Unchanged, Refused};
ghost use Rattle.snapshot_write.specs.Causes.{HasLost, IsFinalSwap, ReadsPrimary};
ghost use Rattle.snapshot_write.specs.Phases.{is_final, phase_of};
ghost use Rattle.snapshot_write.specs.States.{IsUnderWay, homes};
ghost use Rattle.verb_words.specs.Verb.{place_of};
ghost use Rattle.verb_words.specs.declared.verbs.Answer.TheVariants.{Word, Lost};
ghost use Rattle.verb_words.specs.declared.verbs.Verb.TheVariants.{Swap};

use arrayvec::ArrayVec;
use machine::slot_write::Wrote;
use region_view::{View, slot_places};
use snapshot_rules::{Verdict, judge};
use std::marker::Model;
use verb_words::{Answer, Place, Verb};

/// What a write does next.
#[derive(Clone, Copy, Debug)]
pub(crate) enum Phase {
    /// Puts its word on the next backup.
    Gather,
    /// Puts its word on this backup, which has another writer's.
    Mend(usize),
    /// Reads the primary before it mends, since its word is the least of several.
    Check,
    /// Puts its word on the primary.
    Final,
    /// Reads the primary until the winner has changed it.
    Wait,
}

/// A write of one slot on all its replicas: from an expected word to a fresh one.
#[derive(Debug, Drop)]
pub struct SlotWrite {
    view: View,
    slot: u32,
    expect: u64,
    fresh: u64,
    /// The slot's node and position on the primary, and then on each backup.
    places: ArrayVec<(u32, u32), 5>,
    /// The words found on the backups, its own where it was put.
    list: ArrayVec<u64, 4>,
    phase: Phase,
}

impl Model for SlotWrite {
    ghost use Rattle.machine.specs.SlotWrite.{SlotWrite};
    ghost use Rattle.snapshot_write.specs.Phases.{write_of};
    ghost use Rattle.snapshot_write.specs.States.{IsHeld};

    ghost Value = { SlotWrite };

    ghost view = { λ w. write_of w.view w.slot w.expect w.fresh w.list.items w.phase };

    ghost invariant = { λ w. IsHeld (write_of w.view w.slot w.expect w.fresh w.list.items w.phase)
        w.places.items };
}

impl SlotWrite {
    /// A write of the slot from the word `expect` to `fresh`, on the view's replicas.
    pub fn new(view: View, slot: u32, expect: u64, fresh: u64) -> SlotWrite
        requires slot { slot < 24 * view.shape.groups }
        requires words { expect ≢ fresh }
        requires fresh { fresh ≢ 0 }
        ensures { result ≡ slot_write_of view slot expect fresh }
    {
        // The sizes are read, so that they are known to be within their limits.
        prove!(slot < 24 * view.shape.groups);
        let places = slot_places(&view, slot);
        SlotWrite {
            view,
            slot,
            expect,
            fresh,
            places,
            list: ArrayVec::new(),
            phase: Phase::Gather,
        }
    }

    /// The slot that is written.
    pub fn slot(&self) -> u32
        ensures { result ≡ self.now.slot }
    {
        self.slot
    }

    /// The word that is to be replaced.
    pub fn expect(&self) -> u64
        ensures { result ≡ self.now.expect }
    {
        self.expect
    }

    /// The word that is to take its place.
    pub fn fresh(&self) -> u64
        ensures { result ≡ self.now.fresh }
    {
        self.fresh
    }

    /// Whether the verb that is due puts the word on the primary.
    pub fn is_final(&self) -> bool
        ensures { result ≡ is_final self.now.phase }
    {
        match self.phase {
            Phase::Final => true,
            Phase::Gather => false,
            Phase::Mend(_) => false,
            Phase::Check => false,
            Phase::Wait => false,
        }
    }

    /// The verb that is due.
    pub fn next(&self) -> Verb
        ensures verb { result ≡ next self.now }
        ensures inside { IsInPool self.now.view.shape (place_of result) }
    {
        match self.phase {
            Phase::Gather => self.swap(self.list.len() + 1, self.expect),
            Phase::Mend(backup) => self.swap(backup + 1, self.list[backup]),
            Phase::Final => self.swap(0, self.expect),
            Phase::Check | Phase::Wait => Verb::Read(self.place(0)),
        }
    }

    // Puts the word on a replica, the primary being 0, where that has the word `expect`.
    fn swap(&self, replica: usize, expect: u64) -> Verb
        requires { replica < length (homes self.now) }
        ensures verb { result ≡ Swap (place_at self.now.view.shape (homes self.now) replica)
            expect self.now.fresh }
        ensures inside { IsInPool self.now.view.shape (place_of result) }
    {
        Verb::Swap {
            place: self.place(replica),
            expect,
            fresh: self.fresh,
        }
    }

    fn place(&self, replica: usize) -> Place
        requires { replica < length (homes self.now) }
        ensures place { result ≡ place_at self.now.view.shape (homes self.now) replica }
        ensures inside { IsInPool self.now.view.shape result }
    {
        let (node, at) = self.places[replica];
        Place { node, at }
    }

    /// Takes the answer to the verb that was due, and tells what has come of the write. It may go on
    /// after `Unchanged` too: the primary is then read again.
    #[tactic(auto, using(crate::proofs::PlaceLemmas::primary_is_no_backup))]
    pub fn after(&mut self, answer: Answer) -> Wrote
        ensures state { self.new ≡ (turn self.old answer).state }
        ensures told { result ≡ (turn self.old answer).told }
        ensures won { (result ≡ Won)
            ↔ (IsFinalSwap self.old × ((found : ℕ) × (answer ≡ Word found))) }
        ensures changed { (word : ℕ) → (result ≡ Changed word)
            ↔ (ReadsPrimary self.old × (answer ≡ Word word) × (word ≢ self.old.expect)) }
        ensures unchanged { (word : ℕ) → (result ≡ Unchanged word) ↔ (HasLost self.old
            × ReadsPrimary self.old × (answer ≡ Word word) × (word ≡ self.old.expect)) }
        ensures refused { (node : ℕ) → (result ≡ Refused node)
            ↔ ((answer ≡ Lost) × (node ≡ (place_of (next self.old)).node)) }
    {
        match answer {
            Answer::Word(found) => self.take(found),
            Answer::Done => Wrote::Going,
            Answer::Lost => Wrote::Refused(self.next().place().node),
        }
    }

    fn take(&mut self, found: u64) -> Wrote
        ensures state { self.new ≡ (turn_at self.old.phase self.old found).state }
        ensures told { result ≡ (turn_at self.old.phase self.old found).told }
        ensures under_way { IsUnderWay self.old }
    {
        match self.phase {
            Phase::Gather => {
                self.gather(found);
                Wrote::Going
            }
            Phase::Mend(backup) => {
                self.phase = next_mend(self.list.as_slice(), self.fresh, backup + 1);
                Wrote::Going
            }
            Phase::Final => Wrote::Won,
            Phase::Check if found == self.expect => {
                self.phase = next_mend(self.list.as_slice(), self.fresh, 0);
                Wrote::Going
            }
            Phase::Wait if found == self.expect => Wrote::Unchanged(found),
            Phase::Check | Phase::Wait => Wrote::Changed(found),
        }
    }

    fn gather(&mut self, found: u64)
        requires { self.old.phase ≡ Gather }
        ensures { self.new ≡ gathered self.old (self.old.list ++ listed self.old found ∷ []) }
    {
        let word = if found == self.expect {
            self.fresh
        } else {
            found
        };
        self.list.push(word);
        if self.list.len() + 1 == self.places.len() {
            self.phase = judged_phase(self.list.as_slice(), self.fresh);
        }
    }
}

// What the full list says that a writer of this word goes on with.
#[tactic(auto, unfolding(machine::specs::SlotWrite::judged))]
fn judged_phase(list: &[u64], fresh: u64) -> Phase
    requires some { 0 < length list.now }
    requires few { length list.now ≤ 4 }
    ensures { phase_of result ≡ on_verdict (judged list.now fresh) fresh list.now }
{
    match judge(list, fresh) {
        Verdict::All => Phase::Final,
        Verdict::Most => next_mend(list, fresh, 0),
        Verdict::CheckLeast => Phase::Check,
        Verdict::Lose => Phase::Wait,
    }
}

// The next backup that has another word than this one, from this backup on.
fn next_mend(list: &[u64], fresh: u64, from: usize) -> Phase
    requires { from ≤ length list.now }
    ensures { phase_of result ≡ mend_from fresh from (drop from list.now) }
{
    for backup in from..list.len() {
        if list[backup] != fresh {
            return Phase::Mend(backup);
        }
    }
    Phase::Final
}
