ghost use Rattle.std.specs.Prelude.{◌≡◌, ◌≢◌, ◌↔◌, ℕ, ◌<◌, ◌*◌, length};
ghost use Rattle.machine.specs.KeySearch.{AtSlot, is_at_slot, key_search_of, next, passed, slot_at, tests, turn, turn_at};
ghost use Rattle.machine.specs.ObjectNames.{candidate_in};
ghost use Rattle.machine.specs.Places.{IsInPool};
ghost use Rattle.machine.specs.declared.key_search.Found.TheVariants.{Refused};
ghost use Rattle.object_form.specs.Class.{IsKeyLength};
ghost use Rattle.slot_order.specs.Slots.{order_of};
ghost use Rattle.verb_words.specs.Verb.{place_of};
ghost use Rattle.verb_words.specs.declared.verbs.Answer.TheVariants.{Word, Lost};
ghost use Rattle.verb_words.specs.declared.verbs.Verb.TheVariants.{Read};

use arrayvec::ArrayVec;
use key_test::{KeyTest, Object, Tested, index_primary, object_in};
use machine::key_search::Found;
use region_view::View;
use slot_order::{finger, order};
use std::marker::Model;
use verb_words::{Answer, Place, Verb};

/// The pointer of the first object of every pool: of region 1, behind the words of its blocks.
const FIRST_OBJECT: u32 = 0x10_0010;

/// What a search does next.
#[derive(Clone, Copy, Debug)]
pub(crate) enum Phase {
    /// Reads the slot at the present place.
    AtSlot,
    /// Tests the key of the object that this word of the slot names.
    AtKey(u64),
}

/// A search for a key, from a place of the key's order on.
#[derive(Debug, Drop)]
pub struct Find {
    /// The present or last test of the key, which the next one takes the place of: it has the view and
    /// the key of the search. Before the first it is one of the pool's first object.
    test: KeyTest,
    /// The fingerprint of the key.
    finger: u8,
    /// The slots of the key, in the order in which they are read.
    order: ArrayVec<u32, 32>,
    place: usize,
    /// The primary of the index.
    primary: u32,
    phase: Phase,
}

impl Model for Find {
    ghost use Rattle.kv_find.specs.Searches.{search_of};
    ghost use Rattle.kv_find.specs.States.{IsHeld};
    ghost use Rattle.machine.specs.KeySearch.{KeySearch};

    ghost Value = { KeySearch };

    ghost view = { λ f. search_of f.test f.order.items f.place f.phase };

    ghost invariant = { λ f. IsHeld (search_of f.test f.order.items f.place f.phase) f.finger f.primary };
}

impl Find {
    /// A search for the key from this place of its order on.
    #[inline(always)]
    pub fn new(view: View, key: &[u8], from: usize) -> Find
        requires key { IsKeyLength (length key.now) }
        requires from { from < length (order_of key.now view.shape.groups) }
        ensures { result ≡ key_search_of view key.now from }
    {
        // The sizes are read, so that they are known to be within their limits.
        prove!(view.shape.groups <= 256);
        Find {
            test: KeyTest::new(view, key, FIRST_OBJECT, 0),
            finger: finger(key),
            order: order(key, view.shape.groups),
            place: from,
            primary: index_primary(&view),
            phase: Phase::AtSlot,
        }
    }

    /// The present place in the key's order, from 0.
    pub fn place(&self) -> usize
        ensures { result ≡ self.now.place }
    {
        self.place
    }

    /// Whether the slot at the present place is read next, and not an object that it names.
    #[inline(always)]
    pub fn is_at_slot(&self) -> bool
        ensures { result ≡ is_at_slot self.now.phase }
    {
        match self.phase {
            Phase::AtSlot => true,
            Phase::AtKey(_) => false,
        }
    }

    /// The verb that is due.
    #[inline(always)]
    pub fn next(&self) -> Verb
        ensures verb { result ≡ next self.now }
        ensures inside { IsInPool self.now.view.shape (place_of result) }
    {
        Verb::Read(self.place_to_read())
    }

    /// The place of the word that is read next: each verb of a search is a reading.
    #[inline(always)]
    pub fn place_to_read(&self) -> Place
        ensures verb { Read result ≡ next self.now }
        ensures inside { IsInPool self.now.view.shape result }
    {
        match self.phase {
            Phase::AtSlot => Place {
                node: self.primary,
                at: self.slot(),
            },
            Phase::AtKey(_) => self.test.place_to_read(),
        }
    }

    #[inline(always)]
    fn slot(&self) -> u32
        ensures { result ≡ slot_at self.now }
    {
        self.order[self.place]
    }

    /// Takes the answer to the verb that was due, and tells what has come of the search.
    #[inline(always)]
    pub fn after(&mut self, answer: Answer) -> Found
        ensures state { self.new ≡ (turn self.old answer).state }
        ensures told { result ≡ (turn self.old answer).told }
        ensures refused { (node : ℕ) → (result ≡ Refused node)
            ↔ ((answer ≡ Lost) × (node ≡ (place_of (next self.old)).node)) }
    {
        match self.phase {
            Phase::AtSlot => self.take_slot(answer),
            Phase::AtKey(word) => match self.test.after(answer) {
                Tested::Going => Found::Going,
                Tested::Same { kind, value_len } => Found::At {
                    slot: self.slot(),
                    word,
                    kind,
                    value_len,
                },
                Tested::Other => self.pass(),
                Tested::Refused(node) => Found::Refused(node),
            },
        }
    }

    #[inline(always)]
    fn take_slot(&mut self, answer: Answer) -> Found
        requires { self.old.phase ≡ AtSlot }
        ensures state { self.new ≡ (turn_at AtSlot self.old answer).state }
        ensures told { result ≡ (turn_at AtSlot self.old answer).told }
    {
        match answer {
            Answer::Word(0) => Found::Empty { slot: self.slot() },
            Answer::Word(word) => self.test(word),
            Answer::Done => Found::Going,
            Answer::Lost => Found::Refused(self.primary),
        }
    }

    // Goes on to the key of the object that the slot's word names, or to the next slot.
    #[inline(always)]
    fn test(&mut self, word: u64) -> Found
        ensures state { self.new ≡ (tests self.old word).state }
        ensures told { result ≡ (tests self.old word).told }
    {
        let Some(object) = self.candidate_in(word) else {
            return self.pass();
        };
        self.test.begin(object.pointer, object.class);
        self.phase = Phase::AtKey(word);
        Found::Going
    }

    // The object that a word names, where the word has the fingerprint of the key too.
    #[inline(always)]
    fn candidate_in(&self, word: u64) -> Option<Object>
        ensures { result ≡ candidate_in self.now.view.shape self.now.key word }
    {
        if word >> 56 == u64::from(self.finger) {
            object_in(&self.test.view().shape, word)
        } else {
            None
        }
    }

    /// Passes over the slot at the present place, as over one with another fingerprint.
    #[inline(always)]
    pub fn pass(&mut self) -> Found
        ensures state { self.new ≡ (passed self.old).state }
        ensures told { result ≡ (passed self.old).told }
    {
        if self.place + 1 == self.order.len() {
            return Found::Nowhere;
        }
        self.place += 1;
        self.phase = Phase::AtSlot;
        Found::Going
    }
}
