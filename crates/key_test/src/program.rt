ghost use Rattle.std.specs.Prelude.{◌≡◌, ◌≢◌, ◌↔◌, ℕ, ◌<◌, length};
ghost use Rattle.machine.specs.KeyTest.{Length, fits, key_test_of, meta_for, next, turn, turn_at};
ghost use Rattle.machine.specs.ObjectNames.{IsObject};
ghost use Rattle.machine.specs.Places.{IsInPool, object_word, primary_place};
ghost use Rattle.machine.specs.declared.key_test.Tested.TheVariants.{Refused};
ghost use Rattle.object_form.specs.Class.{IsKeyLength, room_of, words_for};
ghost use Rattle.object_form.specs.Content.{word_from};
ghost use Rattle.object_form.specs.declared.classes.TheConstants.{CLASSES};
ghost use Rattle.verb_words.specs.Verb.{place_of};
ghost use Rattle.verb_words.specs.declared.verbs.Answer.TheVariants.{Lost};
ghost use Rattle.verb_words.specs.declared.verbs.Verb.TheVariants.{Read};

use crate::keys::{key_bytes, key_word};
use crate::objects::Object;
use crate::places::object_place;
use arrayvec::ArrayVec;
use machine::key_test::Tested;
use object_form::{Kind, Meta, meta_of, units};
use region_view::View;
use std::marker::Model;
use verb_words::{Answer, Place, Verb};

/// What a test reads next.
#[derive(Clone, Copy, Debug)]
pub(crate) enum Phase {
    /// The meta word.
    Length,
    /// This word of the key, of an object of this kind and with a value of this length.
    Part {
        word: u32,
        kind: Kind,
        value_len: u32,
    },
}

/// A test of whether an object has a key.
#[derive(Debug, Drop)]
pub struct KeyTest {
    view: View,
    key: ArrayVec<u8, 64>,
    /// The first word of the key: most keys have no other.
    first_word: u64,
    pointer: u32,
    class: u8,
    /// The object's first word on the primary.
    first: Place,
    phase: Phase,
}

impl Model for KeyTest {
    ghost use Rattle.key_test.specs.States.{IsHeld};
    ghost use Rattle.key_test.specs.Tests.{test_of};
    ghost use Rattle.machine.specs.KeyTest.{KeyTest};

    ghost Value = { KeyTest };

    ghost view = { λ t. test_of t.view t.key.items t.pointer t.class t.phase };

    ghost invariant = { λ t. IsHeld (test_of t.view t.key.items t.pointer t.class t.phase) t.first t.first_word };
}

impl KeyTest {
    /// A test of whether the object of this class, which the pointer names, has the key.
    #[inline(always)]
    pub fn new(view: View, key: &[u8], pointer: u32, class: u8) -> KeyTest
        requires key { IsKeyLength (length key.now) }
        requires object { IsObject view.shape (record { pointer = pointer; class = class }) }
        ensures { result ≡ key_test_of view key.now (record { pointer = pointer; class = class }) }
    {
        KeyTest {
            view,
            key: key_bytes(key),
            first_word: key_word(key, 0),
            pointer,
            class,
            first: object_place(&view, pointer),
            phase: Phase::Length,
        }
    }

    /// The test begins anew with the object of this class that the pointer names.
    #[inline(always)]
    pub fn begin(&mut self, pointer: u32, class: u8)
        requires object { IsObject self.old.view.shape (record { pointer = pointer; class = class }) }
        ensures { self.new ≡ key_test_of self.old.view self.old.key (record { pointer = pointer; class = class }) }
    {
        self.first = object_place(&self.view, pointer);
        self.pointer = pointer;
        self.class = class;
        self.phase = Phase::Length;
    }

    /// The view under which the object is read.
    #[inline(always)]
    pub fn view(&self) -> &View
        ensures { result.now ≡ self.now.view }
    {
        &self.view
    }

    /// The key.
    #[inline(always)]
    pub fn key(&self) -> &[u8]
        ensures { result.now ≡ self.now.key }
    {
        self.key.as_slice()
    }

    /// The object that is tested.
    pub fn object(&self) -> Object
        ensures { result ≡ self.now.object }
    {
        Object {
            pointer: self.pointer,
            class: self.class,
        }
    }

    /// The verb that is due.
    #[inline(always)]
    pub fn next(&self) -> Verb
        ensures verb { result ≡ next self.now }
        ensures inside { IsInPool self.now.view.shape (place_of result) }
    {
        Verb::Read(self.place_to_read())
    }

    /// The place of the word that is read next: each verb of a test is a reading.
    #[inline(always)]
    pub fn place_to_read(&self) -> Place
        ensures verb { Read result ≡ next self.now }
        ensures inside { IsInPool self.now.view.shape result }
    {
        match self.phase {
            Phase::Length => self.place(1),
            Phase::Part { word, .. } => self.place(4 + word),
        }
    }

    #[inline(always)]
    fn place(&self, i: u32) -> Place
        requires { i < room_of self.now.object.class }
        ensures place { result ≡ primary_place self.now.view
            (object_word self.now.object.pointer i) }
        ensures inside { IsInPool self.now.view.shape result }
    {
        Place {
            node: self.first.node,
            at: self.first.at + i,
        }
    }

    /// Takes the answer to the verb that was due, and tells what has come of the test.
    #[inline(always)]
    pub fn after(&mut self, answer: Answer) -> Tested
        ensures state { self.new ≡ (turn self.old answer).state }
        ensures told { result ≡ (turn self.old answer).told }
        ensures refused { (node : ℕ) → (result ≡ Refused node)
            ↔ ((answer ≡ Lost) × (node ≡ (place_of (next self.old)).node)) }
    {
        match answer {
            Answer::Word(found) => self.take(found),
            Answer::Done => Tested::Going,
            Answer::Lost => Tested::Refused(self.next().place().node),
        }
    }

    #[inline(always)]
    fn take(&mut self, found: u64) -> Tested
        ensures state { self.new ≡ (turn_at self.old.phase self.old found).state }
        ensures told { result ≡ (turn_at self.old.phase self.old found).told }
        ensures answered { (node : ℕ) → result ≢ Refused node }
    {
        match self.phase {
            Phase::Length => self.take_meta(found),
            Phase::Part {
                word,
                kind,
                value_len,
            } => {
                if found != self.key_word(word) {
                    return Tested::Other;
                }
                let read = word + 1;
                if read as usize == self.key.len().div_ceil(8) {
                    return Tested::Same { kind, value_len };
                }
                self.phase = Phase::Part {
                    word: read,
                    kind,
                    value_len,
                };
                Tested::Going
            }
        }
    }

    fn take_meta(&mut self, found: u64) -> Tested
        ensures state { self.new ≡ (turn_at Length self.old found).state }
        ensures told { result ≡ (turn_at Length self.old found).told }
        ensures answered { (node : ℕ) → result ≢ Refused node }
    {
        let Some(meta) = self.meta_for(found) else {
            return Tested::Other;
        };
        self.phase = Phase::Part {
            word: 0,
            kind: meta.kind,
            value_len: meta.value_len,
        };
        Tested::Going
    }

    // A word of the key.
    #[inline(always)]
    fn key_word(&self, word: u32) -> u64
        requires { word < words_for (length self.now.key) }
        ensures { result ≡ word_from self.now.key word }
    {
        if word == 0 {
            return self.first_word;
        }
        key_word(self.key.as_slice(), word as usize)
    }

    // The meta that the word says, where the object may have the key by it.
    fn meta_for(&self, found: u64) -> Option<Meta>
        ensures { result ≡ meta_for self.now found }
    {
        let meta = meta_of(found)?;
        if fits(self.key.len(), self.class, meta) {
            Some(meta)
        } else {
            None
        }
    }
}

// Whether the meta is that of a key of this length in an object of this class.
fn fits(key_len: usize, class: u8, meta: Meta) -> bool
    requires { class < CLASSES }
    ensures { result ≡ fits key_len class meta }
{
    let words = 4 + meta.key_len.div_ceil(8) + meta.value_len.div_ceil(8);
    meta.key_len as usize == key_len && words <= 8 * units(class)
}
