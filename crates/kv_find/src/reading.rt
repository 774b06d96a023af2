ghost use Rattle.std.specs.Prelude.{◌≡◌, ◌≢◌, ◌↔◌, ◌++◌, ◌+◌, ◌^◌, ℕ, ◌<◌, ◌≤◌, length};
ghost use Rattle.std.specs.Int.{w64, to_le_bytes};
ghost use Rattle.arrayvec.specs.ArrayVec.{array_vec_len};
ghost use Rattle.kv_find.specs.Readings.{HasRoom};
ghost use Rattle.kv_find.specs.declared.reading.TheConstants.{MOST_BYTES};
ghost use Rattle.machine.specs.ObjectNames.{pointer_in};
ghost use Rattle.machine.specs.Places.{IsInPool, object_word, primary_place};
ghost use Rattle.machine.specs.ValueRead.{bytes_of, next, turn, value_read_of};
ghost use Rattle.machine.specs.declared.value_read.Fetched.TheVariants.{Going, Refused};
ghost use Rattle.object_form.specs.Class.{words_for};
ghost use Rattle.object_form.specs.declared.classes.TheConstants.{OBJECT_WORDS};
ghost use Rattle.region_view.specs.Layout.{HasWord};
ghost use Rattle.verb_words.specs.Verb.{place_of};
ghost use Rattle.verb_words.specs.declared.verbs.Answer.TheVariants.{Word, Lost};

use arrayvec::ArrayVec;
use key_test::object_place;
use machine::value_read::Fetched;
use region_view::View;
use std::marker::Model;
use verb_words::{Answer, Place, Verb};

/// The bytes of the 252 words that an object of the largest class has behind its own four.
const MOST_BYTES: usize = 2016;

/// The reading of an object's value, word by word.
#[derive(Debug, Drop)]
pub struct ReadValue {
    view: View,
    pointer: u32,
    key_len: u32,
    value_len: u32,
    /// The value's first word on the primary.
    first: Place,
    /// The bytes of the words that were read.
    bytes: ArrayVec<u8, MOST_BYTES>,
}

impl Model for ReadValue {
    ghost use Rattle.kv_find.specs.Readings.{IsHeld, read_of};
    ghost use Rattle.machine.specs.ValueRead.{ValueRead};

    ghost Value = { ValueRead };

    ghost view = { λ r. read_of r.view r.pointer r.key_len r.value_len r.bytes.items };

    ghost invariant = { λ r. IsHeld (read_of r.view r.pointer r.key_len r.value_len r.bytes.items)
        r.bytes.items r.first };
}

/// The reading of the value of the object that a slot's word names, whose key and value have these
/// lengths in bytes.
pub fn value(view: View, word: u64, key_len: u32, value_len: u32) -> ReadValue
    requires object { HasRoom view.shape word key_len value_len }
    requires some { 1 ≤ value_len }
    ensures { result ≡ value_read_of view (pointer_in word) key_len value_len }
{
    let pointer = (word % (1 << 28)) as u32;
    let first = first_place(&view, pointer, key_len);
    ReadValue {
        view,
        pointer,
        key_len,
        value_len,
        first,
        bytes: ArrayVec::new(),
    }
}

// The place of an object's first word behind its own four and its key's, on the primary. The words
// after it stand behind it.
fn first_place(view: &View, pointer: u32, key_len: u32) -> Place
    requires pointer { pointer < 2 ^ 28 }
    requires object { HasWord view.now.shape (object_word pointer 0) }
    requires key { words_for key_len ≤ OBJECT_WORDS }
    ensures words { (i : ℕ) → primary_place view.now (object_word pointer (4 + words_for key_len + i))
        ≡ record { node = result.node; at = result.at + i } }
    ensures below { result.at < 2 ^ 22 }
{
    let object = object_place(view, pointer);
    Place {
        node: object.node,
        at: object.at + 4 + key_len.div_ceil(8),
    }
}

impl ReadValue {
    /// Begins anew, in the same memory, as the reading that `value` makes.
    pub fn begin(&mut self, view: View, word: u64, key_len: u32, value_len: u32)
        requires object { HasRoom view.shape word key_len value_len }
        requires some { 1 ≤ value_len }
        ensures { self.new ≡ value_read_of view (pointer_in word) key_len value_len }
    {
        let pointer = (word % (1 << 28)) as u32;
        self.first = first_place(&view, pointer, key_len);
        self.view = view;
        self.pointer = pointer;
        self.key_len = key_len;
        self.value_len = value_len;
        self.bytes.clear();
    }

    /// The verb that is due, while a word is still to be read.
    #[inline(always)]
    pub fn next(&self) -> Verb
        requires { length self.now.words < words_for self.now.value_len }
        ensures verb { result ≡ next self.now }
        ensures inside { IsInPool self.now.view.shape (place_of result) }
    {
        let Place { node, at } = self.first;
        Verb::Read(Place {
            node,
            at: at + (self.bytes.len() / 8) as u32,
        })
    }

    /// Takes the answer to the verb that was due, and tells what has come of the reading. While it
    /// goes on a word is still to be read, and after `Whole` none is.
    #[inline(always)]
    pub fn after(&mut self, answer: Answer) -> Fetched
        requires { length self.old.words < words_for self.old.value_len }
        ensures state { self.new ≡ (turn self.old answer).state }
        ensures told { result ≡ (turn self.old answer).told }
        ensures refused { (node : ℕ) → (result ≡ Refused node)
            ↔ ((answer ≡ Lost) × (node ≡ (place_of (next self.old)).node)) }
        ensures unread { (result ≡ Going) → length self.new.words < words_for self.new.value_len }
    {
        match answer {
            Answer::Word(found) => self.take(found),
            Answer::Done => Fetched::Going,
            Answer::Lost => Fetched::Refused(self.next().place().node),
        }
    }

    fn take(&mut self, found: u64) -> Fetched
        requires { length self.old.words < words_for self.old.value_len }
        ensures state { self.new ≡ (turn self.old (Word found)).state }
        ensures told { result ≡ (turn self.old (Word found)).told }
        ensures answered { (node : ℕ) → result ≢ Refused node }
        ensures unread { (result ≡ Going) → length self.new.words < words_for self.new.value_len }
    {
        push_word(&mut self.bytes, found);
        if self.bytes.len() / 8 == self.value_len.div_ceil(8) as usize {
            Fetched::Whole
        } else {
            Fetched::Going
        }
    }

    /// The bytes of the value that were read so far: after `Whole`, the value.
    pub fn bytes(&self) -> &[u8]
        ensures { result.now ≡ bytes_of self.now }
    {
        let len = self.bytes.len().min(self.value_len as usize);
        &self.bytes.as_slice()[..len]
    }
}

fn push_word(bytes: &mut ArrayVec<u8, MOST_BYTES>, word: u64)
    requires { array_vec_len bytes.old + 8 ≤ MOST_BYTES }
    ensures { bytes.new.items ≡ bytes.old.items ++ to_le_bytes w64 word }
{
    let pushed = bytes.try_extend_from_slice(&word.to_le_bytes());
    prove!(pushed.is_ok());
}
