ghost use Rattle.std.specs.Prelude.{◌≡◌, ◌*◌, ◌<◌, ◌≤◌, length, take};
ghost use Rattle.client_recovery.specs.Progresses.{IsKept, IsOfLog, recovery_at, turn_of};
ghost use Rattle.machine.specs.Places.{object_word, primary_place};
ghost use Rattle.machine.specs.ObjectNames.{IsObject, pointer_in};
ghost use Rattle.machine.specs.Recovery.{meta_for, on_meta, settles, turn};
ghost use Rattle.machine.specs.RecoveryStage.{HasKey, HasObject, HasView, IsSlotWith, view_of};
ghost use Rattle.object_form.specs.declared.classes.TheConstants.{OBJECT_WORDS};
ghost use Rattle.object_form.specs.Content.{bytes_of_words};
ghost use Rattle.verb_words.specs.declared.verbs.Answer.TheVariants.{Word};

use crate::progress::{Progress, Stage};
use arrayvec::ArrayVec;
use key_test::{Object, object_place};
use machine::recovery::Recovering;
use object_form::{Meta, meta_of, units};
use region_view::View;
use verb_words::Place;

// The reading of the object of the last call.
impl Progress {
    /// A word of the object on its primary.
    pub(crate) fn word_place(&self, word: u32) -> Place
        requires object { HasObject (recovery_at self.now) }
        requires word { word < OBJECT_WORDS }
        ensures { result ≡ primary_place (view_of (recovery_at self.now))
            (object_word self.now.object.pointer word) }
    {
        word_place(&self.view(), self.object, word)
    }

    /// The version of the object that the word of a slot names, on its primary.
    pub(crate) fn version_place(&self, slot: u32, word: u64) -> Place
        requires view { HasView (recovery_at self.now) }
        requires object { IsSlotWith self.now.shape slot word }
        ensures { result ≡ primary_place (view_of (recovery_at self.now))
            (object_word (pointer_in word) 2) }
    {
        let Place { node, at } = object_place(&self.view(), (word % (1 << 28)) as u32);
        Place { node, at: at + 2 }
    }

    pub(crate) fn on_meta(&mut self, found: u64) -> Recovering
        requires { HasObject (recovery_at self.old) }
        ensures { turn_of self.new result ≡ on_meta (recovery_at self.old) found }
    {
        match self.meta_for(found) {
            Some(meta) => self.goes_to(Stage::ReadLog(meta.key_len, ArrayVec::new())),
            None => self.is_beaten(),
        }
    }

    // The meta that a word says, where the object has room for it.
    fn meta_for(&self, found: u64) -> Option<Meta>
        requires { HasObject (recovery_at self.now) }
        ensures { result ≡ meta_for (recovery_at self.now) found }
    {
        let meta = meta_of(found)?;
        let words = 4 + meta.key_len.div_ceil(8) + meta.value_len.div_ceil(8);
        if words <= 8 * units(self.object.class) {
            Some(meta)
        } else {
            None
        }
    }

    // A further word of the object was read, behind those from the version on.
    pub(crate) fn on_log_word(&mut self, found: u64) -> Recovering
        requires kept { IsKept (recovery_at self.old) }
        requires stage { IsOfLog self.old.stage }
        ensures { turn_of self.new result ≡ turn (recovery_at self.old) (Word found) }
    {
        let Stage::ReadLog(key_len, words) = &mut self.stage else {
            return Recovering::Going;
        };
        words.push(found);
        let key_len = *key_len as usize;
        if words.len() < 2 + key_len.div_ceil(8) {
            return Recovering::Going;
        }
        self.version = words[0];
        self.expect = words[1];
        self.key = first_bytes(&words.as_slice()[2..], key_len);
        self.settles()
    }

    // A call whose version was not logged has replaced nothing.
    fn settles(&mut self) -> Recovering
        requires { HasKey (recovery_at self.old) }
        ensures { turn_of self.new result ≡ settles (recovery_at self.old) }
    {
        if self.version == 0 {
            self.is_beaten()
        } else {
            self.finds()
        }
    }
}

// A word of an object on its primary.
fn word_place(view: &View, object: Object, word: u32) -> Place
    requires object { IsObject view.now.shape object }
    requires word { word < OBJECT_WORDS }
    ensures { result ≡ primary_place view.now (object_word object.pointer word) }
{
    let Place { node, at } = object_place(view, object.pointer);
    Place {
        node,
        at: at + word,
    }
}

// The first bytes of the words, where each word has eight, the lowest first.
#[tactic(auto, using(crate::proofs::ByteLemmas::bytes_more))]
fn first_bytes(words: &[u64], count: usize) -> ArrayVec<u8, 64>
    requires some { count ≤ 8 * length words.now }
    requires most { count ≤ 64 }
    ensures { result.items ≡ take count (bytes_of_words words.now) }
{
    let mut bytes = ArrayVec::new();
    for index in 0..count {
        bytes.push(words[index / 8].to_le_bytes()[index % 8]);
    }
    bytes
}
