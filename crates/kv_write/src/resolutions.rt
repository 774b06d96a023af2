ghost use Rattle.std.specs.Prelude.{◌≡◌, ◌↔◌, ℕ, ◌*◌, ◌<◌, Option, length};
ghost use Rattle.kv_write.specs.Causes.{IsBeaten, IsOther, IsStill, IsWon};
ghost use Rattle.machine.specs.ObjectNames.{IsObject};
ghost use Rattle.machine.specs.Places.{IsInPool, object_word, primary_place};
ghost use Rattle.machine.specs.Resolution.{AtKey, next, on_expected, on_slot, on_version, resolution_of, tests, turn, turn_at, version_walk_of, walks_to};
ghost use Rattle.machine.specs.declared.resolution.Resolved.TheVariants.{Beaten, OtherKey, Refused, Still, Won};
ghost use Rattle.object_form.specs.Class.{IsKeyLength};
ghost use Rattle.verb_words.specs.Verb.{place_of};
ghost use Rattle.verb_words.specs.declared.verbs.Answer.TheVariants.{Lost, Word};

use arrayvec::ArrayVec;
use key_test::{
    KeyTest, Object, Tested, candidate_in, index_primary, key_bytes, object_in, object_place,
};
use machine::resolution::Resolved;
use region_view::View;
use std::marker::Model;
use verb_words::{Answer, Place, Verb};

/// What a resolution does next.
#[derive(Debug, Drop)]
pub(crate) enum Phase {
    /// Reads the slot.
    AtSlot,
    /// Tests the key of an object in a slot which was to be empty.
    AtKey(KeyTest),
    /// Reads the version of an object, which is to be below the one read before it.
    AtVersion { object: Object, before: Option<u64> },
    /// Reads the word that the object of this version replaced.
    AtExpected { object: Object, version: u64 },
}

/// Finding out how an interrupted slot write went: the slot is read, and where it has another word
/// of the key, its versions are walked back to the one that the write was for.
#[derive(Debug, Drop)]
pub struct Resolve {
    view: View,
    slot: u32,
    expect: u64,
    fresh: u64,
    version: u64,
    key: ArrayVec<u8, 64>,
    phase: Phase,
}

impl Model for Resolve {
    ghost use Rattle.kv_write.specs.Resolutions.{IsHeld, resolution_at};
    ghost use Rattle.machine.specs.Resolution.{Resolution};

    ghost Value = { Resolution };

    ghost view = { λ r. resolution_at r.view r.slot r.expect r.fresh r.version r.key.items r.phase };

    ghost invariant = { λ r. IsHeld
        (resolution_at r.view r.slot r.expect r.fresh r.version r.key.items r.phase) };
}

/// Finding out how the write of a slot of the key went, which was from the word `expect` to `fresh`,
/// the word of the object with the version `version`. The key has 1 to 64 bytes.
pub fn resolving(
    view: View,
    slot: u32,
    expect: u64,
    fresh: u64,
    version: u64,
    key: &[u8],
) -> Resolve
    requires slot { slot < 24 * view.shape.groups }
    requires key { IsKeyLength (length key.now) }
    ensures { result ≡ resolution_of view slot expect fresh version key.now }
{
    // The sizes are read, so that they are known to be within their limits.
    prove!(slot < 24 * view.shape.groups);
    Resolve {
        view,
        slot,
        expect,
        fresh,
        version,
        key: key_bytes(key),
        phase: Phase::AtSlot,
    }
}

/// The same for a slot that is known to have had a word of this object, which has the key: the
/// versions are walked back from the object on.
pub fn walking_back(
    view: View,
    slot: u32,
    expect: u64,
    fresh: u64,
    version: u64,
    key: &[u8],
    object: Object,
) -> Resolve
    requires slot { slot < 24 * view.shape.groups }
    requires key { IsKeyLength (length key.now) }
    requires object { IsObject view.shape object }
    ensures { result ≡ version_walk_of view slot expect fresh version key.now object }
{
    // The sizes are read, so that they are known to be within their limits.
    prove!(slot < 24 * view.shape.groups);
    Resolve {
        view,
        slot,
        expect,
        fresh,
        version,
        key: key_bytes(key),
        phase: Phase::AtVersion {
            object,
            before: None,
        },
    }
}

impl Resolve {
    /// The verb that is due.
    pub fn next(&self) -> Verb
        ensures verb { result ≡ next self.now }
        ensures inside { IsInPool self.now.view.shape (place_of result) }
    {
        match &self.phase {
            Phase::AtSlot => Verb::Read(Place {
                node: index_primary(&self.view),
                at: self.slot,
            }),
            Phase::AtKey(test) => test.next(),
            Phase::AtVersion { object, .. } => Verb::Read(word_place(&self.view, *object, 2)),
            Phase::AtExpected { object, .. } => Verb::Read(word_place(&self.view, *object, 3)),
        }
    }

    /// Takes the answer to the verb that was due, and tells how the write went, once that is known.
    pub fn after(&mut self, answer: Answer) -> Resolved
        ensures state { self.new ≡ (turn self.old answer).state }
        ensures told { result ≡ (turn self.old answer).told }
        ensures still { (result ≡ Still) ↔ ((found : ℕ) × (answer ≡ Word found)
            × IsStill self.old.phase self.old found) }
        ensures won { (result ≡ Won) ↔ ((found : ℕ) × (answer ≡ Word found)
            × IsWon self.old.phase self.old found) }
        ensures beaten { (result ≡ Beaten) ↔ ((found : ℕ) × (answer ≡ Word found)
            × IsBeaten self.old.phase self.old found) }
        ensures other_key { (result ≡ OtherKey) ↔ ((found : ℕ) × (answer ≡ Word found)
            × IsOther self.old.phase self.old found) }
        ensures refused { (node : ℕ) → (result ≡ Refused node)
            ↔ ((answer ≡ Lost) × (node ≡ (place_of (next self.old)).node)) }
    {
        match answer {
            Answer::Word(found) => self.take(found),
            Answer::Done => Resolved::Going,
            Answer::Lost => Resolved::Refused(self.next().place().node),
        }
    }

    fn take(&mut self, found: u64) -> Resolved
        ensures state { self.new ≡ (turn_at self.old.phase self.old (Word found)).state }
        ensures told { result ≡ (turn_at self.old.phase self.old (Word found)).told }
    {
        match &mut self.phase {
            Phase::AtSlot => self.take_slot(found),
            Phase::AtKey(test) => match test.after(Answer::Word(found)) {
                Tested::Going => Resolved::Going,
                Tested::Same { .. } => {
                    let object = test.object();
                    self.phase = Phase::AtVersion {
                        object,
                        before: None,
                    };
                    Resolved::Going
                }
                Tested::Other => Resolved::OtherKey,
                Tested::Refused(node) => Resolved::Refused(node),
            },
            Phase::AtVersion { object, before } => {
                let (object, before) = (*object, *before);
                self.take_version(object, before, found)
            }
            Phase::AtExpected { version, .. } => {
                let version = *version;
                self.take_expected(version, found)
            }
        }
    }

    fn take_slot(&mut self, found: u64) -> Resolved
        ensures state { self.new ≡ (on_slot self.old found).state }
        ensures told { result ≡ (on_slot self.old found).told }
    {
        if found == self.expect {
            return Resolved::Still;
        }
        if found == self.fresh {
            return Resolved::Won;
        }
        if self.expect == 0 {
            return self.test(found);
        }
        self.walk_to(found, None)
    }

    // Goes on with the key of the object that a word of the slot names.
    fn test(&mut self, word: u64) -> Resolved
        ensures state { self.new ≡ (tests self.old word).state }
        ensures told { result ≡ (tests self.old word).told }
    {
        let Some(object) = candidate_in(&self.view.shape, self.key.as_slice(), word) else {
            return Resolved::OtherKey;
        };
        self.phase = Phase::AtKey(KeyTest::new(
            self.view,
            self.key.as_slice(),
            object.pointer,
            object.class,
        ));
        Resolved::Going
    }

    // Goes on with the version of the object that a word names.
    fn walk_to(&mut self, word: u64, before: Option<u64>) -> Resolved
        ensures state { self.new ≡ (walks_to self.old word before).state }
        ensures told { result ≡ (walks_to self.old word before).told }
    {
        let Some(object) = object_in(&self.view.shape, word) else {
            return Resolved::Beaten;
        };
        self.phase = Phase::AtVersion { object, before };
        Resolved::Going
    }

    fn take_version(&mut self, object: Object, before: Option<u64>, found: u64) -> Resolved
        requires { IsObject self.old.view.shape object }
        ensures state { self.new ≡ (on_version self.old object before found).state }
        ensures told { result ≡ (on_version self.old object before found).told }
    {
        let falls = match before {
            Some(last) => found < last,
            None => true,
        };
        if !falls || found <= self.version {
            return Resolved::Beaten;
        }
        self.phase = Phase::AtExpected {
            object,
            version: found,
        };
        Resolved::Going
    }

    fn take_expected(&mut self, version: u64, found: u64) -> Resolved
        ensures state { self.new ≡ (on_expected self.old version found).state }
        ensures told { result ≡ (on_expected self.old version found).told }
    {
        if found == self.fresh {
            return Resolved::Won;
        }
        self.walk_to(found, Some(version))
    }
}

// A word of an object on its primary.
fn word_place(view: &View, object: Object, word: u32) -> Place
    requires object { IsObject view.now.shape object }
    requires word { word < 8 }
    ensures { result ≡ primary_place view.now (object_word object.pointer word) }
{
    let Place { node, at } = object_place(view, object.pointer);
    Place {
        node,
        at: at + word,
    }
}
