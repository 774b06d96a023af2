ghost use Rattle.std.specs.Prelude.{◌≡◌, ◌≢◌, ◌*◌, ◌<◌, true};
ghost use Rattle.client_recovery.specs.Progresses.{recovery_at, turn_of};
ghost use Rattle.machine.specs.Recovery.{finds, fresh_of, is_beaten, is_won, on_version, walks_back, writes};
ghost use Rattle.machine.specs.BitChange.{bit_change_of};
ghost use Rattle.machine.specs.BlockRelease.{goes_to};
ghost use Rattle.machine.specs.RecoveryStage.{Free, HasKey, HasObject, HasView, view_of};

use crate::progress::{Progress, Stage};
use key_test::object_in;
use kv_find::Find;
use kv_write::{erase, walking_back};
use machine::recovery::Recovering;
use object_alloc::change;
use snapshot_write::SlotWrite;

// How the last call stood, and how it ends.
impl Progress {
    /// The key is looked for, from the first slot of its order on.
    pub(crate) fn finds(&mut self) -> Recovering
        requires { HasKey (recovery_at self.old) }
        ensures { turn_of self.new result ≡ finds (recovery_at self.old) }
    {
        let find = Find::new(self.view(), self.key.as_slice(), 0);
        self.goes_to(Stage::Find(find))
    }

    /// The slot is written, where it has this word.
    #[tactic(auto, using(crate::proofs::HeldLemmas::fresh_some))]
    pub(crate) fn writes(&mut self, slot: u32, word: u64) -> Recovering
        requires key { HasKey (recovery_at self.old) }
        requires slot { slot < 24 * self.old.shape.groups }
        requires other { word ≢ fresh_of (recovery_at self.old) }
        ensures { turn_of self.new result ≡ writes (recovery_at self.old) slot word }
    {
        let write = SlotWrite::new(self.view(), slot, word, self.fresh());
        self.goes_to(Stage::WriteSlot(write))
    }

    // The versions are walked back from the object that the slot's word names.
    fn walks_back(&mut self, slot: u32, word: u64) -> Recovering
        requires key { HasKey (recovery_at self.old) }
        requires slot { slot < 24 * self.old.shape.groups }
        ensures { turn_of self.new result ≡ walks_back (recovery_at self.old) slot word }
    {
        let Some(object) = object_in(&self.shape, word) else {
            return self.is_beaten();
        };
        let walk = walking_back(
            self.view(),
            slot,
            word,
            self.fresh(),
            self.version,
            self.key.as_slice(),
            object,
        );
        self.goes_to(Stage::Resolve(walk))
    }

    // The slot names the call's object; or one of the version before, which the call was to replace;
    // or another.
    pub(crate) fn on_version(&mut self, slot: u32, word: u64, found: u64) -> Recovering
        requires key { HasKey (recovery_at self.old) }
        requires slot { slot < 24 * self.old.shape.groups }
        ensures { turn_of self.new result ≡ on_version (recovery_at self.old) slot word found }
    {
        if word == self.fresh() {
            self.is_won(self.expect)
        } else if found.wrapping_add(1) == self.version {
            self.writes(slot, word)
        } else {
            self.walks_back(slot, word)
        }
    }

    /// The call has replaced this word: where it names an object, that object's bit is set.
    pub(crate) fn is_won(&mut self, replaced: u64) -> Recovering
        requires { HasView (recovery_at self.old) }
        ensures { turn_of self.new result ≡ is_won (recovery_at self.old) replaced }
    {
        self.won = true;
        let Some(object) = object_in(&self.shape, replaced) else {
            return self.goes_to(Stage::WriteBegin);
        };
        let set = change(self.view(), object.pointer, object.class, true, true);
        self.goes_to(Stage::Free(set))
    }

    /// The call has replaced nothing: the object's version is written 0, so that no replica shows it
    /// later.
    pub(crate) fn is_beaten(&mut self) -> Recovering
        requires { HasObject (recovery_at self.old) }
        ensures { turn_of self.new result ≡ is_beaten (recovery_at self.old) }
    {
        let write = erase(self.view(), self.object.pointer);
        self.goes_to(Stage::Erase(write))
    }

    /// The object's own bit is set.
    pub(crate) fn frees(&mut self) -> Recovering
        requires { HasObject (recovery_at self.old) }
        ensures { turn_of self.new result ≡ goes_to (recovery_at self.old)
            (Free (bit_change_of (view_of (recovery_at self.old)) self.old.object true true)) }
    {
        let set = change(
            self.view(),
            self.object.pointer,
            self.object.class,
            true,
            true,
        );
        self.goes_to(Stage::Free(set))
    }
}
