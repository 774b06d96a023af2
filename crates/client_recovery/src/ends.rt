ghost use Rattle.std.specs.Prelude.{◌≡◌, ◌+◌, ◌<◌, ◌≤◌, ◌++◌, [], ◌∷◌, drop, length};
ghost use Rattle.client_recovery.specs.Progresses.{recovery_at, turn_of};
ghost use Rattle.machine.specs.EpochRead.{open_mask};
ghost use Rattle.machine.specs.LinkWalk.{IsLast, IsReserve};
ghost use Rattle.machine.specs.Recovery.{first_reserve, linked_by, on_begin, on_epoch, reads_object, restocks_from, walks_next};
ghost use Rattle.machine.specs.RecoveryStage.{AreEnds, HasView};
ghost use Rattle.object_form.specs.declared.classes.TheConstants.{CLASSES};

use crate::progress::{ClassEnd, Progress, Stage};
use arrayvec::ArrayVec;
use embedded_log::Walk;
use key_test::Object;
use machine::recovery::Recovering;
use object_alloc::change;
use object_form::CLASSES;
use region_view::{Shape, bare_region, epoch_of};
use verb_words::Why;

// The begin of a recovery, and what the client had taken of each class.
impl Progress {
    pub(crate) fn on_epoch(&mut self, found: u64) -> Recovering
        ensures { turn_of self.new result ≡ on_epoch (recovery_at self.old) found }
    {
        match open_mask(&self.shape, found) {
            Some(mask) => {
                self.mask = mask;
                self.goes_to(Stage::ReadBegin)
            }
            None => Recovering::NotYet(Why::Sealed(found)),
        }
    }

    // A client between calls has blocks alone.
    #[tactic(auto, using(crate::proofs::EndLemmas::half_more))]
    pub(crate) fn on_begin(&mut self, found: u64) -> Recovering
        requires view { HasView (recovery_at self.old) }
        requires least { 1 ≤ self.old.client }
        requires most { self.old.client ≤ self.old.shape.clients }
        ensures { turn_of self.new result ≡ on_begin (recovery_at self.old) found }
    {
        if found % 2 == 0 {
            return self.first_block();
        }
        self.number = found / 2 + 1;
        self.ends = ArrayVec::new();
        self.walks_next()
    }

    // The next class is walked, and after the last the reserves are put back in stock.
    fn walks_next(&mut self) -> Recovering
        requires view { HasView (recovery_at self.old) }
        requires least { 1 ≤ self.old.client }
        requires most { self.old.client ≤ self.old.shape.clients }
        requires ends { AreEnds self.old.shape 0 self.old.ends.items }
        ensures { turn_of self.new result ≡ walks_next (recovery_at self.old) }
    {
        let class = self.ends.len() as u8;
        if class == CLASSES {
            self.restocks_from(0)
        } else {
            let walk = Walk::new(self.view(), self.client, class);
            self.goes_to(Stage::Walk(walk))
        }
    }

    // A walk has ended.
    #[tactic(auto, using(crate::proofs::EndLemmas::ends_push))]
    pub(crate) fn add_end(&mut self, end: ClassEnd) -> Recovering
        requires view { HasView (recovery_at self.old) }
        requires least { 1 ≤ self.old.client }
        requires most { self.old.client ≤ self.old.shape.clients }
        requires room { length self.old.ends.items < CLASSES }
        requires ends { AreEnds self.old.shape 0 self.old.ends.items }
        requires last { IsLast self.old.shape (length self.old.ends.items) end.last }
        requires reserve { IsReserve self.old.shape (length self.old.ends.items) end.reserve }
        ensures { turn_of self.new result
            ≡ walks_next (record (recovery_at self.old) { ends = self.old.ends.items ++ end ∷ [] }) }
    {
        self.ends.push(end);
        self.walks_next()
    }

    // The bits of the reserves of the classes from this one on are set.
    #[tactic(auto, using(crate::proofs::EndLemmas::reserve_is))]
    pub(crate) fn restocks_from(&mut self, class: u32) -> Recovering
        requires view { HasView (recovery_at self.old) }
        requires ends { AreEnds self.old.shape 0 self.old.ends.items }
        ensures { turn_of self.new result ≡ restocks_from (recovery_at self.old) class }
    {
        match first_reserve(self.ends.as_slice(), class) {
            Some(object) => {
                let set = change(self.view(), object.pointer, object.class, true, true);
                self.goes_to(Stage::Restock(object.class, set))
            }
            None => self.reads_object(),
        }
    }

    // The last call's object is read; a call that linked none has done nothing that stays.
    fn reads_object(&mut self) -> Recovering
        requires view { HasView (recovery_at self.old) }
        ensures { turn_of self.new result ≡ reads_object (recovery_at self.old) }
    {
        match linked_by(self.ends.as_slice(), self.number) {
            Some(object) => {
                self.object = object;
                self.goes_to(Stage::ReadMeta)
            }
            None => self.goes_to(Stage::WriteBegin),
        }
    }
}

// The mask that an epoch word opens.
#[tactic(auto, unfolding(machine::specs::EpochRead::open_mask), using(crate::proofs::HeldLemmas::opens, crate::proofs::HeldLemmas::sealed_opens_none, crate::proofs::HeldLemmas::bare_opens_none))]
fn open_mask(shape: &Shape, word: u64) -> Option<u8>
    ensures { result ≡ open_mask shape.now word }
{
    // The sizes are read, so that they are known to be within their limits.
    prove!(shape.groups <= 256);
    let epoch = epoch_of(word)?;
    if epoch.sealed {
        return None;
    }
    match bare_region(shape, epoch.mask) {
        Some(_) => None,
        None => Some(epoch.mask),
    }
}

// The first reserve of the classes from this one on.
#[tactic(auto, using(crate::proofs::EndLemmas::reserve_none, crate::proofs::EndLemmas::reserve_some, crate::proofs::EndLemmas::reserve_past))]
fn first_reserve(ends: &[ClassEnd], from: u32) -> Option<Object>
    requires { length ends.now ≤ CLASSES }
    ensures { result ≡ first_reserve from (drop from ends.now) }
{
    for class in from..ends.len() as u32 {
        let end = ends[class as usize];
        if let Some(pointer) = end.reserve {
            return Some(Object {
                pointer,
                class: class as u8,
            });
        }
    }
    None
}

// The object that the call of this number linked.
#[tactic(auto, using(crate::proofs::EndLemmas::last_none, crate::proofs::EndLemmas::last_other, crate::proofs::EndLemmas::last_some, crate::proofs::EndLemmas::last_past))]
fn linked_by(ends: &[ClassEnd], number: u64) -> Option<Object>
    requires { length ends.now ≤ CLASSES }
    ensures { result ≡ linked_by number 0 ends.now }
{
    for class in 0..ends.len() as u8 {
        let end = ends[class as usize];
        if let Some((pointer, call)) = end.last {
            if u64::from(call) == number {
                return Some(Object { pointer, class });
            }
        }
    }
    None
}
