ghost use Rattle.std.specs.Prelude.{◌≡◌};
ghost use Rattle.kv_ops.specs.Callers.{client_of, turn_of};
ghost use Rattle.kv_ops.specs.Stages.{kept_as};
ghost use Rattle.kv_ops.specs.Standings.{IsReadyUnder, KeepsMore};
ghost use Rattle.machine.specs.Client.{first_turn, frees_again, goes_to, on_epoch, on_lost, on_paused, resumes, resumes_with, view_of};
ghost use Rattle.machine.specs.EpochRead.{IsView, open_mask};
ghost use Rattle.machine.specs.Stage.{Pause};
ghost use Rattle.machine.specs.Standing.{KeepsFor};

use crate::callers::Caller;
use crate::calls::Operation;
use crate::stages::{Kept, Stage};
use key_test::object_in;
use machine::client_call::Step;
use object_alloc::change;
use region_view::{Shape, epoch_of, view_of};
use verb_words::Why;

/// The mask that an epoch word opens: none where it is sealed, or says no epoch, or leaves a region
/// without a replica.
#[tactic(auto, using(crate::proofs::ViewLemmas::opens_none, crate::proofs::ViewLemmas::opens_none_sealed, crate::proofs::ViewLemmas::opens_none_bare, crate::proofs::ViewLemmas::opens_mask))]
pub(crate) fn open_mask(shape: &Shape, word: u64) -> Option<u8>
    ensures { result ≡ open_mask shape.now word }
{
    // The sizes are read, so that they are known to be within their limits.
    prove!(shape.groups <= 256);
    let epoch = epoch_of(word)?;
    if epoch.sealed {
        return None;
    }
    match view_of(*shape, epoch.mask) {
        Some(_) => Some(epoch.mask),
        None => None,
    }
}

// What a call makes of the epoch word.
impl Caller {
    /// The word was read for the first time in the call.
    pub(crate) fn on_epoch(&mut self, found: u64) -> Step
        requires ready { IsReadyUnder (client_of self.old) }
        ensures { turn_of self.new result ≡ on_epoch (client_of self.old) found }
    {
        match open_mask(&self.shape, found) {
            Some(mask) => self.resumes_with(Kept::Start, mask),
            None => self.pauses(found, Kept::Start),
        }
    }

    /// It was read after this one was written as the pause word.
    pub(crate) fn on_paused(&mut self, word: u64, kept: Kept, found: u64) -> Step
        requires ready { IsReadyUnder (client_of self.old) }
        requires keeps { KeepsFor (kept_as kept) (client_of self.old) }
        requires more { KeepsMore (kept_as kept) (client_of self.old) }
        ensures { turn_of self.new result ≡ on_paused (client_of self.old) word (kept_as kept) found }
    {
        match open_mask(&self.shape, found) {
            Some(mask) => self.resumes_with(kept, mask),
            None if found == word => {
                self.stage = Stage::Paused { word, kept };
                Step::NotYet(Why::Sealed(found))
            }
            None => self.pauses(found, kept),
        }
    }

    /// It was read after the node was found lost.
    pub(crate) fn on_lost(&mut self, node: u32, kept: Kept, found: u64) -> Step
        ensures { turn_of self.new result ≡ on_lost (client_of self.old) node (kept_as kept) found }
    {
        match open_mask(&self.shape, found) {
            Some(_) => {
                self.stage = Stage::LostNode { node, kept };
                Step::NotYet(Why::Lost(node))
            }
            None => self.pauses(found, kept),
        }
    }

    pub(crate) fn pauses(&mut self, word: u64, kept: Kept) -> Step
        ensures { turn_of self.new result ≡ goes_to (client_of self.old) (Pause word (kept_as kept)) }
    {
        self.stage = Stage::Pause { word, kept };
        Step::Going
    }

    fn resumes_with(&mut self, kept: Kept, mask: u8) -> Step
        requires ready { IsReadyUnder (client_of self.old) }
        requires view { IsView (view_of (record (client_of self.old) { mask = mask })) }
        requires keeps { KeepsFor (kept_as kept) (client_of self.old) }
        requires more { KeepsMore (kept_as kept) (client_of self.old) }
        ensures { turn_of self.new result ≡ resumes_with (kept_as kept) (client_of self.old) mask }
    {
        self.mask = mask;
        self.resumes(kept)
    }

    // Goes on under the view that is held now.
    fn resumes(&mut self, kept: Kept) -> Step
        requires ready { IsReadyUnder (client_of self.old) }
        requires view { IsView (view_of (client_of self.old)) }
        requires keeps { KeepsFor (kept_as kept) (client_of self.old) }
        requires more { KeepsMore (kept_as kept) (client_of self.old) }
        ensures { turn_of self.new result ≡ resumes (kept_as kept) (client_of self.old) }
    {
        match kept {
            Kept::Start => self.first_turn(),
            Kept::Seek => self.seeks(),
            Kept::Choose => self.chooses(),
            Kept::Clear => {
                self.stage = Stage::Clear(change(
                    self.view(),
                    self.object,
                    self.class,
                    false,
                    true,
                ));
                Step::Going
            }
            Kept::Body => self.writes_body(),
            Kept::Find => self.finds(),
            Kept::Resolve => self.resolves(),
            Kept::Free => self.frees_again(),
            Kept::Return => {
                self.stage = Stage::Return(change(
                    self.view(),
                    self.object,
                    self.class,
                    true,
                    true,
                ));
                Step::Going
            }
        }
    }

    fn first_turn(&mut self) -> Step
        requires ready { IsReadyUnder (client_of self.old) }
        requires view { IsView (view_of (client_of self.old)) }
        ensures { turn_of self.new result ≡ first_turn (client_of self.old).operation (client_of self.old) }
    {
        match self.operation {
            Operation::Put => self.chooses_for(),
            Operation::Get => self.seeks(),
            Operation::Delete => self.seeks(),
        }
    }

    // Where there is no object that was replaced, its bit is set already.
    fn frees_again(&mut self) -> Step
        requires view { IsView (view_of (client_of self.old)) }
        ensures { turn_of self.new result ≡ frees_again (client_of self.old) }
    {
        self.stage = match object_in(&self.shape, self.expect) {
            Some(object) => Stage::Free(change(
                self.view(),
                object.pointer,
                object.class,
                true,
                true,
            )),
            None => Stage::End,
        };
        Step::Going
    }
}
