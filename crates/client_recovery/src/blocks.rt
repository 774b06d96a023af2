ghost use Rattle.std.specs.Prelude.{◌≡◌, ◌+◌, ◌/◌, ◌%◌, ◌<◌, ◌≤◌, length, map};
ghost use Rattle.client_recovery.specs.Progresses.{recovery_at, turn_of};
ghost use Rattle.machine.specs.BlockRelease.{block_from, first_block, next_block, on_block, on_block_word, spreads_from};
ghost use Rattle.machine.specs.Places.{homes_of, pair_of, primary_place, replica_count, written_place};
ghost use Rattle.machine.specs.RecoveryStage.{HasBlock, HasView, view_of, word_at_block};

use crate::progress::{Progress, Stage};
use arrayvec::ArrayVec;
use block_alloc::{BlockWord, block_of};
use machine::recovery::Recovering;
use region_view::word_places;
use verb_words::Place;

// The blocks of the pool, which are read one after the other.
impl Progress {
    // The region of the block at the present position.
    fn region(&self) -> u32
        requires { HasBlock (recovery_at self.now) }
        ensures region { result ≡ 1 + self.now.position / self.now.shape.blocks }
        ensures most { result ≤ self.now.shape.regions }
    {
        1 + self.position / self.shape.blocks
    }

    // The block at the present position.
    fn block(&self) -> u32
        requires { HasBlock (recovery_at self.now) }
        ensures block { result ≡ self.now.position % self.now.shape.blocks }
        ensures below { result < self.now.shape.blocks }
    {
        self.position % self.shape.blocks
    }

    // Where the block's word stands on each replica, the primary's place first.
    fn block_places(&self) -> ArrayVec<(u32, u32), 5>
        requires { HasBlock (recovery_at self.now) }
        ensures places { result.items ≡ map (pair_of self.now.shape)
            (homes_of (view_of (recovery_at self.now)) (word_at_block (recovery_at self.now))) }
        ensures count { length result.items
            ≡ replica_count (view_of (recovery_at self.now)) (word_at_block (recovery_at self.now)) }
    {
        word_places(&self.view(), self.region(), self.block())
    }

    #[tactic(auto, using(crate::proofs::HeldLemmas::block_some))]
    pub(crate) fn block_primary(&self) -> Place
        requires { HasBlock (recovery_at self.now) }
        ensures { result ≡ primary_place (view_of (recovery_at self.now)) (word_at_block (recovery_at self.now)) }
    {
        let places = self.block_places();
        let (node, at) = places[0];
        Place { node, at }
    }

    pub(crate) fn block_backup(&self, backup: usize) -> Place
        requires block { HasBlock (recovery_at self.now) }
        requires backup { backup + 1 < replica_count (view_of (recovery_at self.now)) (word_at_block (recovery_at self.now)) }
        ensures { result ≡ written_place (view_of (recovery_at self.now)) (word_at_block (recovery_at self.now)) backup }
    {
        let places = self.block_places();
        let (node, at) = places[backup + 1];
        Place { node, at }
    }

    // The block at the position is read; after the last the client is recovered.
    fn block_from(&mut self, position: u32) -> Recovering
        requires { HasView (recovery_at self.old) }
        ensures { turn_of self.new result ≡ block_from (recovery_at self.old) position }
    {
        if position < self.shape.regions * self.shape.blocks {
            self.position = position;
            self.goes_to(Stage::ReadBlock)
        } else {
            Recovering::Recovered
        }
    }

    pub(crate) fn first_block(&mut self) -> Recovering
        requires { HasView (recovery_at self.old) }
        ensures { turn_of self.new result ≡ first_block (recovery_at self.old) }
    {
        self.block_from(0)
    }

    pub(crate) fn next_block(&mut self) -> Recovering
        requires { HasBlock (recovery_at self.old) }
        ensures { turn_of self.new result ≡ next_block (recovery_at self.old) }
    {
        self.block_from(self.position + 1)
    }

    // The backups from this one on get the released word, and then the primary.
    pub(crate) fn spreads_from(&mut self, class: u8, backup: usize) -> Recovering
        requires block { HasBlock (recovery_at self.old) }
        requires few { backup ≤ 5 }
        ensures { turn_of self.new result ≡ spreads_from (recovery_at self.old) class backup }
    {
        if backup + 1 < self.block_places().len() {
            self.goes_to(Stage::Spread { class, backup })
        } else {
            self.goes_to(Stage::Release { class })
        }
    }

    // A block that the client owns is released, and any other is passed over.
    fn on_block(&mut self, block: Option<BlockWord>) -> Recovering
        requires { HasBlock (recovery_at self.old) }
        ensures { turn_of self.new result ≡ on_block (recovery_at self.old) block }
    {
        match block {
            Some(BlockWord::Owned { client, class }) => {
                if client == self.client {
                    self.spreads_from(class, 0)
                } else {
                    self.next_block()
                }
            }
            Some(BlockWord::Unused) => self.next_block(),
            Some(BlockWord::Released { class: _ }) => self.next_block(),
            None => self.next_block(),
        }
    }

    pub(crate) fn on_block_word(&mut self, found: u64) -> Recovering
        requires { HasBlock (recovery_at self.old) }
        ensures { turn_of self.new result ≡ on_block_word (recovery_at self.old) found }
    {
        self.on_block(block_of(found))
    }
}
