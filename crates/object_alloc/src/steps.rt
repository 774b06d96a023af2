ghost use Rattle.std.specs.Prelude.{◌≡◌, ◌+◌, ◌^◌, ◌<◌, ◌≤◌, [], All, bit_and, false, length};
ghost use Rattle.machine.specs.Choosing.{asked, asks_after, asks_from, at_block, begins, block_at, chooses, goes_to, looks, next_block, not_awaited, on_block, on_block_word, on_first, on_scan, owns, region_at, rests, ripens, scanned_all, spreads_from, takes, with_awaited, with_block, with_scanned};
ghost use Rattle.machine.specs.Stock.{class_stock, is_own, object_bits};
ghost use Rattle.object_alloc.specs.Choosers.{HasRoom, IsFit, IsInside, lets_in, phase_of, rooms_of, stock_of, turn_of};
ghost use Rattle.region_view.specs.Placed.{LeavesNoneBare};
ghost use Rattle.reuse_epoch.specs.Awaited.{IsClient, client_of, noted};

use crate::choosers::{Chooser, Phase};
use crate::places::{Part, replica_count};
use block_alloc::{BlockWord, all_bits, block_of};
use machine::choosing::Took;

// The steps of a choosing. Each ends with the next phase, or with what the choosing tells.
impl Chooser {
    fn goes_to(&mut self, phase: Phase) -> Took
        ensures turn { turn_of self.new result ≡ goes_to (stock_of self.old) (phase_of phase) }
        ensures rooms { rooms_of self.new ≡ rooms_of self.old }
    {
        self.phase = phase;
        Took::Going
    }

    fn rests(&mut self, told: Took) -> Took
        ensures turn { turn_of self.new result ≡ rests (stock_of self.old) told }
        ensures rooms { rooms_of self.new ≡ rooms_of self.old }
    {
        self.phase = Phase::Rest;
        told
    }

    /// A new choosing.
    pub(crate) fn begins(&mut self, mask: u8, class: u8) -> Took
        requires fit { IsFit (record (stock_of self.old) { class = class }) }
        ensures turn { turn_of self.new result ≡ begins (stock_of self.old) mask class }
        ensures rooms { rooms_of self.new ≡ rooms_of self.old }
    {
        self.mask = mask;
        self.class = class;
        self.scanned = false;
        self.position = 0;
        self.chooses()
    }

    // What the choosing does next.
    fn chooses(&mut self) -> Took
        requires fit { IsFit (stock_of self.old) }
        ensures turn { turn_of self.new result ≡ chooses (stock_of self.old) }
        ensures rooms { rooms_of self.new ≡ rooms_of self.old }
    {
        match self.of_class().first_free(self.class) {
            Some(free) => self.takes(free),
            None => self.looks(),
        }
    }

    // A ripe object becomes the reserve where there is none, and else the reserve after it.
    fn takes(&mut self, free: u32) -> Took
        requires fit { IsFit (stock_of self.old) }
        ensures turn { turn_of self.new result ≡ takes (stock_of self.old) free }
        ensures rooms { rooms_of self.new ≡ rooms_of self.old }
    {
        match self.of_class().reserve {
            Some(reserve) => self.rests(Took::Have {
                object: reserve,
                next: free,
            }),
            None => {
                self.reserves(free);
                self.goes_to(Phase::WriteHead)
            }
        }
    }

    // No object is ripe.
    fn looks(&mut self) -> Took
        requires fit { IsFit (stock_of self.old) }
        ensures turn { turn_of self.new result ≡ looks (stock_of self.old) }
        ensures rooms { rooms_of self.new ≡ rooms_of self.old }
    {
        if !self.awaits_nobody() {
            self.goes_to(Phase::AskFirst)
        } else if !self.scanned && self.owns_any() {
            self.goes_to(Phase::Scan(0))
        } else {
            self.at_block()
        }
    }

    // The block at the position is read, or there is none and no object is left.
    fn at_block(&mut self) -> Took
        requires fit { IsFit (stock_of self.old) }
        ensures turn { turn_of self.new result ≡ at_block (stock_of self.old) }
        ensures rooms { rooms_of self.new ≡ rooms_of self.old }
    {
        if self.position < self.shape.regions * self.shape.blocks {
            return self.goes_to(Phase::ReadBlock);
        }
        let (client, begin) = self.first_awaited();
        self.rests(Took::NoSpace {
            class: self.class,
            client,
            begin,
        })
    }

    pub(crate) fn next_block(&mut self) -> Took
        requires fit { IsFit (stock_of self.old) }
        requires inside { IsInside (stock_of self.old) }
        ensures turn { turn_of self.new result ≡ next_block (stock_of self.old) }
        ensures rooms { rooms_of self.new ≡ rooms_of self.old }
    {
        self.position += 1;
        self.at_block()
    }

    fn ripens(&mut self) -> Took
        requires fit { IsFit (stock_of self.old) }
        ensures turn { turn_of self.new result ≡ ripens (stock_of self.old) }
        ensures rooms { rooms_of self.new ≡ rooms_of self.old }
    {
        self.ripen();
        self.chooses()
    }

    // No client is left to ask.
    fn asked(&mut self) -> Took
        requires fit { IsFit (stock_of self.old) }
        ensures turn { turn_of self.new result ≡ asked (stock_of self.old) }
        ensures rooms { rooms_of self.new ≡ rooms_of self.old }
    {
        if self.awaits_nobody() {
            self.ripens()
        } else {
            self.at_block()
        }
    }

    fn asks_after(&mut self, client: u32) -> Took
        requires fit { IsFit (stock_of self.old) }
        ensures turn { turn_of self.new result ≡ asks_after (stock_of self.old) client }
        ensures rooms { rooms_of self.new ≡ rooms_of self.old }
    {
        if client <= self.shape.clients {
            self.goes_to(Phase::Ask(client))
        } else {
            self.asked()
        }
    }

    // The clients from this number on are asked, but for this one.
    pub(crate) fn asks_from(&mut self, client: u32) -> Took
        requires fit { IsFit (stock_of self.old) }
        requires few { client ≤ 65 }
        ensures turn { turn_of self.new result ≡ asks_from (stock_of self.old) client }
        ensures rooms { rooms_of self.new ≡ rooms_of self.old }
    {
        if client == self.client {
            self.asks_after(client + 1)
        } else {
            self.asks_after(client)
        }
    }

    // The client's begin word was read.
    pub(crate) fn on_begin_word(&mut self, client: u32, found: u64) -> Took
        requires fit { IsFit (stock_of self.old) }
        requires client { IsClient client }
        requires last { All (λ one. client_of one < client) (class_stock (stock_of self.old)).awaited }
        ensures turn { turn_of self.new result ≡ asks_from
            (with_awaited (stock_of self.old) (noted (class_stock (stock_of self.old)).awaited client found))
            (client + 1) }
        ensures rooms { rooms_of self.new ≡ rooms_of self.old }
    {
        self.note(client, found);
        self.asks_from(client + 1)
    }

    fn not_awaited(&mut self) -> Took
        requires fit { IsFit (stock_of self.old) }
        ensures turn { turn_of self.new result ≡ not_awaited (stock_of self.old) }
        ensures rooms { rooms_of self.new ≡ rooms_of self.old }
    {
        if self.awaits_nobody() {
            self.ripens()
        } else {
            self.goes_to(Phase::AskFirst)
        }
    }

    // The first client that is awaited was read at this begin word.
    pub(crate) fn on_first(&mut self, found: u64) -> Took
        requires fit { IsFit (stock_of self.old) }
        ensures turn { turn_of self.new result ≡ on_first (stock_of self.old) found }
        ensures rooms { rooms_of self.new ≡ rooms_of self.old }
    {
        let (client, begin) = self.first_awaited();
        if found == begin {
            self.at_block()
        } else {
            self.see(client, found);
            self.not_awaited()
        }
    }

    fn scanned_all(&mut self) -> Took
        requires fit { IsFit (stock_of self.old) }
        ensures turn { turn_of self.new result ≡ scanned_all (stock_of self.old) }
        ensures rooms { rooms_of self.new ≡ rooms_of self.old }
    {
        if self.of_class().any_waits() {
            self.asks_from(1)
        } else {
            self.at_block()
        }
    }

    // The bitmap of this own block was read.
    pub(crate) fn on_bitmap(&mut self, i: usize, found: u64) -> Took
        requires fit { IsFit (stock_of self.old) }
        requires i { i < length (class_stock (stock_of self.old)).own }
        ensures turn { turn_of self.new result ≡ on_scan (with_scanned (stock_of self.old) i found) i }
        ensures rooms { rooms_of self.new ≡ rooms_of self.old }
    {
        let count = self.of_class().own.len();
        prove!(i < count);
        self.scan(i, found);
        self.on_scan(i)
    }

    // This own block was scanned.
    fn on_scan(&mut self, i: usize) -> Took
        requires fit { IsFit (stock_of self.old) }
        requires i { i + 1 < 2 ^ 64 }
        ensures turn { turn_of self.new result ≡ on_scan (stock_of self.old) i }
        ensures rooms { rooms_of self.new ≡ rooms_of self.old }
    {
        let count = self.of_class().own.len();
        if i + 1 < count {
            self.goes_to(Phase::Scan(i + 1))
        } else {
            self.scanned = true;
            self.scanned_all()
        }
    }

    // The block has the client's word on every replica.
    fn owns(&mut self, unused: bool) -> Took
        requires fit { IsFit (stock_of self.old) }
        requires inside { IsInside (stock_of self.old) }
        requires room { HasRoom self.old }
        ensures turn { turn_of self.new result ≡ owns (stock_of self.old) unused }
        ensures rooms { rooms_of self.new ≡ rooms_of self.old }
    {
        if unused {
            self.gain(all_bits(self.class), 0);
            self.chooses()
        } else {
            self.goes_to(Phase::ReadBitmap)
        }
    }

    // The bitmap of a block that was used before was read.
    pub(crate) fn on_used_block(&mut self, found: u64) -> Took
        requires fit { IsFit (stock_of self.old) }
        requires inside { IsInside (stock_of self.old) }
        requires room { HasRoom self.old }
        ensures turn { turn_of self.new result ≡ asks_from
            (with_awaited (with_block (stock_of self.old) 0 (bit_and found (object_bits self.old.class))) [])
            1 }
        ensures rooms { rooms_of self.new ≡ rooms_of self.old }
    {
        self.gain(0, found & all_bits(self.class));
        self.await_nobody();
        self.asks_from(1)
    }

    pub(crate) fn spreads_from(&mut self, unused: bool, backup: usize) -> Took
        requires fit { IsFit (stock_of self.old) }
        requires inside { IsInside (stock_of self.old) }
        requires view { LeavesNoneBare self.old.shape self.old.mask }
        requires room { HasRoom self.old }
        requires backup { backup ≤ 5 }
        ensures turn { turn_of self.new result ≡ spreads_from (stock_of self.old) unused backup }
        ensures rooms { rooms_of self.new ≡ rooms_of self.old }
    {
        let view = self.view();
        let count = replica_count(&view, Part::Owner, self.region(), self.block());
        if backup + 1 < count {
            self.goes_to(Phase::Spread { unused, backup })
        } else {
            self.owns(unused)
        }
    }

    // What a block's word lets the client do.
    fn on_block(&mut self, found: u64, word: Option<BlockWord>) -> Took
        requires fit { IsFit (stock_of self.old) }
        requires inside { IsInside (stock_of self.old) }
        requires view { LeavesNoneBare self.old.shape self.old.mask }
        requires room { HasRoom self.old }
        ensures turn { turn_of self.new result ≡ on_block (stock_of self.old) found word }
        ensures rooms { rooms_of self.new ≡ rooms_of self.old }
    {
        match word {
            None => self.next_block(),
            Some(BlockWord::Unused) => self.goes_to(Phase::Claim(found)),
            Some(BlockWord::Released { class }) => {
                if class == self.class {
                    self.goes_to(Phase::Claim(found))
                } else {
                    self.next_block()
                }
            }
            Some(BlockWord::Owned { client, class }) => {
                if client == self.client && class == self.class {
                    self.spreads_from(false, 0)
                } else {
                    self.next_block()
                }
            }
        }
    }

    // Whether a block's word lets the client have the block, where it has not gained it already.
    fn lets_in(&self, word: Option<BlockWord>) -> bool
        ensures { result ≡ lets_in (stock_of self.now) word }
    {
        match word {
            None => false,
            Some(BlockWord::Unused) => true,
            Some(BlockWord::Released { class: released }) => released == self.class,
            Some(
                BlockWord::Owned {
                    client: owner,
                    class: owned,
                },
            ) => owner == self.client && owned == self.class,
        }
    }

    #[tactic(auto, using(crate::proofs::TurnLemmas::passed_over))]
    pub(crate) fn on_block_word(&mut self, found: u64) -> Took
        requires fit { IsFit (stock_of self.old) }
        requires inside { IsInside (stock_of self.old) }
        requires view { LeavesNoneBare self.old.shape self.old.mask }
        requires room { is_own (stock_of self.old) (region_at (stock_of self.old)) (block_at (stock_of self.old)) ≡ false
            → HasRoom self.old }
        ensures turn { turn_of self.new result ≡ on_block_word (stock_of self.old) found }
        ensures rooms { rooms_of self.new ≡ rooms_of self.old }
    {
        // The own blocks are many, so they are gone through only where the word lets the client in.
        let word = block_of(found);
        if !self.lets_in(word) || self.is_own(self.region(), self.block()) {
            self.next_block()
        } else {
            self.on_block(found, word)
        }
    }
}
