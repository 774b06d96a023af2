ghost use Rattle.std.specs.Prelude.{◌≡◌, ◌<◌, length, unwrap_or};
ghost use Rattle.machine.specs.Choosing.{block_at, next, own_at, own_word, region_at, turn, turn_at, word_at_block};
ghost use Rattle.machine.specs.Places.{control, primary_place, replica_count, written_place};
ghost use Rattle.machine.specs.Stock.{class_stock, view_of};
ghost use Rattle.object_alloc.specs.Choosers.{IsFit, IsInside, phase_of, rooms_of, stock_of, turn_of};
ghost use Rattle.object_alloc.specs.Held.{IsHeld, IsRoomy};
ghost use Rattle.object_alloc.specs.Parts.{word_of};
ghost use Rattle.region_view.specs.Control.{Begin, Head};
ghost use Rattle.region_view.specs.Layout.{Bitmap};
ghost use Rattle.region_view.specs.Placed.{LeavesNoneBare};
ghost use Rattle.reuse_epoch.specs.Awaited.{IsClient};
ghost use Rattle.verb_words.specs.declared.verbs.Answer.TheVariants.{Done, Word};

use crate::choosers::{Chooser, Phase};
use crate::places::{Part, primary_place, written_place};
use block_alloc::{BlockWord, block_word};
use machine::choosing::Took;
use region_view::{begin_at, head_at};
use verb_words::{Answer, Place, Verb};

// The verbs of a choosing.
impl Chooser {
    /// The verb that is due.
    pub(crate) fn next(&self) -> Verb
        requires held { IsHeld (stock_of self.now) }
        ensures { result ≡ next (stock_of self.now) }
    {
        match self.phase {
            Phase::Rest => Verb::Read(Place { node: 0, at: 0 }),
            Phase::AskFirst => Verb::Read(begin_place(self.first_awaited().0)),
            Phase::Scan(i) => Verb::Read(self.own_bitmap(i)),
            Phase::Ask(client) => Verb::Read(begin_place(client)),
            Phase::ReadBlock => Verb::Read(self.primary(Part::Owner)),
            Phase::Claim(word) => Verb::Swap {
                place: self.primary(Part::Owner),
                expect: word,
                fresh: self.own_word(),
            },
            Phase::Spread { unused: _, backup } => Verb::Write(
                self.backup(backup),
                self.own_word(),
            ),
            Phase::ReadBitmap => Verb::Read(self.primary(Part::Bitmap)),
            Phase::WriteHead => Verb::Write(self.head(), self.first_reserve()),
        }
    }

    // A word of the block at the position, on the primary.
    #[tactic(auto, using(crate::proofs::PlaceLemmas::some_replica))]
    fn primary(&self, part: Part) -> Place
        requires fit { IsFit (stock_of self.now) }
        requires inside { IsInside (stock_of self.now) }
        requires view { LeavesNoneBare self.now.shape self.now.mask }
        ensures { result ≡ primary_place (view_of (stock_of self.now))
            (word_of part (region_at (stock_of self.now)) (block_at (stock_of self.now))) }
    {
        primary_place(&self.view(), part, self.region(), self.block())
    }

    // The word of the block at the position, on a backup.
    fn backup(&self, backup: usize) -> Place
        requires fit { IsFit (stock_of self.now) }
        requires inside { IsInside (stock_of self.now) }
        requires view { LeavesNoneBare self.now.shape self.now.mask }
        requires backup { backup < replica_count (view_of (stock_of self.now)) (word_at_block (stock_of self.now)) }
        ensures { result ≡ written_place (view_of (stock_of self.now)) (word_at_block (stock_of self.now)) backup }
    {
        written_place(
            &self.view(),
            Part::Owner,
            self.region(),
            self.block(),
            backup,
        )
    }

    // The bitmap of an own block of the class, on the primary.
    #[tactic(auto, using(crate::proofs::StockLemmas::own_within))]
    fn own_bitmap(&self, i: usize) -> Place
        requires held { IsHeld (stock_of self.now) }
        requires view { LeavesNoneBare self.now.shape self.now.mask }
        requires i { i < length (class_stock (stock_of self.now)).own }
        ensures { result ≡ primary_place (view_of (stock_of self.now))
            (Bitmap (own_at (stock_of self.now) i).region (own_at (stock_of self.now) i).block) }
    {
        let own = self.of_class().own[i];
        primary_place(
            &self.view(),
            Part::Bitmap,
            u32::from(own.region),
            u32::from(own.block),
        )
    }

    // The word of a block that the client owns for the class.
    fn own_word(&self) -> u64
        ensures { result ≡ own_word (stock_of self.now) }
    {
        block_word(BlockWord::Owned {
            client: self.client,
            class: self.class,
        })
    }

    fn head(&self) -> Place
        requires held { IsHeld (stock_of self.now) }
        ensures { result ≡ control (Head self.now.client self.now.class) }
    {
        Place {
            node: 0,
            at: head_at(self.client, self.class),
        }
    }

    fn first_reserve(&self) -> u64
        requires fit { IsFit (stock_of self.now) }
        ensures { result ≡ unwrap_or (class_stock (stock_of self.now)).reserve 0 }
    {
        match self.of_class().reserve {
            Some(pointer) => u64::from(pointer),
            None => 0,
        }
    }
}

// The begin word of a client.
fn begin_place(client: u32) -> Place
    requires { IsClient client }
    ensures { result ≡ control (Begin client) }
{
    Place {
        node: 0,
        at: begin_at(client),
    }
}

// The answers to them.
impl Chooser {
    /// Takes the answer to the verb that was due.
    #[tactic(auto, using(crate::proofs::TurnLemmas::turn_lost))]
    pub(crate) fn after(&mut self, answer: Answer) -> Took
        requires held { IsHeld (stock_of self.old) }
        requires roomy { IsRoomy self.old }
        ensures turn { turn_of self.new result ≡ turn (stock_of self.old) answer }
        ensures rooms { rooms_of self.new ≡ rooms_of self.old }
    {
        match answer {
            Answer::Word(found) => self.after_word(found),
            Answer::Done => self.after_done(),
            Answer::Lost => Took::Refused(self.next().place().node),
        }
    }

    #[tactic(auto, using(crate::proofs::TurnLemmas::has_room))]
    fn after_word(&mut self, found: u64) -> Took
        requires held { IsHeld (stock_of self.old) }
        requires roomy { IsRoomy self.old }
        ensures turn { turn_of self.new result
            ≡ turn_at (phase_of self.old.phase) (stock_of self.old) (Word found) }
        ensures rooms { rooms_of self.new ≡ rooms_of self.old }
    {
        match self.phase {
            Phase::AskFirst => self.on_first(found),
            Phase::Scan(i) => self.on_bitmap(i, found),
            Phase::Ask(client) => self.on_begin_word(client, found),
            Phase::ReadBlock => self.on_block_word(found),
            Phase::Claim(word) => {
                if found == word {
                    self.spreads_from(word == 0, 0)
                } else {
                    self.next_block()
                }
            }
            Phase::ReadBitmap => self.on_used_block(found),
            Phase::Rest => Took::Going,
            Phase::Spread {
                unused: _,
                backup: _,
            } => Took::Going,
            Phase::WriteHead => Took::Going,
        }
    }

    #[tactic(auto, using(crate::proofs::TurnLemmas::has_room, crate::proofs::TurnLemmas::few_backups))]
    fn after_done(&mut self) -> Took
        requires held { IsHeld (stock_of self.old) }
        requires roomy { IsRoomy self.old }
        ensures turn { turn_of self.new result
            ≡ turn_at (phase_of self.old.phase) (stock_of self.old) Done }
        ensures rooms { rooms_of self.new ≡ rooms_of self.old }
    {
        match self.phase {
            Phase::Spread { unused, backup } => self.spreads_from(unused, backup + 1),
            Phase::WriteHead => self.begins(self.mask, self.class),
            Phase::Rest => Took::Going,
            Phase::AskFirst => Took::Going,
            Phase::Scan(_) => Took::Going,
            Phase::Ask(_) => Took::Going,
            Phase::ReadBlock => Took::Going,
            Phase::Claim(_) => Took::Going,
            Phase::ReadBitmap => Took::Going,
        }
    }
}
