ghost use Rattle.std.specs.Prelude.{◌≡◌, ◌≢◌, ◌↔◌, ℕ, ◌%◌, false};
ghost use Rattle.machine.specs.Places.{IsInPool};
ghost use Rattle.machine.specs.Settling.{Open, ReadPause, next, opened_word, place_of_pair, settling_of, turn};
ghost use Rattle.machine.specs.declared.settling.Settled.TheVariants.{NotYet, Opened};
ghost use Rattle.node_recovery.specs.Settlings.{is_opening};
ghost use Rattle.region_view.specs.Placed.{in_mask};
ghost use Rattle.verb_words.specs.Verb.{place_of};
ghost use Rattle.verb_words.specs.declared.verbs.Answer.TheVariants.{Done, Word};

use arrayvec::ArrayVec;
use machine::settling::Settled;
use node_join::Targets;
use region_view::{Epoch, Shape, begin_at, epoch_word, pause_at};
use std::marker::Model;
use verb_words::{Answer, Place, Verb};

/// What a settling does next.
#[derive(Clone, Copy, Debug)]
pub(crate) enum Phase {
    /// Reads the epoch word.
    ReadEpoch,
    /// Writes it sealed.
    Seal,
    /// Reads the begin word of this client.
    ReadBegin(u32),
    /// Reads the pause word of this client, whose begin word was read inside a call.
    ReadPause { client: u32, begin: u64 },
    /// Reads the status word of this node; of those before it, these are live.
    ReadStatus { node: u32, live: u8 },
    /// Reads the present word on a source.
    ReadWord,
    /// Writes it to this one of its places.
    WriteWord { word: u64, target: usize },
    /// Writes the next view's epoch word.
    Open,
}

/// The settling of a pool after a node was lost or came back.
#[derive(Debug, Drop)]
pub struct Settling {
    pub(crate) shape: Shape,
    /// Bit c - 1 is set where client c was stopped when the settling was chosen.
    pub(crate) stopped: u64,
    /// The sealed epoch word.
    pub(crate) sealed: u64,
    /// The nodes of the old mask that are live.
    pub(crate) sources: u8,
    /// The mask of the next view.
    pub(crate) mask: u8,
    /// The present word's region and its offset there.
    pub(crate) region: u32,
    pub(crate) offset: u32,
    /// Where the present word is read and written.
    pub(crate) targets: Targets,
    pub(crate) phase: Phase,
}

impl Model for Settling {
    ghost use Rattle.machine.specs.Settling.{Settling};
    ghost use Rattle.node_recovery.specs.Settlings.{IsHeld, settling_at};

    ghost Value = { Settling };

    ghost view = { λ s. settling_at s.shape s.stopped s.sealed s.sources s.mask s.region s.offset
        s.phase };

    ghost invariant = { λ s. IsHeld (settling_at s.shape s.stopped s.sealed s.sources s.mask
        s.region s.offset s.phase) s.targets.from s.targets.to.items };
}

impl Settling {
    /// A settling that waits for no client of these: bit c - 1 says that client c is stopped.
    pub fn new(shape: Shape, stopped: u64) -> Settling
        ensures { result ≡ settling_of shape stopped }
    {
        // The sizes are read, so that they are known to be within their limits.
        prove!(shape.nodes <= 8);
        Settling {
            shape,
            stopped,
            sealed: 0,
            sources: 0,
            mask: 0,
            region: 0,
            offset: 0,
            targets: Targets {
                from: (0, 0),
                to: ArrayVec::new(),
            },
            phase: Phase::ReadEpoch,
        }
    }

    /// The clients that were stopped when the settling was chosen: bit c - 1 for client c.
    pub fn stopped(&self) -> u64
        ensures { result ≡ self.now.stopped }
    {
        self.stopped
    }

    /// Whether the verb that is due opens the next view.
    pub fn is_opening(&self) -> bool
        ensures { result ≡ is_opening self.now.phase }
    {
        match self.phase {
            Phase::Open => true,
            Phase::ReadEpoch => false,
            Phase::Seal => false,
            Phase::ReadBegin(_) => false,
            Phase::ReadPause { .. } => false,
            Phase::ReadStatus { .. } => false,
            Phase::ReadWord => false,
            Phase::WriteWord { .. } => false,
        }
    }

    /// The verb that is due.
    pub fn next(&self) -> Verb
        ensures verb { result ≡ next self.now }
        ensures inside { IsInPool self.now.shape (place_of result) }
    {
        match self.phase {
            Phase::ReadEpoch => Verb::Read(control(0)),
            Phase::Seal => Verb::Write(control(0), self.sealed),
            Phase::ReadBegin(client) => Verb::Read(control(begin_at(client))),
            Phase::ReadPause { client, .. } => Verb::Read(control(pause_at(client))),
            Phase::ReadStatus { node, .. } => Verb::Read(control(node)),
            Phase::ReadWord => Verb::Read(place_of_pair(self.targets.from)),
            Phase::WriteWord { word, target } => {
                Verb::Write(place_of_pair(self.targets.to[target]), word)
            }
            Phase::Open => Verb::Write(control(0), self.opened_word()),
        }
    }

    // The epoch word of the next view.
    pub(crate) fn opened_word(&self) -> u64
        ensures { result ≡ opened_word self.now }
    {
        epoch_word(Epoch {
            view: (self.sealed / 65536 + 1) % (1 << 48),
            sealed: false,
            mask: self.mask,
        })
    }

    /// Takes the answer to the verb that was due, and tells whether the next view is open. A settling
    /// that waits for a client may go on: it then asks that client again.
    pub fn after(&mut self, answer: Answer) -> Settled
        ensures state { self.new ≡ (turn self.old answer).state }
        ensures told { result ≡ (turn self.old answer).told }
        ensures opened { (word : ℕ) → (result ≡ Opened word) ↔ ((self.old.phase ≡ Open)
            × (answer ≡ Done) × (word ≡ opened_word self.old)) }
        ensures not_yet { (client begin : ℕ) → (result ≡ NotYet client begin) ↔ ((found : ℕ)
            × (answer ≡ Word found) × (self.old.phase ≡ ReadPause client begin)
            × (begin % 2 ≡ 1) × (in_mask self.old.stopped client ≡ false)
            × (found ≢ self.old.sealed)) }
    {
        match (self.phase, answer) {
            (Phase::ReadEpoch, Answer::Word(found)) => self.on_epoch(found),
            (Phase::Seal, Answer::Done) => self.ask_client(1),
            (Phase::ReadBegin(client), Answer::Word(found)) => self.on_begin(client, found),
            (Phase::ReadPause { client, begin }, Answer::Word(found)) => {
                self.on_pause(client, begin, found)
            }
            (Phase::ReadStatus { node, live }, Answer::Word(found)) => {
                self.on_status(node, live, found)
            }
            (Phase::ReadWord, Answer::Word(found)) => self.write_from(found, 0),
            (Phase::WriteWord { word, target }, Answer::Done) => self.write_from(word, target + 1),
            (Phase::ReadWord, Answer::Lost) | (Phase::WriteWord { .. }, Answer::Lost) => {
                self.ask_node(1, 0)
            }
            (Phase::Open, Answer::Done) => Settled::Opened(self.opened_word()),
            _ => Settled::Going,
        }
    }
}

// A word of the control node.
fn control(at: u32) -> Place
    ensures { result ≡ record { node = 0; at = at } }
{
    Place { node: 0, at }
}

fn place_of_pair(pair: (u32, u32)) -> Place
    ensures { result ≡ place_of_pair pair }
{
    Place {
        node: pair.0,
        at: pair.1,
    }
}
