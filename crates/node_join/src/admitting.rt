ghost use Rattle.std.specs.Prelude.{◌≡◌, ◌↔◌, ℕ, ◌≤◌, None};
ghost use Rattle.machine.specs.EpochRead.{open_mask};
ghost use Rattle.machine.specs.Joining.{Admit, ReadEpoch, joining_of, next, on_epoch, turn};
ghost use Rattle.machine.specs.Places.{IsInPool};
ghost use Rattle.machine.specs.declared.joining.Joined.TheVariants as joined;
ghost use Rattle.verb_words.specs.Verb.{place_of};
ghost use Rattle.verb_words.specs.declared.verbs.Answer.TheVariants.{Done, Word};
ghost use Rattle.verb_words.specs.declared.verbs.Why.{Why};
ghost use Rattle.verb_words.specs.declared.verbs.Why.TheVariants.{Sealed};

use crate::masks::open_mask;
use machine::joining::Joined;
use region_view::Shape;
use std::marker::Model;
use verb_words::{Answer, Place, Verb, Why};

/// What a joining does next.
#[derive(Clone, Copy, Debug)]
pub(crate) enum Phase {
    /// Reads the epoch word.
    ReadEpoch,
    /// Writes that the node is live.
    Admit,
}

/// The joining of a node that is lost and stands outside the mask: while the epoch is open, its status
/// word is set live. The next settling gives it the words of its regions.
#[derive(Debug, Drop)]
pub struct Join {
    shape: Shape,
    node: u32,
    phase: Phase,
}

impl Model for Join {
    ghost use Rattle.machine.specs.Joining.{IsJoining, Joining};
    ghost use Rattle.node_join.specs.Joinings.{joining_at};

    ghost Value = { Joining };

    ghost view = { λ j. joining_at j.shape j.node j.phase };

    ghost invariant = { λ j. IsJoining j.shape (joining_at j.shape j.node j.phase) };
}

impl Join {
    /// The joining of this node.
    pub fn new(shape: Shape, node: u32) -> Join
        requires least { 1 ≤ node }
        requires most { node ≤ shape.nodes }
        ensures { result ≡ joining_of shape node }
    {
        // The sizes are read, so that they are known to be within their limits.
        prove!(node <= shape.nodes);
        Join {
            shape,
            node,
            phase: Phase::ReadEpoch,
        }
    }

    /// The node that is admitted.
    pub fn node(&self) -> u32
        ensures { result ≡ self.now.node }
    {
        self.node
    }

    /// The verb that is due.
    pub fn next(&self) -> Verb
        ensures verb { result ≡ next self.now }
        ensures inside { IsInPool self.now.shape (place_of result) }
    {
        match self.phase {
            Phase::ReadEpoch => Verb::Read(Place { node: 0, at: 0 }),
            Phase::Admit => Verb::Write(
                Place {
                    node: 0,
                    at: self.node,
                },
                0,
            ),
        }
    }

    /// Takes the answer to the verb that was due. After a not yet, which is always for a sealed epoch,
    /// the joining is to be made anew.
    pub fn after(&mut self, answer: Answer) -> Joined
        ensures state { self.new ≡ (turn self.old answer).state }
        ensures told { result ≡ (turn self.old answer).told }
        ensures joined { (result ≡ joined.Joined) ↔ ((self.old.phase ≡ Admit) × (answer ≡ Done)) }
        ensures not_yet { (why : Why) → (result ≡ joined.NotYet why) ↔ ((found : ℕ)
            × (self.old.phase ≡ ReadEpoch) × (answer ≡ Word found)
            × (open_mask self.old.shape found ≡ None) × (why ≡ Sealed found)) }
    {
        match (self.phase, answer) {
            (Phase::ReadEpoch, Answer::Word(found)) => self.on_epoch(found),
            (Phase::Admit, Answer::Done) => Joined::Joined,
            _ => Joined::Going,
        }
    }

    fn on_epoch(&mut self, found: u64) -> Joined
        ensures state { self.new ≡ (on_epoch self.old found).state }
        ensures told { result ≡ (on_epoch self.old found).told }
    {
        if open_mask(&self.shape, found).is_none() {
            return Joined::NotYet(Why::Sealed(found));
        }
        self.phase = Phase::Admit;
        Joined::Going
    }
}
