ghost use Rattle.std.specs.Prelude.{◌≡◌, ◌↔◌, ℕ, ◌*◌, ◌<◌, ◌≤◌, IfSome, None, Some};
ghost use Rattle.std.specs.Option.{option_map_or};
ghost use Rattle.client_recovery.specs.Causes.{IsDone, IsSealed, IsUnchanged};
ghost use Rattle.machine.specs.Places.{IsInPool};
ghost use Rattle.machine.specs.Recovery.{next, turn};
ghost use Rattle.machine.specs.RecoveryStage.{recovery_of};
ghost use Rattle.machine.specs.declared.recovery.Recovering.TheVariants.{NotYet, Recovered};
ghost use Rattle.machine_world.specs.Events.{final_of_recovery, settles_call};
ghost use Rattle.verb_words.specs.Verb.{place_of};
ghost use Rattle.verb_words.specs.declared.verbs.Answer.TheVariants as answer_is;
ghost use Rattle.verb_words.specs.declared.verbs.Why.TheVariants.{Lost, Sealed, Unchanged};

use crate::progress::{Progress, Stage};
use arrayvec::ArrayVec;
use key_test::Object;
use machine::recovery::Recovering;
use region_view::Shape;
use std::marker::Model;
use verb_words::{Answer, Verb};

/// The recovery of a stopped client: its reserves are put back in stock, its last call is settled by
/// what its object was logged to replace, and its blocks are released.
///
/// It takes no memory. After `NotYet` a new recovery of the client is made.
#[derive(Debug, Drop)]
pub struct Recovery {
    progress: Progress,
}

impl Model for Recovery {
    ghost use Rattle.client_recovery.specs.Progresses.{IsKept, recovery_at};
    ghost use Rattle.machine.specs.RecoveryStage.{Recovery};

    ghost Value = { Recovery };

    ghost view = { λ r. recovery_at r.progress };

    ghost invariant = { λ r. IsKept (recovery_at r.progress) };
}

impl Recovery {
    /// A recovery of the client, which is stopped.
    pub fn new(client: u32, shape: Shape) -> Recovery
        requires least { 1 ≤ client }
        requires most { client ≤ shape.clients }
        ensures { result ≡ recovery_of client shape }
    {
        // The sizes are read, so that they are known to be within their limits.
        prove!(client <= shape.clients);
        Recovery {
            progress: Progress {
                shape,
                client,
                stage: Stage::ReadEpoch,
                mask: 0,
                number: 0,
                ends: ArrayVec::new(),
                object: Object {
                    pointer: 0,
                    class: 0,
                },
                key: ArrayVec::new(),
                version: 0,
                expect: 0,
                position: 0,
                won: false,
            },
        }
    }

    /// Whether the client's last call is settled as one that has replaced its slot's word.
    pub fn won(&self) -> bool
        ensures { result ≡ self.now.won }
    {
        self.progress.won
    }

    /// The client that is recovered.
    pub fn client(&self) -> u32
        ensures { result ≡ self.now.client }
    {
        self.progress.client
    }

    /// The slot and the word that the verb that is due puts on the slot's primary, where the slot write
    /// has come so far.
    pub fn final_swap(&self) -> Option<(u32, u64)>
        ensures swap { result ≡ option_map_or (λ write. Some (write.slot, write.fresh))
            (final_of_recovery self.now.stage) None }
        ensures slot { IfSome result (λ swap. swap.0 < 24 * self.now.shape.groups) }
    {
        match &self.progress.stage {
            Stage::WriteSlot(write) if write.is_final() => Some((write.slot(), write.fresh())),
            _ => None,
        }
    }

    /// Whether the answer to the verb that is due settles the client's last call: its begin word is
    /// found even, or is made even.
    pub fn settles(&self, answer: Answer) -> bool
        ensures { result ≡ settles_call self.now.stage answer }
    {
        match (&self.progress.stage, answer) {
            (Stage::ReadBegin, Answer::Word(found)) => found % 2 == 0,
            (Stage::WriteBegin, Answer::Done) => true,
            _ => false,
        }
    }

    /// The verb that is due.
    pub fn next(&self) -> Verb
        ensures verb { result ≡ next self.now }
        ensures inside { IsInPool self.now.shape (place_of result) }
    {
        self.progress.next()
    }

    /// Takes the answer to the verb that was due, and tells whether the client is recovered.
    pub fn after(&mut self, answer: Answer) -> Recovering
        ensures state { self.new ≡ (turn self.old answer).state }
        ensures told { result ≡ (turn self.old answer).told }
        ensures sealed { (word : ℕ) → (result ≡ NotYet (Sealed word))
            ↔ IsSealed self.old answer word }
        ensures lost { (node : ℕ) → (result ≡ NotYet (Lost node))
            ↔ ((answer ≡ answer_is.Lost) × (node ≡ (place_of (next self.old)).node)) }
        ensures unchanged { (slot word : ℕ) → (result ≡ NotYet (Unchanged slot word))
            ↔ IsUnchanged self.old answer slot word }
        ensures recovered { (result ≡ Recovered) ↔ IsDone self.old answer }
    {
        self.progress.after(answer)
    }
}
