ghost use Rattle.std.specs.Prelude.{◌≡◌};
ghost use Rattle.client_recovery.specs.Progresses.{IsKept, IsOfObjects, IsOfSlot, recovery_at, turn_of};
ghost use Rattle.machine.specs.Recovery.{turn};
ghost use Rattle.machine.specs.declared.recovery.Recovering.TheVariants.{NotYet};
ghost use Rattle.verb_words.specs.declared.verbs.Why.TheVariants.{Lost};
ghost use Rattle.verb_words.specs.declared.verbs.Answer.TheVariants.{Done, Word};

use crate::progress::{ClassEnd, Progress, Stage};
use machine::bit_change::Changed;
use machine::key_search::Found;
use machine::link_walk::Walked;
use machine::object_write::Written;
use machine::recovery::Recovering;
use machine::resolution::Resolved;
use machine::slot_write::Wrote;
use verb_words::{Answer, Why};

// What the answers make of a recovery.
impl Progress {
    /// Takes the answer to the verb that was due.
    #[tactic(auto, using(crate::proofs::TurnLemmas::turn_lost))]
    pub(crate) fn after(&mut self, answer: Answer) -> Recovering
        requires { IsKept (recovery_at self.old) }
        ensures { turn_of self.new result ≡ turn (recovery_at self.old) answer }
    {
        match answer {
            Answer::Word(found) => self.after_word(found),
            Answer::Done => self.after_done(),
            Answer::Lost => refused(self.next().place().node),
        }
    }

    fn after_word(&mut self, found: u64) -> Recovering
        requires { IsKept (recovery_at self.old) }
        ensures { turn_of self.new result ≡ turn (recovery_at self.old) (Word found) }
    {
        match &self.stage {
            Stage::ReadEpoch => self.on_epoch(found),
            Stage::ReadBegin => self.on_begin(found),
            Stage::Walk(_) => self.after_objects(Answer::Word(found)),
            Stage::Restock(_, _) => self.after_objects(Answer::Word(found)),
            Stage::ReadMeta => self.on_meta(found),
            Stage::ReadLog(_, _) => self.on_log_word(found),
            Stage::Find(_) => self.after_slot(Answer::Word(found)),
            Stage::ReadVersion { slot, word } => {
                let (slot, word) = (*slot, *word);
                self.on_version(slot, word, found)
            }
            Stage::WriteSlot(_) => self.after_slot(Answer::Word(found)),
            Stage::Resolve(_) => self.after_slot(Answer::Word(found)),
            Stage::Erase(_) => self.after_objects(Answer::Word(found)),
            Stage::Free(_) => self.after_objects(Answer::Word(found)),
            Stage::WriteBegin => Recovering::Going,
            Stage::ReadBlock => self.on_block_word(found),
            Stage::Spread {
                class: _,
                backup: _,
            } => Recovering::Going,
            Stage::Release { class: _ } => self.next_block(),
        }
    }

    #[tactic(auto, using(crate::proofs::HeldLemmas::few_backups))]
    fn after_done(&mut self) -> Recovering
        requires { IsKept (recovery_at self.old) }
        ensures { turn_of self.new result ≡ turn (recovery_at self.old) Done }
    {
        match &self.stage {
            Stage::ReadEpoch => Recovering::Going,
            Stage::ReadBegin => Recovering::Going,
            Stage::Walk(_) => self.after_objects(Answer::Done),
            Stage::Restock(_, _) => self.after_objects(Answer::Done),
            Stage::ReadMeta => Recovering::Going,
            Stage::ReadLog(_, _) => Recovering::Going,
            Stage::Find(_) => self.after_slot(Answer::Done),
            Stage::ReadVersion { slot: _, word: _ } => Recovering::Going,
            Stage::WriteSlot(_) => self.after_slot(Answer::Done),
            Stage::Resolve(_) => self.after_slot(Answer::Done),
            Stage::Erase(_) => self.after_objects(Answer::Done),
            Stage::Free(_) => self.after_objects(Answer::Done),
            Stage::WriteBegin => self.first_block(),
            Stage::ReadBlock => Recovering::Going,
            Stage::Spread { class, backup } => {
                let (class, backup) = (*class, *backup);
                self.spreads_from(class, backup + 1)
            }
            Stage::Release { class: _ } => Recovering::Going,
        }
    }

    // The answer to a verb that reads links or writes what the client had taken.
    #[tactic(auto, using(crate::proofs::TurnLemmas::walk_ends))]
    fn after_objects(&mut self, answer: Answer) -> Recovering
        requires kept { IsKept (recovery_at self.old) }
        requires stage { IsOfObjects self.old.stage }
        ensures { turn_of self.new result ≡ turn (recovery_at self.old) answer }
    {
        match &mut self.stage {
            Stage::Walk(walk) => match walk.after(answer) {
                Walked::Going => Recovering::Going,
                Walked::End { last, reserve } => self.add_end(ClassEnd { last, reserve }),
                Walked::Refused(node) => refused(node),
            },
            Stage::Restock(class, set) => {
                let next_class = u32::from(*class) + 1;
                match set.after(answer) {
                    Changed::Going => Recovering::Going,
                    Changed::Whole => self.restocks_from(next_class),
                    Changed::Refused(node) => refused(node),
                }
            }
            Stage::Erase(write) => match write.after(answer) {
                Written::Going => Recovering::Going,
                Written::Whole => self.frees(),
                Written::Refused(node) => refused(node),
            },
            Stage::Free(set) => match set.after(answer) {
                Changed::Going => Recovering::Going,
                Changed::Whole => self.goes_to(Stage::WriteBegin),
                Changed::Refused(node) => refused(node),
            },
            // No other stage comes here.
            _ => Recovering::Going,
        }
    }

    // The answer to a verb of the search, of the slot's write or of the walk back.
    #[tactic(auto, using(crate::proofs::TurnLemmas::find_empty, crate::proofs::HeldLemmas::fresh_some))]
    fn after_slot(&mut self, answer: Answer) -> Recovering
        requires kept { IsKept (recovery_at self.old) }
        requires stage { IsOfSlot self.old.stage }
        ensures { turn_of self.new result ≡ turn (recovery_at self.old) answer }
    {
        match &mut self.stage {
            Stage::Find(find) => match find.after(answer) {
                Found::Going => Recovering::Going,
                Found::Empty { slot } => self.writes(slot, 0),
                Found::At { slot, word, .. } => self.goes_to(Stage::ReadVersion { slot, word }),
                Found::Nowhere => self.is_beaten(),
                Found::Refused(node) => refused(node),
            },
            Stage::WriteSlot(write) => {
                let slot = write.slot();
                let expect = write.expect();
                match write.after(answer) {
                    Wrote::Going => Recovering::Going,
                    Wrote::Won => self.is_won(expect),
                    Wrote::Changed(_) => self.finds(),
                    Wrote::Unchanged(word) => Recovering::NotYet(Why::Unchanged { slot, word }),
                    Wrote::Refused(node) => refused(node),
                }
            }
            Stage::Resolve(walk) => match walk.after(answer) {
                Resolved::Going => Recovering::Going,
                Resolved::Won => self.is_won(self.expect),
                Resolved::Beaten => self.is_beaten(),
                Resolved::Still => self.finds(),
                Resolved::OtherKey => self.finds(),
                Resolved::Refused(node) => refused(node),
            },
            // No other stage comes here.
            _ => Recovering::Going,
        }
    }
}

fn refused(node: u32) -> Recovering
    ensures { result ≡ NotYet (Lost node) }
{
    Recovering::NotYet(Why::Lost(node))
}
