ghost use Rattle.std.specs.Prelude.{◌≡◌, Some, true};
ghost use Rattle.kv_ops.specs.Ahead.{is_searching};
ghost use Rattle.kv_ops.specs.Callers.{client_of, turn_of};
ghost use Rattle.kv_ops.specs.Standings.{IsControl, IsHeld, IsOfObject, IsOfSlot, IsReadyUnder, IsSearch, OwnsObject, OwnsPlace, reads_own};
ghost use Rattle.kv_ops.specs.declared.stages.Stage.TheVariants.{Body, Fetch};
ghost use Rattle.machine.specs.Client.{begin_place, finds_at, next, on_find, on_version, slot_of, stays, turn, turn_at, view_of};
ghost use Rattle.machine.specs.EpochRead.{IsView};
ghost use Rattle.machine.specs.KeySearch.{KeySearch};
ghost use Rattle.machine.specs.ObjectNames.{Object, object_in, pointer_in};
ghost use Rattle.machine.specs.Places.{control, object_word, primary_place};
ghost use Rattle.machine.specs.SlotWrite.{SlotWrite};
ghost use Rattle.machine.specs.Stage as stage;
ghost use Rattle.region_view.specs.Control.{Pause};
ghost use Rattle.verb_words.specs.declared.verbs.Answer.TheVariants.{Done, Word};
ghost use Rattle.verb_words.specs.declared.verbs.Verb.TheVariants.{Read};
ghost use Rattle.verb_words.specs.declared.verbs.Why.TheVariants.{Unchanged};

use crate::callers::Caller;
use crate::epochs::open_mask;
use crate::stages::{Kept, Stage};
use key_test::{Tested, object_place};
use kv_find::{Fetched, Found};
use kv_write::{Resolved, Written};
use machine::client_call::{Outcome, Step};
use object_alloc::Changed;
use region_view::{begin_at, pause_at};
use snapshot_write::Wrote;
use verb_words::{Answer, Place, Verb, Why};

/// The place of the epoch word.
const EPOCH: Place = Place { node: 0, at: 0 };

// The verbs of a client.
impl Caller {
    /// The verb that is due.
    #[inline(always)]
    pub(crate) fn next(&self) -> Verb
        requires held { IsHeld (client_of self.now) }
        ensures { result ≡ next (client_of self.now) }
    {
        match &self.stage {
            Stage::Idle => Verb::Read(EPOCH),
            Stage::ReadEpoch => Verb::Read(EPOCH),
            Stage::Paused { .. } => Verb::Read(EPOCH),
            Stage::LostNode { .. } => Verb::Read(EPOCH),
            Stage::Start => Verb::Write(
                self.begin_place(),
                (2 * u64::from(self.number)).saturating_sub(1),
            ),
            Stage::Pause { word, .. } => Verb::Write(self.pause_place(), *word),
            Stage::Seek(find) => find.next(),
            Stage::Fetch => match &self.reading {
                Some(reading) => reading.next(),
                None => Verb::Read(EPOCH),
            },
            Stage::Choose => self.stock.next(),
            Stage::Clear(change) => change.next(),
            Stage::Body => match &self.body {
                Some(write) => write.next(),
                None => Verb::Read(EPOCH),
            },
            Stage::Find(find) => find.next(),
            Stage::ReadVersion(word) => Verb::Read(self.version_place(*word)),
            Stage::Log(write) => write.next(),
            Stage::WriteSlot {
                write,
                awaits: false,
            } => write.next(),
            Stage::WriteSlot { awaits: true, .. } => Verb::Read(EPOCH),
            Stage::TestKey(test) => test.next(),
            Stage::Resolve(resolve) => resolve.next(),
            Stage::Free(change) => change.next(),
            Stage::Return(change) => change.next(),
            Stage::End => Verb::Write(self.begin_place(), 2 * u64::from(self.number)),
        }
    }

    /// The place of the word that a search reads next.
    #[inline(always)]
    pub(crate) fn place_to_read(&self) -> Place
        requires { is_searching (client_of self.now).stage ≡ true }
        ensures { Read result ≡ next (client_of self.now) }
    {
        match &self.stage {
            Stage::Seek(find) => find.place_to_read(),
            Stage::Find(find) => find.place_to_read(),
            _ => EPOCH,
        }
    }

    fn begin_place(&self) -> Place
        requires { IsHeld (client_of self.now) }
        ensures { result ≡ begin_place (client_of self.now) }
    {
        Place {
            node: 0,
            at: begin_at(self.client),
        }
    }

    fn pause_place(&self) -> Place
        requires { IsHeld (client_of self.now) }
        ensures { result ≡ control (Pause self.now.client) }
    {
        Place {
            node: 0,
            at: pause_at(self.client),
        }
    }

    // The version of the object that a slot word names, on the primary.
    fn version_place(&self, word: u64) -> Place
        requires view { IsView (view_of (client_of self.now)) }
        requires object { (object : Object) × (object_in self.now.shape word ≡ Some object) }
        ensures { result ≡ primary_place (view_of (client_of self.now)) (object_word (pointer_in word) 2) }
    {
        let pointer = (word % (1 << 28)) as u32;
        let Place { node, at } = object_place(&self.view(), pointer);
        Place { node, at: at + 2 }
    }
}

// The answers to them.
impl Caller {
    /// Takes the answer to the verb that was due.
    #[inline(always)]
    pub(crate) fn after(&mut self, answer: Answer) -> Step
        requires held { IsHeld (client_of self.old) }
        ensures { turn_of self.new result ≡ turn (client_of self.old) answer }
    {
        match &self.stage {
            Stage::Seek(_) => self.after_search_apart(answer),
            Stage::Fetch => self.after_fetch(answer),
            Stage::Find(_) => self.after_search_apart(answer),
            Stage::ReadVersion(_) => self.after_search_apart(answer),
            Stage::Choose => self.after_object(answer),
            Stage::Clear(_) => self.after_object(answer),
            Stage::Body => self.after_body(answer),
            Stage::Log(_) => self.after_object(answer),
            Stage::Free(_) => self.after_object(answer),
            Stage::Return(_) => self.after_object(answer),
            Stage::WriteSlot { awaits: false, .. } => self.after_slot(answer),
            Stage::WriteSlot { awaits: true, .. } => self.after_slot(answer),
            Stage::TestKey(_) => self.after_slot(answer),
            Stage::Resolve(_) => self.after_slot(answer),
            Stage::Idle => self.after_control(answer),
            Stage::Start => self.after_control(answer),
            Stage::ReadEpoch => self.after_control(answer),
            Stage::Pause { .. } => self.after_control(answer),
            Stage::Paused { .. } => self.after_control(answer),
            Stage::LostNode { .. } => self.after_control(answer),
            Stage::End => self.after_control(answer),
        }
    }

    // Apart from the path of the other verbs: a search's answers are handed to `after_search` itself,
    // and with the search in it three times `after` would be too large to be inlined.
    #[inline(never)]
    fn after_search_apart(&mut self, answer: Answer) -> Step
        requires held { IsHeld (client_of self.old) }
        requires search { IsSearch (client_of self.old).stage }
        ensures { turn_of self.new result ≡ turn (client_of self.old) answer }
    {
        self.after_search(answer)
    }

    #[inline(always)]
    pub(crate) fn after_search(&mut self, answer: Answer) -> Step
        requires held { IsHeld (client_of self.old) }
        requires search { IsSearch (client_of self.old).stage }
        ensures { turn_of self.new result ≡ turn (client_of self.old) answer }
    {
        match &mut self.stage {
            Stage::Seek(find) => match find.after(answer) {
                Found::Going => Step::Going,
                Found::Empty { .. } => self.absent(),
                Found::At {
                    word,
                    kind,
                    value_len,
                    ..
                } => {
                    let place = find.place();
                    self.remember(place);
                    self.on_kind(kind, word, value_len)
                }
                Found::Nowhere => self.absent(),
                Found::Refused(node) => self.refused(node),
            },
            Stage::Find(_) => self.after_find(answer),
            Stage::ReadVersion(word) => {
                let word = *word;
                self.after_version(word, answer)
            }
            _ => Step::Going,
        }
    }

    #[inline(always)]
    fn after_fetch(&mut self, answer: Answer) -> Step
        requires held { IsHeld (client_of self.old) }
        requires fetch { self.old.stage ≡ Fetch }
        ensures { turn_of self.new result ≡ turn (client_of self.old) answer }
    {
        let Some(reading) = &mut self.reading else {
            return Step::Going;
        };
        match reading.after(answer) {
            Fetched::Going => Step::Going,
            Fetched::Whole => {
                self.fetched.clear();
                let pushed = self.fetched.try_extend_from_slice(reading.bytes());
                prove!(pushed.is_ok());
                self.ends(Outcome::Value)
            }
            Fetched::Refused(node) => self.refused(node),
        }
    }

    #[inline(always)]
    fn after_find(&mut self, answer: Answer) -> Step
        requires held { IsHeld (client_of self.old) }
        requires object { OwnsObject (client_of self.old) }
        ensures { (search : KeySearch) → (client_of self.old).stage ≡ stage.Find search
            → turn_of self.new result ≡ finds_at search.phase (client_of self.old) search answer }
    {
        let is_own = self.reads_own(answer);
        let Stage::Find(find) = &mut self.stage else {
            return Step::Going;
        };
        // The slot that has the call's own word is passed over.
        let found = if is_own && find.is_at_slot() {
            find.pass()
        } else {
            find.after(answer)
        };
        let place = find.place();
        self.on_find(place, found)
    }

    // Whether the answer is the call's own slot word.
    fn reads_own(&self, answer: Answer) -> bool
        requires { OwnsObject (client_of self.now) }
        ensures { result ≡ reads_own (client_of self.now) answer }
    {
        match answer {
            Answer::Word(word) => self.is_own(word),
            Answer::Done => false,
            Answer::Lost => false,
        }
    }

    // What the search for the slot tells at this place.
    #[inline(always)]
    fn on_find(&mut self, place: usize, found: Found) -> Step
        requires ready { IsReadyUnder (client_of self.old) }
        requires view { IsView (view_of (client_of self.old)) }
        requires object { OwnsObject (client_of self.old) }
        ensures { (search : KeySearch) → (client_of self.old).stage ≡ stage.Find search → search.place ≡ place
            → turn_of self.new result ≡ on_find (client_of self.old) search found }
    {
        match found {
            Found::Going => Step::Going,
            Found::Empty { .. } => {
                self.place = place;
                self.expect = 0;
                self.version = 1;
                self.logs()
            }
            Found::At { word, .. } => {
                self.remember(place);
                self.stage = Stage::ReadVersion(word);
                Step::Going
            }
            Found::Nowhere => self.gives_back(Outcome::Full),
            Found::Refused(node) => self.refused(node),
        }
    }

    fn after_version(&mut self, word: u64, answer: Answer) -> Step
        requires view { IsView (view_of (client_of self.old)) }
        requires object { OwnsObject (client_of self.old) }
        requires named { (object : Object) × (object_in self.old.shape word ≡ Some object) }
        ensures { (client_of self.old).stage ≡ stage.ReadVersion word
            → turn_of self.new result ≡ on_version (client_of self.old) word answer }
    {
        match answer {
            Answer::Word(found) => {
                self.expect = word;
                self.version = found.wrapping_add(1);
                self.logs()
            }
            Answer::Done => Step::Going,
            Answer::Lost => {
                let place = self.version_place(word);
                self.refused(place.node)
            }
        }
    }

    fn after_object(&mut self, answer: Answer) -> Step
        requires held { IsHeld (client_of self.old) }
        requires object { IsOfObject (client_of self.old).stage }
        ensures { turn_of self.new result ≡ turn (client_of self.old) answer }
    {
        match &mut self.stage {
            Stage::Choose => {
                let took = self.stock.after(answer);
                self.on_took(took)
            }
            Stage::Clear(change) => match change.after(answer) {
                Changed::Going => Step::Going,
                Changed::Whole => self.cleared(),
                Changed::Refused(node) => self.refused(node),
            },
            Stage::Log(write) => match write.after(answer) {
                Written::Going => Step::Going,
                Written::Whole => self.writes_slot(),
                Written::Refused(node) => self.refused(node),
            },
            Stage::Free(change) => match change.after(answer) {
                Changed::Going => Step::Going,
                Changed::Whole => self.closes(),
                Changed::Refused(node) => self.refused(node),
            },
            Stage::Return(change) => match change.after(answer) {
                Changed::Going => Step::Going,
                Changed::Whole => self.closes(),
                Changed::Refused(node) => self.refused(node),
            },
            _ => Step::Going,
        }
    }

    #[inline(always)]
    fn after_body(&mut self, answer: Answer) -> Step
        requires held { IsHeld (client_of self.old) }
        requires body { self.old.stage ≡ Body }
        ensures { turn_of self.new result ≡ turn (client_of self.old) answer }
    {
        let Some(write) = &mut self.body else {
            return Step::Going;
        };
        match write.after(answer) {
            Written::Going => Step::Going,
            Written::Whole => self.finds(),
            Written::Refused(node) => self.refused(node),
        }
    }

    fn after_slot(&mut self, answer: Answer) -> Step
        requires held { IsHeld (client_of self.old) }
        requires slot { IsOfSlot (client_of self.old).stage }
        ensures { turn_of self.new result ≡ turn (client_of self.old) answer }
    {
        match &mut self.stage {
            Stage::WriteSlot {
                write,
                awaits: false,
            } => match write.after(answer) {
                Wrote::Going => Step::Going,
                Wrote::Won => self.won(),
                Wrote::Changed(word) => self.on_changed(word),
                Wrote::Unchanged(word) => self.awaits_round(word),
                Wrote::Refused(node) => self.refused(node),
            },
            Stage::WriteSlot { awaits: true, .. } => self.after_round(answer),
            Stage::TestKey(test) => match test.after(answer) {
                Tested::Going => Step::Going,
                Tested::Same { .. } => self.loses(),
                Tested::Other => self.finds_on(),
                Tested::Refused(node) => self.refused(node),
            },
            Stage::Resolve(resolve) => match resolve.after(answer) {
                Resolved::Going => Step::Going,
                Resolved::Still => self.logs(),
                Resolved::Won => self.won(),
                Resolved::Beaten => self.loses(),
                Resolved::OtherKey => self.finds_on(),
                Resolved::Refused(node) => self.refused(node),
            },
            _ => Step::Going,
        }
    }

    // The primary still has the word, and another writer's round goes on.
    fn awaits_round(&mut self, word: u64) -> Step
        requires ready { IsReadyUnder (client_of self.old) }
        requires place { OwnsPlace (client_of self.old) }
        ensures { (write : SlotWrite) → (client_of self.old).stage ≡ stage.WriteSlot write
            → turn_of self.new result ≡ stays (client_of self.old) (stage.AwaitRound write)
            (Unchanged (slot_of (client_of self.old)) word) }
    {
        let slot = self.slot();
        if let Stage::WriteSlot { awaits, .. } = &mut self.stage {
            *awaits = true;
        }
        Step::NotYet(Why::Unchanged { slot, word })
    }

    fn after_round(&mut self, answer: Answer) -> Step
        ensures { (write : SlotWrite) → (client_of self.old).stage ≡ stage.AwaitRound write
            → turn_of self.new result ≡ turn_at (stage.AwaitRound write) (client_of self.old) answer }
    {
        let Answer::Word(found) = answer else {
            return Step::Going;
        };
        if open_mask(&self.shape, found).is_none() {
            return self.pauses(found, Kept::Resolve);
        }
        if let Stage::WriteSlot { awaits, .. } = &mut self.stage {
            *awaits = false;
        }
        Step::Going
    }

    fn after_control(&mut self, answer: Answer) -> Step
        requires held { IsHeld (client_of self.old) }
        requires control { IsControl (client_of self.old).stage }
        ensures { turn_of self.new result ≡ turn (client_of self.old) answer }
    {
        match answer {
            Answer::Word(found) => self.after_epoch_word(found),
            Answer::Done => self.after_write(),
            Answer::Lost => Step::Going,
        }
    }

    fn after_epoch_word(&mut self, found: u64) -> Step
        requires held { IsHeld (client_of self.old) }
        requires control { IsControl (client_of self.old).stage }
        ensures { turn_of self.new result ≡ turn (client_of self.old) (Word found) }
    {
        match &self.stage {
            Stage::ReadEpoch => self.on_epoch(found),
            Stage::Paused { word, kept } => {
                let (word, kept) = (*word, *kept);
                self.on_paused(word, kept, found)
            }
            Stage::LostNode { node, kept } => {
                let (node, kept) = (*node, *kept);
                self.on_lost(node, kept, found)
            }
            _ => Step::Going,
        }
    }

    fn after_write(&mut self) -> Step
        requires control { IsControl (client_of self.old).stage }
        ensures { turn_of self.new result ≡ turn (client_of self.old) Done }
    {
        match &self.stage {
            Stage::Start => {
                self.stage = Stage::ReadEpoch;
                Step::Going
            }
            Stage::Pause { word, kept } => {
                self.stage = Stage::Paused {
                    word: *word,
                    kept: *kept,
                };
                Step::Going
            }
            Stage::End => {
                self.stage = Stage::Idle;
                Step::Ended(self.outcome)
            }
            _ => Step::Going,
        }
    }
}
