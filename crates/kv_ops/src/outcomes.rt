ghost use Rattle.std.specs.Prelude.{◌≡◌, ◌≤◌, ◌<◌, ◌%◌, ◌^◌, ◌==◌, true, length, Some};
ghost use Rattle.kv_find.specs.Readings.{HasRoom};
ghost use Rattle.kv_ops.specs.Callers.{client_of, turn_of};
ghost use Rattle.kv_ops.specs.Stages.{kept_as};
ghost use Rattle.kv_ops.specs.Standings.{IsApart, IsOfClass, IsReadyUnder, OwnsObject, OwnsPlace};
ghost use Rattle.machine.specs.Choosing.{IsTaken};
ghost use Rattle.machine.specs.Client.{absent, chooses, chooses_for, cleared, ends, fetches, finds_on, fresh_of, gives_back, goes_to, is_beaten, kept_of, kind_of, link_of, logs, on_changed, on_kind, on_took, refused, remembers, resolution_for, search_of, slot_of, view_of, won, write_body};
ghost use Rattle.machine.specs.EpochRead.{IsView};
ghost use Rattle.machine.specs.ObjectNames.{names_object, pointer_in};
ghost use Rattle.machine.specs.SlotWrite.{slot_write_of};
ghost use Rattle.machine.specs.Stage as stage;
ghost use Rattle.machine.specs.ValueRead.{value_read_of};
ghost use Rattle.machine.specs.WordsWrite.{body_of, words_write_of};
ghost use Rattle.object_form.specs.Class.{IsKeyLength, class_in};
ghost use Rattle.object_form.specs.declared.classes.TheConstants.{CLASSES, LONGEST};
ghost use Rattle.slot_order.specs.Slots.{order_of};

use crate::callers::Caller;
use crate::calls::Operation;
use crate::stages::{Kept, Stage};
use key_test::{KeyTest, candidate_in, object_in};
use kv_find::{Find, Found, ReadValue, value};
use kv_write::{ObjectWrite, body, log, resolving};
use machine::client_call::{Outcome, Step};
use object_alloc::{Took, change};
use object_form::{Kind, Link, class_for, units};
use race_slot::{Slot, pack};
use region_view::View;
use slot_order::{finger, order};
use snapshot_write::SlotWrite;
use verb_words::Why;

// What is read of a call.
impl Caller {
    /// The slot at the call's place of the order.
    pub(crate) fn slot(&self) -> u32
        requires ready { IsReadyUnder (client_of self.now) }
        requires place { self.now.place < length (order_of self.now.key.items self.now.shape.groups) }
        ensures { result ≡ slot_of (client_of self.now) }
    {
        order(self.key.as_slice(), self.shape.groups)[self.place]
    }

    /// The slot word that names the call's object.
    pub(crate) fn fresh(&self) -> u64
        requires { OwnsObject (client_of self.now) }
        ensures { result ≡ fresh_of (client_of self.now) }
    {
        pack(Slot {
            finger: finger(self.key.as_slice()),
            units: units(self.class) as u8,
            pointer: self.object,
        })
    }

    /// Whether the slot word is the call's own.
    pub(crate) fn is_own(&self, word: u64) -> bool
        requires { OwnsObject (client_of self.now) }
        ensures { result ≡ (word == fresh_of (client_of self.now)) }
    {
        // The pointers are compared first, since the key is hashed for the whole word.
        word % (1 << 28) == u64::from(self.object) && word == self.fresh()
    }

    fn kind(&self) -> Kind
        ensures { result ≡ kind_of (client_of self.now).operation }
    {
        match self.operation {
            Operation::Delete => Kind::Tombstone,
            Operation::Get => Kind::Value,
            Operation::Put => Kind::Value,
        }
    }

    fn link(&self) -> Link
        ensures { result ≡ link_of (client_of self.now) }
    {
        Link {
            client: self.client,
            call: self.number,
            next: self.reserve,
        }
    }

    // The class for the key and the value.
    fn class_for(&self) -> u8
        requires { IsReadyUnder (client_of self.now) }
        ensures value { result ≡ class_in (length self.now.key.items) (length self.now.value.items) }
        ensures class { result < CLASSES }
    {
        match class_for(self.key.len(), self.value.len()) {
            Ok(class) => class,
            Err(_) => 0,
        }
    }

    #[inline(always)]
    pub(crate) fn search(&self) -> Find
        requires ready { IsReadyUnder (client_of self.now) }
        requires view { IsView (view_of (client_of self.now)) }
        ensures { result ≡ search_of (client_of self.now) }
    {
        let key = self.key.as_slice();
        Find::new(self.view(), key, self.remembered.place_for(key))
    }
}

// How a call goes on.
impl Caller {
    /// The call goes on to return so.
    pub(crate) fn ends(&mut self, outcome: Outcome) -> Step
        ensures { turn_of self.new result ≡ ends (client_of self.old) outcome }
    {
        self.outcome = outcome;
        self.stage = Stage::End;
        Step::Going
    }

    /// Nothing is left but to write the begin word even.
    pub(crate) fn closes(&mut self) -> Step
        ensures { turn_of self.new result ≡ goes_to (client_of self.old) stage.End }
    {
        self.stage = Stage::End;
        Step::Going
    }

    /// A node refused the verb, since it is lost.
    pub(crate) fn refused(&mut self, node: u32) -> Step
        ensures { turn_of self.new result ≡ refused (client_of self.old) node }
    {
        self.stage = Stage::LostNode {
            node,
            kept: self.kept(),
        };
        Step::NotYet(Why::Lost(node))
    }

    // What is kept of the present stage where a lost node interrupts it.
    fn kept(&self) -> Kept
        ensures { kept_as result ≡ kept_of (client_of self.now).stage }
    {
        match &self.stage {
            Stage::Seek(_) => Kept::Seek,
            Stage::Fetch => match &self.reading {
                Some(_) => Kept::Seek,
                None => Kept::Start,
            },
            Stage::Choose => Kept::Choose,
            Stage::Clear(_) => Kept::Clear,
            Stage::Body => match &self.body {
                Some(_) => Kept::Body,
                None => Kept::Start,
            },
            Stage::Find(_) => Kept::Find,
            Stage::ReadVersion(_) => Kept::Find,
            Stage::Log(_) => Kept::Resolve,
            Stage::WriteSlot { awaits: false, .. } => Kept::Resolve,
            Stage::WriteSlot { awaits: true, .. } => Kept::Resolve,
            Stage::TestKey(_) => Kept::Resolve,
            Stage::Resolve(_) => Kept::Resolve,
            Stage::Free(_) => Kept::Free,
            Stage::Return(_) => Kept::Return,
            Stage::Idle => Kept::Start,
            Stage::Start => Kept::Start,
            Stage::ReadEpoch => Kept::Start,
            Stage::Pause { .. } => Kept::Start,
            Stage::Paused { .. } => Kept::Start,
            Stage::LostNode { .. } => Kept::Start,
            Stage::End => Kept::Start,
        }
    }

    pub(crate) fn remember(&mut self, place: usize)
        requires { IsReadyUnder (client_of self.old) }
        ensures { client_of self.new ≡ remembers (client_of self.old) place }
    {
        self.place = place;
        self.remembered.remember(self.key.as_slice(), place);
    }

    pub(crate) fn seeks(&mut self) -> Step
        requires ready { IsReadyUnder (client_of self.old) }
        requires view { IsView (view_of (client_of self.old)) }
        ensures { turn_of self.new result ≡ goes_to (client_of self.old) (stage.Seek (search_of (client_of self.old))) }
    {
        self.stage = Stage::Seek(self.search());
        Step::Going
    }

    pub(crate) fn finds(&mut self) -> Step
        requires ready { IsReadyUnder (client_of self.old) }
        requires view { IsView (view_of (client_of self.old)) }
        ensures { turn_of self.new result ≡ goes_to (client_of self.old) (stage.Find (search_of (client_of self.old))) }
    {
        self.stage = Stage::Find(self.search());
        Step::Going
    }

    pub(crate) fn resolves(&mut self) -> Step
        requires ready { IsReadyUnder (client_of self.old) }
        requires view { IsView (view_of (client_of self.old)) }
        requires place { OwnsPlace (client_of self.old) }
        ensures { turn_of self.new result ≡ goes_to (client_of self.old) (stage.Resolve (resolution_for (client_of self.old))) }
    {
        self.stage = Stage::Resolve(resolving(
            self.view(),
            self.slot(),
            self.expect,
            self.fresh(),
            self.version,
            self.key.as_slice(),
        ));
        Step::Going
    }

    /// The object's bit is set again, and the call returns so.
    pub(crate) fn gives_back(&mut self, outcome: Outcome) -> Step
        requires view { IsView (view_of (client_of self.old)) }
        requires object { OwnsObject (client_of self.old) }
        ensures { turn_of self.new result ≡ gives_back (client_of self.old) outcome }
    {
        self.outcome = outcome;
        self.stage = Stage::Return(change(self.view(), self.object, self.class, true, false));
        Step::Going
    }

    /// What the slot had is logged, with the version after its version.
    pub(crate) fn logs(&mut self) -> Step
        requires view { IsView (view_of (client_of self.old)) }
        requires object { OwnsObject (client_of self.old) }
        ensures { turn_of self.new result ≡ logs (client_of self.old) }
    {
        self.stage = Stage::Log(log(self.view(), self.object, self.expect, self.version));
        Step::Going
    }

    /// The slot is written.
    pub(crate) fn writes_slot(&mut self) -> Step
        requires ready { IsReadyUnder (client_of self.old) }
        requires view { IsView (view_of (client_of self.old)) }
        requires place { OwnsPlace (client_of self.old) }
        requires apart { IsApart (client_of self.old) }
        ensures { turn_of self.new result ≡ goes_to (client_of self.old) (stage.WriteSlot (slot_write_of
            (view_of (client_of self.old)) (slot_of (client_of self.old)) self.old.expect (fresh_of (client_of self.old)))) }
    {
        self.stage = Stage::WriteSlot {
            write: SlotWrite::new(self.view(), self.slot(), self.expect, self.fresh()),
            awaits: false,
        };
        Step::Going
    }

    /// The object and its link are written.
    pub(crate) fn writes_body(&mut self) -> Step
        requires ready { IsReadyUnder (client_of self.old) }
        requires view { IsView (view_of (client_of self.old)) }
        requires object { OwnsObject (client_of self.old) }
        requires class { IsOfClass (client_of self.old) }
        ensures { turn_of self.new result ≡ goes_to (client_of self.old) (stage.Body (write_body (client_of self.old))) }
    {
        let (view, link, kind) = (self.view(), self.link(), self.kind());
        let (key, value) = (self.key.as_slice(), self.value.as_slice());
        match &mut self.body {
            Some(write) => write.begin(view, self.object, link, kind, key, value),
            None => first_body(&mut self.body, view, self.object, link, kind, key, value),
        }
        self.stage = Stage::Body;
        Step::Going
    }
}

// The choosing of an object.
impl Caller {
    pub(crate) fn chooses_for(&mut self) -> Step
        requires ready { IsReadyUnder (client_of self.old) }
        requires view { IsView (view_of (client_of self.old)) }
        ensures { turn_of self.new result ≡ chooses_for (client_of self.old) (length self.old.value.items) }
    {
        self.class = self.class_for();
        self.chooses()
    }

    /// A new choosing begins.
    pub(crate) fn chooses(&mut self) -> Step
        requires ready { IsReadyUnder (client_of self.old) }
        requires view { IsView (view_of (client_of self.old)) }
        requires class { self.old.class < CLASSES }
        ensures { turn_of self.new result ≡ chooses (client_of self.old) }
    {
        let view = self.view();
        let took = self.stock.begin(view, self.class);
        self.on_took(took)
    }

    /// What a choosing tells.
    pub(crate) fn on_took(&mut self, took: Took) -> Step
        requires view { IsView (view_of (client_of self.old)) }
        requires class { self.old.class < CLASSES }
        requires taken { IsTaken self.old.shape self.old.class took }
        ensures { turn_of self.new result ≡ on_took (client_of self.old) self.old.stock took }
    {
        match took {
            Took::Going => {
                self.stage = Stage::Choose;
                Step::Going
            }
            Took::Have { object, next } => {
                self.object = object;
                self.reserve = next;
                self.stage = Stage::Clear(change(self.view(), object, self.class, false, false));
                Step::Going
            }
            Took::NoSpace {
                class,
                client,
                begin,
            } => self.ends(Outcome::NoSpace {
                class,
                client,
                begin,
            }),
            Took::Refused(node) => self.refused(node),
        }
    }

    /// The object's bit is cleared everywhere.
    pub(crate) fn cleared(&mut self) -> Step
        requires ready { IsReadyUnder (client_of self.old) }
        requires view { IsView (view_of (client_of self.old)) }
        requires object { OwnsObject (client_of self.old) }
        requires class { IsOfClass (client_of self.old) }
        requires reserve { names_object self.old.shape self.old.class self.old.reserve ≡ true }
        ensures { turn_of self.new result ≡ cleared (client_of self.old) }
    {
        self.stock.taken(self.class, self.reserve);
        self.writes_body()
    }
}

// What the first search of a get or of a delete comes to.
impl Caller {
    /// There is no value.
    pub(crate) fn absent(&mut self) -> Step
        ensures { turn_of self.new result ≡ ends (client_of self.old) (absent (client_of self.old).operation) }
    {
        match self.operation {
            Operation::Get => self.ends(Outcome::Absent),
            Operation::Put => self.ends(Outcome::Done),
            Operation::Delete => self.ends(Outcome::Done),
        }
    }

    /// The key was found, with an object of this kind and a value of this length.
    pub(crate) fn on_kind(&mut self, kind: Kind, word: u64, value_len: u32) -> Step
        requires ready { IsReadyUnder (client_of self.old) }
        requires view { IsView (view_of (client_of self.old)) }
        requires room { HasRoom self.old.shape word (length self.old.key.items) value_len }
        ensures { turn_of self.new result ≡ on_kind kind (client_of self.old) word value_len }
    {
        match (kind, self.operation) {
            (Kind::Tombstone, _) => self.absent(),
            (Kind::Value, Operation::Get) => self.fetches(word, value_len),
            (Kind::Value, Operation::Put) => self.chooses_for(),
            (Kind::Value, Operation::Delete) => self.chooses_for(),
        }
    }

    fn fetches(&mut self, word: u64, value_len: u32) -> Step
        requires ready { IsReadyUnder (client_of self.old) }
        requires view { IsView (view_of (client_of self.old)) }
        requires room { HasRoom self.old.shape word (length self.old.key.items) value_len }
        ensures { turn_of self.new result ≡ fetches (client_of self.old) word value_len }
    {
        if value_len == 0 {
            self.fetched.clear();
            return self.ends(Outcome::Value);
        }
        let (view, key_len) = (self.view(), self.key.len() as u32);
        match &mut self.reading {
            Some(reading) => reading.begin(view, word, key_len, value_len),
            None => first_reading(&mut self.reading, view, word, key_len, value_len),
        }
        self.stage = Stage::Fetch;
        Step::Going
    }
}

// What a slot write comes to.
impl Caller {
    /// The call's word was the slot's: the bit of the object that it replaced is set.
    pub(crate) fn won(&mut self) -> Step
        requires ready { IsReadyUnder (client_of self.old) }
        requires view { IsView (view_of (client_of self.old)) }
        ensures { turn_of self.new result ≡ won (client_of self.old) }
    {
        self.remember(self.place);
        match object_in(&self.shape, self.expect) {
            Some(object) => {
                self.outcome = Outcome::Done;
                self.stage = Stage::Free(change(
                    self.view(),
                    object.pointer,
                    object.class,
                    true,
                    false,
                ));
                Step::Going
            }
            None => self.ends(Outcome::Done),
        }
    }

    /// Another word was the slot's at the call's version.
    pub(crate) fn loses(&mut self) -> Step
        requires ready { IsReadyUnder (client_of self.old) }
        requires view { IsView (view_of (client_of self.old)) }
        requires place { OwnsPlace (client_of self.old) }
        ensures { turn_of self.new result ≡ is_beaten (client_of self.old) }
    {
        self.beaten = Some((self.slot(), self.version));
        self.gives_back(Outcome::Done)
    }

    /// The slot has this word, not the one expected.
    pub(crate) fn on_changed(&mut self, word: u64) -> Step
        requires ready { IsReadyUnder (client_of self.old) }
        requires view { IsView (view_of (client_of self.old)) }
        requires place { OwnsPlace (client_of self.old) }
        ensures { turn_of self.new result ≡ on_changed (client_of self.old) word }
    {
        if self.expect != 0 {
            return self.loses();
        }
        match candidate_in(&self.shape, self.key.as_slice(), word) {
            Some(object) => {
                self.stage = Stage::TestKey(KeyTest::new(
                    self.view(),
                    self.key.as_slice(),
                    object.pointer,
                    object.class,
                ));
                Step::Going
            }
            None => self.finds_on(),
        }
    }

    /// The search goes on behind the call's place.
    pub(crate) fn finds_on(&mut self) -> Step
        requires ready { IsReadyUnder (client_of self.old) }
        requires view { IsView (view_of (client_of self.old)) }
        requires place { OwnsPlace (client_of self.old) }
        ensures { turn_of self.new result ≡ finds_on (client_of self.old) }
    {
        let mut find = Find::new(self.view(), self.key.as_slice(), self.place);
        if find.pass() == Found::Nowhere {
            return self.gives_back(Outcome::Full);
        }
        self.stage = Stage::Find(find);
        Step::Going
    }
}

// A client's first reading and first writing are made in functions of their own, since they are large:
// where all of them are made, the memory of one that is made would be cleared each time.

#[inline(never)]
fn first_reading(
    reading: &mut Option<ReadValue>,
    view: View,
    word: u64,
    key_len: u32,
    value_len: u32,
)
    requires object { HasRoom view.shape word key_len value_len }
    requires some { 1 ≤ value_len }
    ensures { reading.new ≡ Some (value_read_of view (pointer_in word) key_len value_len) }
{
    *reading = Some(value(view, word, key_len, value_len));
}

#[inline(never)]
fn first_body(
    write: &mut Option<ObjectWrite>,
    view: View,
    object: u32,
    link: Link,
    kind: Kind,
    key: &[u8],
    value: &[u8],
)
    requires key { IsKeyLength (length key.now) }
    requires value { length value.now ≤ LONGEST }
    requires object { names_object view.shape
        (class_in (length key.now) (length value.now)) object ≡ true }
    ensures { write.new ≡ Some (words_write_of view object (body_of kind key.now value.now link)) }
{
    *write = Some(body(view, object, link, kind, key, value));
}
