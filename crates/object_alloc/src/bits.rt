ghost use Rattle.std.specs.Prelude.{◌≡◌, ◌↔◌, ℕ, ◌<◌, true};
ghost use Rattle.machine.specs.BitChange.{amount, bit_change_of, bit_number, bitmap_place, first_phase, is_as_wanted, next, on_replica, turn, turn_at};
ghost use Rattle.machine.specs.ObjectNames.{names_object};
ghost use Rattle.machine.specs.Places.{IsInPool};
ghost use Rattle.machine.specs.declared.bit_change.Changed.TheVariants.{Refused};
ghost use Rattle.object_alloc.specs.Bits.{phase_of};
ghost use Rattle.object_form.specs.declared.classes.TheConstants.{CLASSES};
ghost use Rattle.verb_words.specs.Verb.{place_of};
ghost use Rattle.verb_words.specs.declared.verbs.Answer.TheVariants.{Lost};

use crate::places::{Part, block_places, written_replica};
use arrayvec::ArrayVec;
use machine::bit_change::Changed;
use object_form::{block_at, object_at, region_of};
use region_view::View;
use std::marker::Model;
use verb_words::{Answer, Place, Verb};

/// What a change does next.
#[derive(Clone, Copy, Debug)]
pub(crate) enum Phase {
    /// Reads the bitmap.
    Look,
    /// Adds to the bitmap.
    Change,
}

/// The setting or clearing of an object's bit in its block's bitmap on each replica, the primary
/// last.
#[derive(Debug, Drop)]
pub struct BitChange {
    view: View,
    pointer: u32,
    class: u8,
    set: bool,
    /// Whether each bitmap is read before, and left as it is where the bit is as it is wanted.
    look: bool,
    /// The bitmap's place on each replica, the primary's first.
    places: ArrayVec<(u32, u32), 5>,
    /// How many replicas are done.
    replica: usize,
    phase: Phase,
}

impl Model for BitChange {
    ghost use Rattle.machine.specs.BitChange.{BitChange};
    ghost use Rattle.object_alloc.specs.Bits.{IsHeld, change_of};

    ghost Value = { BitChange };

    ghost view = { λ c. change_of c.view c.pointer c.class c.set c.look c.replica c.phase };

    ghost invariant = { λ c. IsHeld
        (change_of c.view c.pointer c.class c.set c.look c.replica c.phase) c.places.items };
}

/// A change of the bit of the object of this class that the pointer names: it is set, or it is
/// cleared. With `look` each bitmap is read first.
pub fn change(view: View, pointer: u32, class: u8, set: bool, look: bool) -> BitChange
    requires class { class < CLASSES }
    requires named { names_object view.shape class pointer ≡ true }
    ensures { result ≡ bit_change_of view (record { pointer = pointer; class = class }) set look }
{
    prove!(view.shape.regions > 0);
    let places = block_places(&view, Part::Bitmap, region_of(pointer), block_at(pointer));
    BitChange {
        view,
        pointer,
        class,
        set,
        look,
        places,
        replica: 0,
        phase: first_phase(look),
    }
}

fn first_phase(look: bool) -> Phase
    ensures { phase_of result ≡ first_phase look }
{
    if look { Phase::Look } else { Phase::Change }
}

impl BitChange {
    /// The verb that is due.
    pub fn next(&self) -> Verb
        ensures verb { result ≡ next self.now }
        ensures inside { IsInPool self.now.view.shape (place_of result) }
    {
        let place = self.place();
        match self.phase {
            Phase::Look => Verb::Read(place),
            Phase::Change => Verb::Add(place, self.amount()),
        }
    }

    fn place(&self) -> Place
        ensures place { result ≡ bitmap_place self.now }
        ensures inside { IsInPool self.now.view.shape result }
    {
        let replica = written_replica(self.replica, self.places.len());
        let (node, at) = self.places[replica];
        Place { node, at }
    }

    fn number(&self) -> u32
        ensures number { result ≡ bit_number self.now }
        ensures small { result < 64 }
    {
        object_at(self.pointer, self.class)
    }

    fn amount(&self) -> u64
        ensures { result ≡ amount self.now.set (bit_number self.now) }
    {
        let bit = 1u64 << self.number();
        if self.set { bit } else { bit.wrapping_neg() }
    }

    /// Takes the answer to the verb that was due.
    pub fn after(&mut self, answer: Answer) -> Changed
        ensures state { self.new ≡ (turn self.old answer).state }
        ensures told { result ≡ (turn self.old answer).told }
        ensures refused { (node : ℕ) → (result ≡ Refused node)
            ↔ ((answer ≡ Lost) × (node ≡ (place_of (next self.old)).node)) }
    {
        match answer {
            Answer::Word(found) => self.take(found),
            Answer::Done => Changed::Going,
            Answer::Lost => Changed::Refused(self.next().place().node),
        }
    }

    fn take(&mut self, found: u64) -> Changed
        ensures state { self.new ≡ (turn_at self.old.phase self.old found).state }
        ensures told { result ≡ (turn_at self.old.phase self.old found).told }
    {
        match self.phase {
            Phase::Look if !self.is_as_wanted(found) => {
                self.phase = Phase::Change;
                Changed::Going
            }
            Phase::Look | Phase::Change => self.go_on(),
        }
    }

    fn is_as_wanted(&self, found: u64) -> bool
        ensures { result ≡ is_as_wanted self.now found }
    {
        let is_set = (found >> self.number()) % 2 == 1;
        if self.set { is_set } else { !is_set }
    }

    // Goes on with the next replica, as this one is as it is wanted.
    fn go_on(&mut self) -> Changed
        ensures state { self.new ≡ (on_replica self.old).state }
        ensures told { result ≡ (on_replica self.old).told }
    {
        let count = self.places.len();
        if self.replica + 1 < count {
            self.replica += 1;
            self.phase = first_phase(self.look);
            Changed::Going
        } else {
            Changed::Whole
        }
    }
}
