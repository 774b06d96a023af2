ghost use Rattle.std.specs.Prelude.{◌≡◌, ◌+◌, ◌*◌, ◌^◌, ◌<◌, ◌≤◌};
ghost use Rattle.kv_write.specs.Courses.{course_of, gone_on, written_as};
ghost use Rattle.machine.specs.EpochRead.{IsView};
ghost use Rattle.machine.specs.Places.{IsInPool, object_word, written_place};
ghost use Rattle.object_form.specs.declared.classes.TheConstants.{OBJECT_WORDS};
ghost use Rattle.pointer_fields.specs.Pointer.{region_of, unit_of};
ghost use Rattle.region_view.specs.Layout.{HasWord};

use arrayvec::ArrayVec;
use machine::object_write::Written;
use object_form::{region_of, unit_of};
use region_view::{View, word_places};
use std::marker::Model;
use verb_words::Place;

/// How far the writing of some words of an object has come: each word goes to every replica before
/// the next, to the backups in order and to the primary last.
#[derive(Debug, Drop)]
pub(crate) struct Course {
    view: View,
    object: u32,
    /// Node and position of the object's first word on each replica, the primary's first.
    places: ArrayVec<(u32, u32), 5>,
    piece: usize,
    replica: usize,
}

impl Model for Course {
    ghost use Rattle.kv_write.specs.Courses.{Course, IsCourse};

    ghost Value = { Course };

    ghost view = { λ c. record { view = c.view; pointer = c.object; piece = c.piece; replica = c.replica } };

    ghost invariant = { λ c. IsCourse
        (record { view = c.view; pointer = c.object; piece = c.piece; replica = c.replica })
        c.places.items };
}

impl Course {
    /// The course from the first word and the first replica on.
    pub(crate) fn new(view: View, object: u32) -> Course
        requires has { HasWord view.shape (object_word object 0) }
        requires small { object < 2 ^ 28 }
        ensures course { result ≡ course_of view object }
        ensures view { IsView view }
    {
        // The sizes are read, so that they are known to be within their limits.
        prove!(unit_of(object) < 16 + 64 * view.shape.blocks);
        let places = word_places(&view, region_of(object), 8 * unit_of(object));
        Course {
            view,
            object,
            places,
            piece: 0,
            replica: 0,
        }
    }

    /// The number of the word that is due, among those that are written.
    #[inline(always)]
    pub(crate) fn piece(&self) -> usize
        ensures { result ≡ self.now.piece }
    {
        self.piece
    }

    /// Where the object's word `word` goes now.
    #[inline(always)]
    pub(crate) fn place(&self, word: u32) -> Place
        requires word { word < OBJECT_WORDS }
        requires has { HasWord self.now.view.shape (object_word self.now.pointer word) }
        ensures place { result ≡ written_place self.now.view
            (object_word self.now.pointer word) self.now.replica }
        ensures inside { IsInPool self.now.view.shape result }
    {
        let (node, at) = self.places[written_as(self.replica, self.places.len())];
        Place {
            node,
            at: at + word,
        }
    }

    /// Goes on after a write, where `count` words are written.
    #[inline(always)]
    pub(crate) fn go_on(&mut self, count: usize) -> Written
        requires { self.old.piece < count }
        ensures state { self.new ≡ (gone_on self.old count).state }
        ensures told { result ≡ (gone_on self.old count).told }
    {
        if self.replica + 1 < self.places.len() {
            self.replica += 1;
            return Written::Going;
        }
        if self.piece + 1 < count {
            self.piece += 1;
            self.replica = 0;
            return Written::Going;
        }
        Written::Whole
    }
}

// Which of `count` replicas, the primary being 0, is written as number `turn`: the backups in order,
// and the primary last.
fn written_as(turn: usize, count: usize) -> usize
    requires { turn < count }
    ensures { result ≡ written_as turn count }
{
    if turn + 1 < count { turn + 1 } else { 0 }
}
