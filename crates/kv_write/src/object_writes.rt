ghost use Rattle.std.specs.Prelude.{◌≡◌, ◌↔◌, ℕ, ◌+◌, ◌<◌, ◌≤◌, [], ◌∷◌, true, length};
ghost use Rattle.kv_write.specs.Writes.{IsLast, IsObjectPointer, content_of};
ghost use Rattle.machine.specs.ObjectNames.{names_object};
ghost use Rattle.machine.specs.Places.{IsInPool};
ghost use Rattle.machine.specs.WordsWrite.{body_of, log_of, next, present_piece, turn, words_write_of};
ghost use Rattle.machine.specs.declared.object_write.Written.TheVariants.{Refused, Whole};
ghost use Rattle.object_form.specs.Class.{IsKeyLength, class_in};
ghost use Rattle.object_form.specs.declared.classes.TheConstants.{LONGEST};
ghost use Rattle.verb_words.specs.Verb.{place_of};
ghost use Rattle.verb_words.specs.declared.verbs.Answer.TheVariants.{Done, Lost};

use crate::course::Course;
use arrayvec::ArrayVec;
use machine::object_write::Written;
use object_form::{Kind, Link, Meta, OBJECT_WORDS, link_word, meta_word, padded};
use region_view::View;
use std::marker::Model;
use verb_words::{Answer, Verb};

/// The writing of a whole object: its words from word 1 on, and then its link.
#[derive(Debug, Drop)]
pub struct ObjectWrite {
    course: Course,
    /// The object's words from word 1 on.
    content: ArrayVec<u64, OBJECT_WORDS>,
    link: u64,
}

impl Model for ObjectWrite {
    ghost use Rattle.machine.specs.WordsWrite.{WordsWrite};
    ghost use Rattle.kv_write.specs.Writes.{IsObjectWrite, object_write_of};

    ghost Value = { WordsWrite };

    ghost view = { λ w. object_write_of w.course w.content.items w.link };

    ghost invariant = { λ w. IsObjectWrite (object_write_of w.course w.content.items w.link)
        w.content.items };
}

/// The writing of an object and its link: the meta word, the version and the expected word, which
/// are 0 yet, the key and the value, and then the link.
///
/// The pointer `object` names an object of the class that `class_for` gives for the lengths of the
/// key and the value.
pub fn body(
    view: View,
    object: u32,
    link: Link,
    kind: Kind,
    key: &[u8],
    value: &[u8],
) -> ObjectWrite
    requires key { IsKeyLength (length key.now) }
    requires value { length value.now ≤ LONGEST }
    requires object { names_object view.shape
        (class_in (length key.now) (length value.now)) object ≡ true }
    ensures { result ≡ words_write_of view object (body_of kind key.now value.now link) }
{
    let mut content = ArrayVec::new();
    fill(&mut content, kind, key, value);
    ObjectWrite {
        course: Course::new(view, object),
        content,
        link: link_word(link),
    }
}

// Puts the words of an object from word 1 on in place of others.
fn fill(content: &mut ArrayVec<u64, OBJECT_WORDS>, kind: Kind, key: &[u8], value: &[u8])
    requires key { IsKeyLength (length key.now) }
    requires value { length value.now ≤ LONGEST }
    ensures { content.new.items ≡ content_of kind key.now value.now }
{
    content.clear();
    content.push(meta_word(Meta {
        kind,
        key_len: key.len() as u32,
        value_len: value.len() as u32,
    }));
    content.push(0);
    content.push(0);
    padded(key, content);
    padded(value, content);
}

impl ObjectWrite {
    /// Begins anew, in the same memory, as the writing that `body` makes.
    pub fn begin(
        &mut self,
        view: View,
        object: u32,
        link: Link,
        kind: Kind,
        key: &[u8],
        value: &[u8],
    )
        requires key { IsKeyLength (length key.now) }
        requires value { length value.now ≤ LONGEST }
        requires object { names_object view.shape
            (class_in (length key.now) (length value.now)) object ≡ true }
        ensures { self.new ≡ words_write_of view object (body_of kind key.now value.now link) }
    {
        self.course = Course::new(view, object);
        fill(&mut self.content, kind, key, value);
        self.link = link_word(link);
    }

    /// The verb that is due.
    #[inline(always)]
    pub fn next(&self) -> Verb
        ensures verb { result ≡ next self.now }
        ensures inside { IsInPool self.now.view.shape (place_of result) }
    {
        let (word, written) = self.present();
        Verb::Write(self.course.place(word), written)
    }

    // The number of the word that is due, and what is written there.
    #[inline(always)]
    fn present(&self) -> (u32, u64)
        ensures { result ≡ present_piece self.now }
    {
        let piece = self.course.piece();
        if piece < self.content.len() {
            (1 + piece as u32, self.content[piece])
        } else {
            (0, self.link)
        }
    }

    /// Takes the answer to the verb that was due, and tells whether all words stand everywhere.
    #[inline(always)]
    pub fn after(&mut self, answer: Answer) -> Written
        ensures state { self.new ≡ (turn self.old answer).state }
        ensures told { result ≡ (turn self.old answer).told }
        ensures whole { (result ≡ Whole) ↔ ((answer ≡ Done) × IsLast self.old) }
        ensures refused { (node : ℕ) → (result ≡ Refused node)
            ↔ ((answer ≡ Lost) × (node ≡ (place_of (next self.old)).node)) }
    {
        match answer {
            Answer::Word(_) => Written::Going,
            Answer::Done => self.course.go_on(self.content.len() + 1),
            Answer::Lost => Written::Refused(self.next().place().node),
        }
    }
}

/// The writing of an object's version, or of what it is to replace and then its version.
#[derive(Debug, Drop)]
pub struct LogWrite {
    course: Course,
    /// The numbers of the words, and what is written there.
    pieces: ArrayVec<(u32, u64), 2>,
}

impl Model for LogWrite {
    ghost use Rattle.kv_write.specs.Courses.{write_on};
    ghost use Rattle.machine.specs.WordsWrite.{IsWordsWrite, WordsWrite};

    ghost Value = { WordsWrite };

    ghost view = { λ w. write_on w.course w.pieces.items };

    ghost invariant = { λ w. IsWordsWrite w.course.view (write_on w.course w.pieces.items) };
}

/// The writing of the slot word `expect` that an object is to replace, into word 3 of the object, and
/// then of the object's version, into word 2.
pub fn log(view: View, object: u32, expect: u64, version: u64) -> LogWrite
    requires { IsObjectPointer view.shape object }
    ensures { result ≡ words_write_of view object (log_of expect version) }
{
    let mut pieces = ArrayVec::new();
    pieces.push((3, expect));
    pieces.push((2, version));
    LogWrite {
        course: Course::new(view, object),
        pieces,
    }
}

/// The writing of version 0, so that no replica can show a version of the object later.
pub fn erase(view: View, object: u32) -> LogWrite
    requires { IsObjectPointer view.shape object }
    ensures { result ≡ words_write_of view object ((2, 0) ∷ []) }
{
    let mut pieces = ArrayVec::new();
    pieces.push((2, 0));
    LogWrite {
        course: Course::new(view, object),
        pieces,
    }
}

impl LogWrite {
    /// The verb that is due.
    #[inline(always)]
    pub fn next(&self) -> Verb
        ensures verb { result ≡ next self.now }
        ensures inside { IsInPool self.now.view.shape (place_of result) }
    {
        let (word, written) = self.present();
        Verb::Write(self.course.place(word), written)
    }

    // The number of the word that is due, and what is written there.
    #[inline(always)]
    fn present(&self) -> (u32, u64)
        ensures { result ≡ present_piece self.now }
    {
        self.pieces[self.course.piece()]
    }

    /// Takes the answer to the verb that was due, and tells whether the words stand everywhere.
    #[inline(always)]
    pub fn after(&mut self, answer: Answer) -> Written
        ensures state { self.new ≡ (turn self.old answer).state }
        ensures told { result ≡ (turn self.old answer).told }
        ensures whole { (result ≡ Whole) ↔ ((answer ≡ Done) × IsLast self.old) }
        ensures refused { (node : ℕ) → (result ≡ Refused node)
            ↔ ((answer ≡ Lost) × (node ≡ (place_of (next self.old)).node)) }
    {
        match answer {
            Answer::Word(_) => Written::Going,
            Answer::Done => self.course.go_on(self.pieces.len()),
            Answer::Lost => Written::Refused(self.next().place().node),
        }
    }
}
