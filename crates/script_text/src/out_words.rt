//! The words of an output line, read from its front.

ghost use Rattle.std.specs.Prelude.{◌≡◌, [], ◌∷◌, IfOk, MatchOption, None, OnOk, Some};
ghost use Rattle.text_lines.specs.Words.{words_of};
ghost use Rattle.script_text.specs.OutputForm.{are_over, left_fault};
ghost use Rattle.script_text.specs.OutputPlace.{ActorDue, AnswerDue, AnyWords, BytesDue, Exactly, NumberDue, WordDue, actor_in, actor_of, answer_in, answer_of, bytes_in, first_fault, first_kind, number_in, past, rank, word_in};
ghost use Rattle.script_text.specs.declared.faults.BadKind.TheVariants as kind;

use crate::byte_text::Text;
use crate::faults::BadKind;
use crate::word_values::{bytes_of, word_of};
use std::alloc::{AllocError, Global};
use std::marker::Model;
use text_lines::{next_word, number_of};

/// The words of a line that are left, and the first kind of fault of those before them. Each of the
/// methods that read a word notes the fault of a word that is not what is due, and answers a value
/// of no account in its place.
#[derive(Drop)]
pub(crate) struct LineWords<'a> {
    rest: &'a [u8],
    fault: Option<BadKind>,
}

impl<'a> Model for LineWords<'a> {
    ghost use Rattle.text_lines.specs.Words.{words_of};
    ghost use Rattle.script_text.specs.OutputPlace.{Reading};

    ghost Value = { Reading };

    ghost view = { λ line. record { words = words_of line.rest.now; fault = line.fault } };
}

impl<'a> LineWords<'a> {
    pub(crate) fn new(rest: &'a [u8]) -> LineWords<'a>
        ensures words { result.words ≡ words_of rest.now }
        ensures fault { result.fault ≡ None }
    {
        LineWords { rest, fault: None }
    }

    pub(crate) fn note(&mut self, kind: BadKind)
        ensures words { self.new.words ≡ self.old.words }
        ensures fault { self.new.fault ≡ first_fault self.old.fault (Some kind) }
    {
        self.fault = match self.fault {
            None => Some(kind),
            Some(first) => Some(first_kind(first, kind)),
        };
    }

    /// The next word. That there is none is a fault.
    pub(crate) fn next(&mut self) -> Option<&'a [u8]>
        ensures { MatchOption result
            ((self.old.words ≡ []) × (self.new ≡ record { words = []; fault = first_fault self.old.fault (Some kind.Count) }))
            (λ word. (self.old.words ≡ word.now ∷ self.new.words) × (self.new.fault ≡ self.old.fault)) }
    {
        match next_word(self.rest) {
            Some((word, rest)) => {
                self.rest = rest;
                Some(word)
            }
            None => {
                self.note(BadKind::Count);
                None
            }
        }
    }

    /// Whether no word is left.
    pub(crate) fn is_over(&self) -> bool
        ensures { result ≡ are_over self.now.words }
    {
        match next_word(self.rest) {
            Some(_) => false,
            None => true,
        }
    }

    /// The first kind of fault, where a word that is left is one too many.
    pub(crate) fn end(&self) -> Option<BadKind>
        ensures { result ≡ first_fault self.now.fault (left_fault self.now.words) }
    {
        if next_word(self.rest).is_none() {
            return self.fault;
        }
        match self.fault {
            None => Some(BadKind::Count),
            Some(first) => Some(first_kind(first, BadKind::Count)),
        }
    }

    /// The words that are left, which are no fault.
    pub(crate) fn take_rest(&mut self) -> &'a [u8]
        ensures rest { words_of result.now ≡ self.old.words }
        ensures past { self.new ≡ past AnyWords self.old }
    {
        let rest = self.rest;
        self.rest = &[];
        rest
    }

    pub(crate) fn number(&mut self) -> u32
        ensures past { self.new ≡ past NumberDue self.old }
        ensures value { result ≡ number_in self.old.words }
    {
        let Some(word) = self.next() else {
            return 0;
        };
        match number_of(word) {
            Some(number) => number,
            None => {
                self.note(BadKind::Number);
                0
            }
        }
    }

    pub(crate) fn actor(&mut self) -> Option<u32>
        ensures past { self.new ≡ past ActorDue self.old }
        ensures value { result ≡ actor_in self.old.words }
    {
        let word = self.next()?;
        match actor_of(word) {
            Some(actor) => actor,
            None => {
                self.note(BadKind::Number);
                None
            }
        }
    }

    pub(crate) fn word(&mut self) -> u64
        ensures past { self.new ≡ past WordDue self.old }
        ensures value { result ≡ word_in self.old.words }
    {
        let Some(word) = self.next() else {
            return 0;
        };
        match word_of(word) {
            Some(word) => word,
            None => {
                self.note(BadKind::Hex);
                0
            }
        }
    }

    pub(crate) fn answer(&mut self) -> Option<u64>
        ensures past { self.new ≡ past AnswerDue self.old }
        ensures value { result ≡ answer_in self.old.words }
    {
        let word = self.next()?;
        match answer_of(word) {
            Some(answer) => answer,
            None => {
                self.note(BadKind::Hex);
                None
            }
        }
    }

    pub(crate) fn bytes(&mut self, alloc: Global) -> Result<Text, AllocError>
        ensures past { OnOk result (self.new ≡ past BytesDue self.old) }
        ensures value { IfOk result (λ bytes. bytes ≡ bytes_in self.old.words) }
    {
        let Some(word) = self.next() else {
            return Ok(Text::of_vec(Vec::new(alloc)));
        };
        match bytes_of(alloc, word)? {
            Some(bytes) => Ok(bytes),
            None => {
                self.note(BadKind::Hex);
                Ok(Text::of_vec(Vec::new(alloc)))
            }
        }
    }

    /// Reads a word that has to be this one.
    pub(crate) fn exactly(&mut self, due: &[u8])
        ensures { self.new ≡ past (Exactly due.now) self.old }
    {
        if let Some(word) = self.next() {
            if word != due {
                self.note(BadKind::Word);
            }
        }
    }
}

fn actor_of(word: &[u8]) -> Option<Option<u32>>
    ensures { result ≡ actor_of word.now }
{
    if word == b"m".as_slice() {
        return Some(None);
    }
    match number_of(word) {
        Some(client) => Some(Some(client)),
        None => None,
    }
}

fn answer_of(word: &[u8]) -> Option<Option<u64>>
    ensures { result ≡ answer_of word.now }
{
    if word == b"lost".as_slice() {
        return Some(None);
    }
    match word_of(word) {
        Some(answer) => Some(Some(answer)),
        None => None,
    }
}

fn first_kind(first: BadKind, second: BadKind) -> BadKind
    ensures { result ≡ first_kind first second }
{
    if rank(second) < rank(first) {
        second
    } else {
        first
    }
}

fn rank(kind: BadKind) -> u8
    ensures { result ≡ rank kind }
{
    match kind {
        BadKind::Byte => 0,
        BadKind::NoShape => 1,
        BadKind::Word => 2,
        BadKind::Count => 3,
        BadKind::Number => 4,
        BadKind::Hex => 5,
        BadKind::Shape => 6,
        BadKind::Block => 7,
    }
}
