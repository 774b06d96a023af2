ghost use Rattle.std.specs.Prelude.{◌≡◌};

/// A word's place.
#[derive(Clone, Copy, Debug, PartialEq, Eq)]
pub struct Place {
    /// The memory node; 0 is the control node.
    pub node: u32,
    /// The word's position on its node, in words from 0.
    pub at: u32,
}

/// One verb on one 8-byte word.
///
/// `Swap` and `Add` are the atomic verbs of FUSEE (FAST 2023): they act on one 8-byte word and
/// return the word that stood there before.
#[derive(Clone, Copy, Debug, PartialEq, Eq)]
pub enum Verb {
    /// Answers the word.
    Read(Place),
    /// Stores the word given, and answers `Done`.
    Write(Place, u64),
    /// Stores `fresh` exactly where the word is `expect`, and answers the word that stood there
    /// before: the swap took place exactly where the answer is `expect`.
    Swap {
        place: Place,
        expect: u64,
        fresh: u64,
    },
    /// Adds to the word, modulo 2^64, and answers the word that stood there before.
    Add(Place, u64),
}

/// What a verb answers.
#[derive(Clone, Copy, Debug, PartialEq, Eq)]
pub enum Answer {
    /// The word that the verb found at its place.
    Word(u64),
    /// The word is written.
    Done,
    /// The node is lost, and the verb did nothing.
    Lost,
}

/// Why a call is not done yet.
#[derive(Clone, Copy, Debug, PartialEq, Eq)]
pub enum Why {
    /// The epoch word is sealed; the word that was read.
    Sealed(u64),
    /// A node is lost; its number.
    Lost(u32),
    /// A slot still has the word that is to be replaced.
    Unchanged { slot: u32, word: u64 },
}

impl Verb {
    ghost use Rattle.verb_words.specs.Verb.{place_of, word_after, answer_of};

    /// The place that the verb goes to.
    pub fn place(&self) -> Place
        ensures { result ≡ place_of self.now }
    {
        match *self {
            Verb::Read(place) | Verb::Write(place, _) | Verb::Add(place, _) => place,
            Verb::Swap { place, .. } => place,
        }
    }

    /// The word that the verb leaves at its place, where it finds `found`.
    pub fn word_after(&self, found: u64) -> u64
        ensures { result ≡ word_after self.now found }
    {
        match *self {
            Verb::Read(_) => found,
            Verb::Write(_, word) => word,
            Verb::Swap { expect, fresh, .. } => { if found == expect { fresh } else { found } }
            Verb::Add(_, more) => found.wrapping_add(more),
        }
    }

    /// What the verb answers, where it finds `found`.
    pub fn answer(&self, found: u64) -> Answer
        ensures { result ≡ answer_of self.now found }
    {
        match *self {
            Verb::Write(..) => Answer::Done,
            Verb::Read(_) | Verb::Swap { .. } | Verb::Add(..) => Answer::Word(found),
        }
    }
}
