ghost use Rattle.std.specs.Prelude.{◌≡◌};
ghost use Rattle.script_text.specs.declared.faults.ScriptFault.TheVariants.{NoMemory};

use std::alloc::{AllocError, AllocFailed};

/// What is wrong with a line, in the order in which it is tested.
#[derive(Clone, Copy, Debug, PartialEq, Eq)]
pub enum BadKind {
    /// A byte outside 20 to 7e.
    Byte,
    /// The first line that is not skipped is no shape line.
    NoShape,
    /// A fixed word is none of those due at its place.
    Word,
    /// There are too few words, or too many.
    Count,
    /// A word is no number where one is due.
    Number,
    /// A word is no bytes, or no word of 16 digits, where one is due.
    Hex,
    /// A size is out of its limits, or a second shape line.
    Shape,
    /// A line stands where no such line may stand in an output.
    Block,
}

/// Why a text is not read.
#[derive(Clone, Copy, Debug, PartialEq, Eq)]
pub enum ScriptFault {
    /// The first line that is bad, counted from 1, and what is wrong with it.
    BadLine { number: u32, kind: BadKind },
    NoMemory,
}

impl From<AllocError> for ScriptFault {
    ghost from_gives = { λ _ fault. fault ≡ NoMemory };

    fn from(_error: AllocError) -> ScriptFault {
        ScriptFault::NoMemory
    }
}

impl<T: Drop> From<AllocFailed<T>> for ScriptFault {
    ghost from_gives = { λ _ fault. fault ≡ NoMemory };

    fn from(_error: AllocFailed<T>) -> ScriptFault {
        ScriptFault::NoMemory
    }
}
