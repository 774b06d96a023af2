ghost use Rattle.std.specs.Prelude.{◌≡◌, IfOk};

use smallvec::SmallVec;
use std::alloc::{AllocError, Global};
use std::marker::Model;

/// How many bytes are kept in place, with no memory of their own.
const SHORT: usize = 16;

/// A key or a value in a text: some bytes.
#[derive(Debug, Drop)]
pub struct Text {
    bytes: SmallVec<u8, SHORT>,
}

impl Model for Text {
    ghost use Rattle.std.specs.Prelude.{List, ℕ};

    ghost Value = { List ℕ };

    ghost view = { λ text. text.bytes.items };
}

impl Text {
    pub fn of_vec(bytes: Vec<u8>) -> Text
        ensures { result ≡ bytes.items }
    {
        Text {
            bytes: SmallVec::from_vec(bytes),
        }
    }

    /// The same bytes as a slice has.
    pub fn of_slice(alloc: Global, bytes: &[u8]) -> Result<Text, AllocError>
        ensures { IfOk result (λ text. text ≡ bytes.now) }
    {
        Ok(Text {
            bytes: SmallVec::from_slice(alloc, bytes)?,
        })
    }

    pub fn as_slice(&self) -> &[u8]
        ensures { result.now ≡ self.now }
    {
        self.bytes.as_slice()
    }
}
