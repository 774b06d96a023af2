ghost use Rattle.std.specs.Prelude.{◌≡◌, IfOk};

use crate::calls::{Call, Reply};
use std::alloc::AllocError;

/// One call of a history, in its place: what the map was asked and what it answered.
#[derive(Debug, Drop)]
pub struct Entry {
    pub client: u32,
    /// Which of the client's calls this is.
    pub number: u32,
    pub call: Call,
    pub reply: Reply,
    /// Whether the client got the reply. A call that is still open may have taken effect or not.
    pub returned: bool,
}

impl Entry {
    /// An equal value with memory of its own.
    pub fn copy(&self) -> Result<Self, AllocError>
        ensures { IfOk result (λ copy. copy ≡ self.now) }
    {
        Ok(Entry {
            client: self.client,
            number: self.number,
            call: self.call.copy()?,
            reply: self.reply.copy()?,
            returned: self.returned,
        })
    }
}
