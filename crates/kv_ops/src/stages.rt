use key_test::KeyTest;
use kv_find::Find;
use kv_write::{LogWrite, Resolve};
use object_alloc::BitChange;
use snapshot_write::SlotWrite;

/// Where a call that was interrupted goes on, once an epoch is open.
#[derive(Clone, Copy, Debug, PartialEq, Eq)]
pub(crate) enum Kept {
    /// At its beginning.
    Start,
    /// With its first search.
    Seek,
    /// With a choosing.
    Choose,
    /// With the clearing of its object's bit.
    Clear,
    /// With the writing of its object.
    Body,
    /// With the search for the slot to write.
    Find,
    /// With finding out how its slot write went.
    Resolve,
    /// With the setting of the replaced object's bit.
    Free,
    /// With the setting of its own object's bit.
    Return,
}

/// What a client does next. The reading of a value and the writing of an object stand beside it, since
/// they are large; without one of them its stage is no other than `Idle`.
#[derive(Drop)]
pub(crate) enum Stage {
    /// Nothing: it is between calls.
    Idle,
    /// Writes its begin word odd.
    Start,
    /// Reads the epoch word for the first time in the call.
    ReadEpoch,
    /// Writes a sealed epoch word as its pause word.
    Pause { word: u64, kept: Kept },
    /// Reads the epoch word until it is another one.
    Paused { word: u64, kept: Kept },
    /// Reads the epoch word after this node was found lost.
    LostNode { node: u32, kept: Kept },
    /// Looks for the key of a get or of a delete.
    Seek(Find),
    /// Goes on with the reading of the value.
    Fetch,
    /// Chooses an object.
    Choose,
    /// Clears the object's bit.
    Clear(BitChange),
    /// Goes on with the writing of the object and its link.
    Body,
    /// Looks for the slot to write.
    Find(Find),
    /// Reads the version of the object that this slot word names.
    ReadVersion(u64),
    /// Writes into the object what it is to replace, and its version.
    Log(LogWrite),
    /// Writes the slot, or reads the epoch word while another writer's round goes on.
    WriteSlot { write: SlotWrite, awaits: bool },
    /// Tests the key of an object that another writer put into the slot.
    TestKey(KeyTest),
    /// Finds out how an interrupted slot write went.
    Resolve(Resolve),
    /// Sets the bit of the object that was replaced.
    Free(BitChange),
    /// Sets the bit of its own object, which did not come to be used.
    Return(BitChange),
    /// Writes its begin word even.
    End,
}
