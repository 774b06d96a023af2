/// What a step of a replicated slot write tells.
#[derive(Clone, Copy, Debug, PartialEq, Eq)]
pub enum Wrote {
    Going,
    /// The word stands on every replica, and was put on the primary by this write.
    Won,
    /// The primary was read as this word, which is not the expected one.
    Changed(u64),
    /// The backups' words name another writer, and the primary was read as the expected word, this.
    Unchanged(u64),
    /// The verb's node is lost; its number.
    Refused(u32),
}
