/// What a step of a choosing tells.
#[derive(Clone, Copy, Debug, PartialEq, Eq)]
pub enum Took {
    Going,
    /// The object to write, which is the reserve, and the reserve after it; both are pointers.
    Have { object: u32, next: u32 },
    /// No object of the class is left: the first client that is awaited and its begin word, or
    /// zeros where none is awaited.
    NoSpace { class: u8, client: u32, begin: u64 },
    /// The verb's node is lost; its number.
    Refused(u32),
}
