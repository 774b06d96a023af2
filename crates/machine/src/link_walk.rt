/// What a step of a walk along a client's links tells.
#[derive(Clone, Copy, Debug, PartialEq, Eq)]
pub enum Walked {
    Going,
    /// The walk is at its end: the client's last linked object of the class, as a pointer, with the
    /// number of the call that linked it; and the class's reserve, as a pointer.
    End {
        last: Option<(u32, u32)>,
        reserve: Option<u32>,
    },
    /// The verb's node is lost; its number.
    Refused(u32),
}
