/// How the drain of all that is pending ended.
#[derive(Clone, Copy, Debug, PartialEq, Eq)]
pub enum DrainEnd {
    /// This many metrics were drained.
    Done(u64),
    /// The disk of this class failed.
    DiskFault(u32),
    /// The pass has not the room that a call needs.
    Spent,
    /// There was no memory.
    NoMemory,
}

/// What ends the drain of all that is pending before it is done.
#[derive(Clone, Copy, Debug, PartialEq, Eq)]
pub(crate) enum Stop {
    /// The disk of the class failed.
    DiskFault,
    /// The pass has not the room that a call needs.
    Spent,
    /// There was no memory.
    NoMemory,
}
