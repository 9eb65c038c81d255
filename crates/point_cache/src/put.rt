/// What became of a point that was put.
#[derive(Clone, Copy, Debug, PartialEq, Eq)]
pub enum Put {
    /// The metric had no pending point at this time, and has one now.
    Stored,
    /// The metric had a pending point at this time, whose value is the new one now.
    Replaced,
    /// The cache holds as many points as it may: nothing changed.
    Full,
    /// Memory ran out: nothing changed.
    NoMemory,
}
