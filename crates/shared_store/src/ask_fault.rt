/// Why a question has no rows.
#[derive(Clone, Copy, Debug, PartialEq, Eq)]
pub enum AskFault {
    /// The disk of this class failed.
    DiskFault(u32),
    /// The question finds so many series, more than 10,000.
    TooManySeries(u64),
    /// The series have so many values in all, more than 4,000,000.
    TooManyPoints(u64),
    /// There was no memory.
    NoMemory,
}
