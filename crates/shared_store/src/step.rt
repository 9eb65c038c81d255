/// How one step of draining a class ended.
#[derive(Clone, Copy, Debug, PartialEq, Eq)]
pub enum Step {
    /// The drain of a metric was begun.
    Took,
    /// A run of a drain was written, and more are left.
    Wrote,
    /// The last run of a drain was written.
    Finished,
    /// Nothing is pending and nothing is to be written.
    Idle,
    /// The disk failed. What failed comes again.
    DiskFault,
    /// There was no memory. All is as before.
    NoMemory,
}
