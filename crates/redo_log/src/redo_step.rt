//! How a step of a redo ends.

/// What a step did.
#[derive(Clone, Copy, Debug, PartialEq, Eq)]
pub enum RedoStep {
    /// A step was taken, and more are left.
    Run,
    /// The last step was taken.
    Finished,
    /// There was none to take.
    Nothing,
    /// The disk failed: the step may be taken again.
    DiskFault,
}
