//! How plans and writes end.
use metric_path::MetricPath;

/// How a plan ended.
#[derive(Drop)]
pub enum Planned {
    /// This metric's points left the cache, and are to be written.
    Took(MetricPath),
    /// A drain is being written, and no other was begun.
    Busy,
    /// Nothing is pending and nothing is to be written.
    Idle,
    /// The disk failed. All is as before.
    DiskFault,
    /// There was no memory. All is as before.
    NoMemory,
}

/// How a drain began, or not, whose patch was made before.
#[derive(Drop)]
pub enum Begun {
    /// This metric's points left the cache, and are to be written.
    Took(MetricPath),
    /// Another metric goes next, or it is not as it was. All is as before.
    Changed,
    /// There was no memory. All is as before.
    NoMemory,
}

/// How a step of a drain ended.
#[derive(Clone, Copy, Debug, PartialEq, Eq)]
pub enum Wrote {
    /// A step was taken, and more are left.
    Run,
    /// The last step of a drain was taken.
    Finished,
    /// There was nothing to write.
    Nothing,
    /// The disk failed. The step is taken again.
    DiskFault,
}
