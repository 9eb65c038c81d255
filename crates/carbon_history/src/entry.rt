use fixed_num::Milli;
use metric_path::MetricPath;

/// How a put ended that is in the history.
#[derive(Clone, Copy, Debug, PartialEq, Eq)]
pub enum PutEnd {
    /// The metric had no pending point at this time.
    Stored,
    /// The metric had one, whose value was replaced.
    Replaced,
    /// The class had as many pending points as it may: nothing changed.
    Full,
}

/// One entry of the history. A pass is the number of a caller, and moments are seconds since the Unix epoch.
#[derive(Drop)]
pub enum Entry {
    /// A point was put: the pass, the path, the time, the value in thousandths and the outcome.
    Put(u32, MetricPath, u32, Milli, PutEnd),
    /// A metric's pending points went to its rings: the pass, the path and the moment.
    Drain(u32, MetricPath, u64),
    /// A question was answered: the pass, its number in the pass, the try and the moment.
    Ask(u32, u64, u32, u64),
    /// A disk failed: the pass and the class.
    Fault(u32, u32),
}
