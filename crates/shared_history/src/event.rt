use carbon_history::PutEnd;
use fixed_num::Milli;
use metric_path::MetricPath;

/// What is entered in a class: an entry but for its pass. The path is there for the proof alone.
#[derive(Clone, Copy)]
pub enum Event<'a> {
    /// A point is put: the path, the time, the value in thousandths and the outcome.
    Put(&'a MetricPath, u32, Milli, PutEnd),
    /// A metric's pending points go to its rings: the path and the moment.
    Drain(&'a MetricPath, u64),
    /// A disk failed.
    Fault,
}
