use crate::Points;

/// The points of a metric, and the number of its arrival: a metric that arrived earlier has a lesser one.
#[derive(Drop)]
pub(crate) struct Numbered {
    pub(crate) number: u64,
    pub(crate) points: Points,
}
