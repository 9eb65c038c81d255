//! A metric that is to be drained next.
use metric_path::MetricPath;
use metric_table::Known;
use point_cache::Points;

/// The metric that goes next, as a desk had it.
#[derive(Drop)]
pub struct NextMetric {
    /// Its path.
    pub path: MetricPath,
    /// A copy of its pending points.
    pub points: Points,
    /// What is known of it.
    pub known: Known,
}
