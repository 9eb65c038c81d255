//! What is found of metrics, and why they could not be read.
use metric_path::MetricPath;
use point_cache::Points;
use ring_format::Layout;
use series_fetch::Window;
use thiserror::Error;

/// What a look found of a metric.
#[derive(Drop)]
pub struct Looked {
    /// Its path.
    pub path: MetricPath,
    /// Its layout.
    pub layout: Layout,
    /// The buckets that the question is about.
    pub window: Window,
    /// Its pending points.
    pub pending: Points,
    /// How often it was drained.
    pub drains: u64,
}

/// How much a look finds.
#[derive(Clone, Copy, Debug, PartialEq, Eq)]
pub struct LookCount {
    /// How many metrics.
    pub series: u64,
    /// How many values their windows have in all.
    pub values: u64,
}

/// Why a metric could not be read.
#[derive(Clone, Copy, Debug, PartialEq, Eq, Error)]
pub enum LookFault {
    /// It was drained since it was looked at, and so often in all.
    #[error("the metric was drained meanwhile")]
    Moved(u64),
    /// The disk failed.
    #[error("the disk failed")]
    DiskFault,
    /// There was no memory.
    #[error("there was no memory")]
    NoMemory,
}
