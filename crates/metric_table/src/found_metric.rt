//! A found metric.
use metric_path::MetricPath;
use ring_format::Layout;

/// A known metric that was found, and what is known of it.
#[derive(Drop)]
pub struct FoundMetric<'a> {
    pub path: &'a MetricPath,
    pub layout: &'a Layout,
    pub is_kept: bool,
    pub is_old: bool,
    pub drains: u64,
}
