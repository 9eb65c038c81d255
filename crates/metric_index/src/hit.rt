//! What a search finds.
use metric_path::MetricPath;

/// A known path that was found, and its entry.
#[derive(Drop)]
pub struct Hit<'a, V> {
    pub path: &'a MetricPath,
    pub entry: &'a V,
}
