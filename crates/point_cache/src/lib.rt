//! The points that were accepted and not yet drained to disk, by metric.
#![tactic(auto)]

mod arrivals;
mod cache;
mod metric_map;
mod numbered;
mod points;
mod put;

pub use arrivals::Arrivals;
pub use cache::PointCache;
pub use points::Points;
pub use put::Put;
