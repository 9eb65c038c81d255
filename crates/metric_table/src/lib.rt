#![tactic(auto)]
//! What a shard knows of its metrics: for each path the layout, whether something is kept of the metric, and
//! how often it was drained.
//!
//! A layout takes over 200 bytes and most metrics have one of a few, so that each is kept once and the
//! metrics have its number.

mod entry;
mod found;
mod found_metric;
mod known;
mod layout_list;
mod table;

pub use found_metric::FoundMetric;
pub use known::Known;
pub use metric_index::{SearchedNames, Verdicts};
pub use table::MetricTable;
