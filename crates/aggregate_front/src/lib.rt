#![tactic(auto)]
//! Aggregation rules in front of a store, as Graphite's `carbon-aggregator` has them in
//! `aggregation-rules.conf`: each rule gathers the points of the metrics that its pattern fits in
//! intervals of an output metric, and gives one value for each.

mod aggregator;
mod change;
mod deed;
mod gathered;
mod hit;
mod interval;
mod known;
mod limits;
mod open_intervals;
mod outputs;
mod timed_value;

pub use aggregate_rules::{AggCause, AggFault, AggRules};
pub use aggregator::{Aggregator, LINK_LIMITS};
pub use limits::Limits;
