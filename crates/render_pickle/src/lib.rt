//! Series and found names as pickles, which a front of Graphite reads from each machine of a cluster.
#![tactic(auto)]

mod found;
mod series;

pub use found::{FoundNode, Interval, find_pickle};
pub use series::render_pickle;
