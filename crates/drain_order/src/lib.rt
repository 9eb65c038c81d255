//! Which of the metrics with pending points is drained next.
#![tactic(auto)]

mod laws;
mod picker;
mod queue;
mod rank;
mod strategy;
mod waiting;

pub use picker::Picker;
pub use strategy::Strategy;
