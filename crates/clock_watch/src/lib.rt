//! Readings of a clock that contracts see: which moments a thread was told, and in which order.
#![tactic(auto)]

mod watch;

pub use watch::Watch;
