//! How much an aggregator holds.

/// How much an aggregator holds for one link.
#[derive(Clone, Copy, Debug, PartialEq, Eq)]
pub struct Limits {
    /// The most outputs: a path that a rule writes to is one of them, from its first point to the
    /// end of the link.
    pub outputs: u32,
    /// The most points in open intervals, less than 31,536,000.
    pub points: u32,
}
