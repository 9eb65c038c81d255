//! What a query of Graphite's render API needs, and the series that are found for it: what the sides that ask and answer have in common.
#![tactic(auto)]

mod need;

pub use need::Need;
