//! The batch: what a drain of points makes of a metric's archives, as a patch of cells.
//!
//! An archive is a map from buckets to values. Points are written into the archive that is their home, and what
//! it then knows is rolled up into each coarser one, as Graphite's Whisper does it. A file of
//! version 1 is carried into a patch first, which writes it anew in version 2. Nothing here
//! writes to a disk.
#![tactic(auto)]

mod carrying;
mod laying;
mod own;
mod planning;
mod rolling;

pub use carrying::carry;
pub use planning::plan;
