//! A start that was refused.

use outside_io::Disk;
use shard_core::StartFault;

/// Why the shards did not start.
#[derive(Debug, Drop)]
pub struct Refusal {
    /// The class that did not start, the least one that did not.
    pub class: u32,
    /// Why it did not.
    pub fault: StartFault,
}

/// The disks from which the shards did not start, in order of class.
#[derive(Drop)]
pub struct Refused<D: Disk> {
    /// The disks.
    pub disks: Vec<D>,
    /// Why the shards did not start.
    pub refusal: Refusal,
}
