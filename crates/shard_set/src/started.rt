//! Shards that started.
ghost use Rattle.std.specs.Prelude.{◌≡◌, ◌≤◌, length, vec_capacity, vec_len};

use outside_io::Disk;
use shard_core::Shard;

/// The shards of all classes, each over its disk.
#[derive(Drop)]
pub struct Started<D: Disk> {
    /// The shards, in order of class.
    pub shards: Vec<Shard<D>>,
    /// The list in which the disks came. It is empty, and has room to hand all of them back.
    pub room: Vec<D>,
    pub ghost all: { length shards.items ≡ 16 },
    pub ghost empty: { vec_len room ≡ 0 },
    pub ghost room_for_all: { 16 ≤ vec_capacity room },
}
