//! Room for what a close hands out.
ghost use Rattle.std.specs.Prelude.{◌≡◌, ◌≤◌, vec_capacity, vec_len};

use metric_path::CLASSES;
use outside_io::Disk;
use shared_history::Tail;
use std::alloc::{AllocError, Global};

/// Room for the disks and the tails of all classes. It is empty.
#[derive(Drop)]
pub(crate) struct Room<D: Disk> {
    pub(crate) disks: Vec<D>,
    pub(crate) tails: Vec<Tail>,
    ghost no_disk: { vec_len disks ≡ 0 },
    ghost disk_room: { 16 ≤ vec_capacity disks },
    ghost no_tail: { vec_len tails ≡ 0 },
    ghost tail_room: { 16 ≤ vec_capacity tails },
}

impl<D: Disk + Drop> Room<D> {
    /// The room, or the refusal of memory.
    pub(crate) fn take(alloc: Global) -> Result<Room<D>, AllocError> {
        Ok(Room {
            disks: Vec::with_capacity(alloc, CLASSES as usize)?,
            tails: Vec::with_capacity(alloc, CLASSES as usize)?,
        })
    }
}
