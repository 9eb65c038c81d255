//! The files of a class.
ghost use Rattle.std.specs.Prelude.{◌<◌};

use crate::work::Work;
use outside_io::Disk;
use std::alloc::Global;

/// The half of a shard that needs no pending points: the disk, and the drain that is being written.
/// Its other half is the [`Desk`](crate::Desk).
#[derive(Drop)]
pub struct Files<D: Disk> {
    pub(crate) class: u32,
    pub(crate) disk: D,
    pub(crate) work: Work,
    pub(crate) alloc: Global,
    ghost few: { class < 16 },
}

impl<D: Disk> Files<D> {
    ghost use Rattle.std.specs.Prelude.{◌≡◌, IfSome, None, is_some};

    /// The class whose files they are.
    pub fn class(&self) -> u32
        ensures { result ≡ self.now.class }
    {
        self.class
    }

    /// Whether a drain is being written.
    pub fn shelved(&self) -> bool
        ensures { result ≡ is_some self.now.work.shelf }
    {
        self.work.patch().is_some()
    }

    /// The disk.
    pub fn finish(self) -> D
        ensures disk { result ≡ self.disk }
        ensures empty { self.work.shelf ≡ None → IfSome self.work.log (λ redo. redo ≡ None) }
    {
        // A redo that is not empty has the drain of its patch.
        let _ = self.work.patch();
        self.disk
    }
}
