//! The archives of a ring file, and how much each has stored.
ghost use Rattle.std.specs.Prelude.{◌≡◌, ◌<◌, ◌≤◌, IfOk, IsErrOf, false, length};
ghost use Rattle.outside_io.specs.Frames.{ReadsOnly};
ghost use Rattle.ring_archive.specs.Ring.{OnFile};
ghost use Rattle.ring_archive.specs.View.{IsThere, OnRing};
ghost use Rattle.ring_look.specs.Archives.{archive_in, archives_in};

use metric_path::MetricPath;
use outside_io::Disk;
use ring_archive::{RingFault, RingView};
use ring_format::{Archive, Patch};
use std::alloc::Global;

/// An archive of a ring file.
#[derive(Clone, Copy)]
pub struct ArchiveInfo {
    /// Where it begins in the file.
    pub offset: u32,
    /// Its step and its points.
    pub archive: Archive,
    /// How many of its cells are not zero: those of its points, and what earlier rounds have left.
    pub stored: u64,
}

/// The archives of the file of a path, from the finest to the coarsest. The disk is read once for each.
pub fn read_archives<D: Disk>(
    alloc: Global,
    disk: &mut D,
    view: &RingView<'_>,
    path: MetricPath,
) -> Result<Vec<ArchiveInfo>, RingFault>
    requires file { IsThere view.now false (D.image disk.old) }
    ensures archives { IfOk result (λ archives. OnFile (D.image disk.old) view.now.name.now
        (λ file. archives.items ≡ archives_in view.now.version view.now.layout path file)) }
    ensures count { IfOk result
        (λ archives. length archives.items ≡ length view.now.layout.archives) }
    ensures few { length view.now.layout.archives ≤ 25 }
    ensures frame { ReadsOnly D.Disk disk.old disk.new (IsErrOf result RingFault.DiskFault) }
{
    let patch = Patch::new(alloc, path, view.layout, false);
    let mut archives = Vec::new(alloc);
    for place in 0..view.layout.archive_count() {
        let archive = read_archive(alloc, disk, view, &patch, place)?;
        archives.push(archive)?;
    }
    Ok(archives)
}

// The archive at a place of a file under a patch.
fn read_archive<D: Disk>(
    alloc: Global,
    disk: &mut D,
    view: &RingView<'_>,
    patch: &Patch,
    place: u32,
) -> Result<ArchiveInfo, RingFault>
    requires layout { patch.now.layout ≡ view.now.layout }
    requires place { place < length view.now.layout.archives }
    requires file { IsThere view.now patch.now.fresh (D.image disk.old) }
    ensures archive { IfOk result
        (λ archive. OnRing view.now patch.now.fresh (D.image disk.old)
        (λ file. archive
        ≡ archive_in view.now.version view.now.layout patch.now file place)) }
    ensures frame { ReadsOnly D.Disk disk.old disk.new (IsErrOf result RingFault.DiskFault) }
{
    let slots = view.stale(alloc, disk, patch, place)?;
    Ok(ArchiveInfo {
        offset: view.layout.offset_in(place, view.version),
        archive: view.layout.archive(place),
        stored: slots.len() as u64,
    })
}
