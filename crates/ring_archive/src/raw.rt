//! Neighbouring cells as a file holds them.
ghost use Rattle.std.specs.Prelude.{◌≡◌, ◌+◌, ◌*◌, ◌<◌, ◌≤◌, false, IfOk, IfSome, IsErrOf, length, map, slice_get};
ghost use Rattle.std.specs.List.{range_with_len};
ghost use Rattle.outside_io.specs.Frames.{ReadsOnly};
ghost use Rattle.ring_format.specs.Cell.{IsVersion, cell_size_in};
ghost use Rattle.ring_archive.specs.Held.{held_cell};
ghost use Rattle.ring_archive.specs.Ring.{OnFile, stored_cells};
ghost use Rattle.ring_archive.specs.View.{IsThere};

use crate::fault::RingFault;
use crate::round::{Round, held_cell};
use crate::view::RingView;
use fixed_num::Milli;
use outside_io::Disk;
use std::alloc::{AllocError, Global};

impl RingView<'_> {
    /// The cells of neighbouring slots, from one on, of the file itself, without a patch: what
    /// [`raw`](RingView::raw) tells of each. The disk is read once.
    pub fn raw_cells<D: Disk>(
        &self,
        alloc: Global,
        disk: &mut D,
        archive: u32,
        slot: u32,
        count: u32,
    ) -> Result<Vec<(u32, Option<Milli>)>, RingFault>
        requires archive { archive < length self.now.layout.archives }
        requires slots { IfSome (slice_get self.now.layout.archives archive)
            (λ ring. (slot < ring.points) × (slot + count ≤ ring.points)) }
        requires file { IsThere self.now false (D.image disk.old) }
        ensures cells { IfOk result
            (λ cells. OnFile (D.image disk.old) self.now.name.now
            (λ file. cells.items
            ≡ stored_cells self.now.layout.archives file archive slot count)) }
        ensures count { IfOk result (λ cells. length cells.items ≡ count) }
        ensures frame { ReadsOnly D.Disk disk.old disk.new (IsErrOf result RingFault.DiskFault) }
    {
        let round = Round {
            archive,
            points: self.layout.archive(archive).points,
            slot,
            version: self.version,
        };
        let bytes = self.held_cells(alloc, disk, false, round, count)?;
        Ok(cells_held(alloc, self.version, &bytes, count)?)
    }
}

// The cells that are in memory.
#[tactic(auto, using(crate::proofs::RangeLists::map_more))]
fn cells_held(
    alloc: Global,
    version: u32,
    bytes: &[u8],
    count: u32,
) -> Result<Vec<(u32, Option<Milli>)>, AllocError>
    requires version { IsVersion version }
    requires held { length bytes.now ≡ cell_size_in version * count }
    ensures { IfOk result
        (λ cells. cells.items ≡ map (λ k. held_cell version bytes.now k) (range_with_len 0 count)) }
{
    let mut cells = Vec::with_capacity(alloc, count as usize)?;
    for k in 0..count {
        cells.push(held_cell(version, bytes, k as usize))?;
    }
    Ok(cells)
}
