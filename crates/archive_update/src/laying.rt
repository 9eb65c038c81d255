//! Values laid by a patch into one archive.
ghost use Rattle.std.specs.Prelude.{◌≡◌, ◌≢◌, ◌≤◌, ◌<◌, ◌==◌, ◌&&◌, not, [], ◌∷◌, All, IfOk, IsErrOf, OnOk, length};
ghost use Rattle.std.specs.List.{list_any};
ghost use Rattle.outside_io.specs.Frames.{ReadsOnly};
ghost use Rattle.ring_format.specs.Patch.{IsPlace};
ghost use Rattle.ring_archive.specs.Ring.{base_of};
ghost use Rattle.ring_archive.specs.View.{IsThere, OnRing};
ghost use Rattle.archive_update.specs.Batch.{step_of};
ghost use Rattle.archive_update.specs.Laid.{HasWritten, IsAlike, IsBucketOf, IsCleared, IsLaid, IsRing, IsZeroed, Lays, Prepares};

use fixed_num::{Milli, zero};
use outside_io::Disk;
use ring_archive::{RingFault, RingView};
use ring_format::{Archive, CellWrite, NoMemory, Patch, slot_of};
use std::alloc::Global;

/// Writes values under their buckets into an archive, in order, and answers the base that it has then.
pub(crate) fn write_values<D: Disk>(
    alloc: Global,
    view: &RingView<'_>,
    disk: &mut D,
    patch: &mut Patch,
    archive: u32,
    writes: &[(u32, Milli)],
) -> Result<u32, RingFault>
    requires layout { patch.old.layout ≡ view.now.layout }
    requires archive { archive < length view.now.layout.archives }
    requires buckets { All
        (λ write. IsBucketOf (step_of view.now.layout.archives archive) write.0) writes.now }
    requires file { IsThere view.now patch.old.fresh (D.image disk.old) }
    ensures writes { IfOk result
        (HasWritten view.now (D.image disk.old) patch.old patch.new archive writes.now) }
    ensures alike { IsAlike patch.old patch.new }
    ensures filled { OnOk result (patch.new.cells ≡ [] → writes.now ≡ []) }
    ensures frame { ReadsOnly D.Disk disk.old disk.new (IsErrOf result RingFault.DiskFault) }
{
    let base = prepared(alloc, view, disk, patch, archive)?;
    let later = lay_all(patch, archive, base, writes)?;
    Ok(later)
}

// The base of an archive, 0 where it is empty. Then each slot holds zero afterwards, so that no old cell comes back.
fn prepared<D: Disk>(
    alloc: Global,
    view: &RingView<'_>,
    disk: &mut D,
    patch: &mut Patch,
    archive: u32,
) -> Result<u32, RingFault>
    requires layout { patch.old.layout ≡ view.now.layout }
    requires archive { archive < length view.now.layout.archives }
    requires file { IsThere view.now patch.old.fresh (D.image disk.old) }
    ensures prepares { IfOk result
        (λ base. OnRing view.now patch.old.fresh (D.image disk.old)
        (Prepares patch.old patch.new archive base)) }
    ensures alike { IsAlike patch.old patch.new }
    ensures frame { ReadsOnly D.Disk disk.old disk.new (IsErrOf result RingFault.DiskFault) }
{
    let base = view.base(disk, patch, archive)?;
    if base > 0 {
        return Ok(base);
    }
    if !is_blank(patch, archive) {
        clear_stale(alloc, view, disk, patch, archive)?;
    }
    Ok(0)
}

// Whether each slot of an archive holds zero, since the file is to be created and no cell is laid there.
fn is_blank(patch: &Patch, archive: u32) -> bool
    ensures { result ≡ (patch.now.fresh && not
        (list_any (λ cell. cell.0.0 == archive) patch.now.cells)) }
{
    patch.fresh() && !has_cells(patch, archive)
}

// Whether a patch lays a cell in an archive.
fn has_cells(patch: &Patch, archive: u32) -> bool
    ensures { result ≡ list_any (λ cell. cell.0.0 == archive) patch.now.cells }
{
    patch.cells().iter().any(|cell| cell.0.0 == archive)
}

// Lays zero over each cell of an archive that is not zero.
fn clear_stale<D: Disk>(
    alloc: Global,
    view: &RingView<'_>,
    disk: &mut D,
    patch: &mut Patch,
    archive: u32,
) -> Result<(), RingFault>
    requires layout { patch.old.layout ≡ view.now.layout }
    requires archive { archive < length view.now.layout.archives }
    requires file { IsThere view.now patch.old.fresh (D.image disk.old) }
    ensures prepares { OnOk result
        (OnRing view.now patch.old.fresh (D.image disk.old)
        (λ file. base_of patch.old file archive ≡ 0
        → Prepares patch.old patch.new archive 0 file)) }
    ensures alike { IsAlike patch.old patch.new }
    ensures frame { ReadsOnly D.Disk disk.old disk.new (IsErrOf result RingFault.DiskFault) }
{
    let slots = view.stale(alloc, disk, patch, archive)?;
    clear_slots(patch, archive, &slots)?;
    Ok(())
}

// Lays zero into slots of an archive.
fn clear_slots(patch: &mut Patch, archive: u32, slots: &[u32]) -> Result<(), NoMemory>
    ensures cleared { OnOk result
        (IsCleared patch.old patch.new archive slots.now (length slots.now)) }
    ensures alike { IsAlike patch.old patch.new }
{
    for slot in slots {
        clear_slot(patch, archive, *slot)?;
    }
    Ok(())
}

// Lays zero into a slot of an archive, where the archive has it.
fn clear_slot(patch: &mut Patch, archive: u32, slot: u32) -> Result<(), NoMemory>
    ensures zeroed { OnOk result (IsZeroed patch.old patch.new (archive, slot)) }
    ensures alike { IsAlike patch.old patch.new }
{
    if !patch.layout().has_slot(archive, slot) {
        return Ok(());
    }
    lay_cell(patch, archive, slot, 0, zero())
}

// Lays values under their buckets into an archive with this base, in order.
fn lay_all(
    patch: &mut Patch,
    archive: u32,
    base: u32,
    writes: &[(u32, Milli)],
) -> Result<u32, NoMemory>
    requires archive { archive < length patch.old.layout.archives }
    requires buckets { All
        (λ write. IsBucketOf (step_of patch.old.layout.archives archive) write.0) writes.now }
    ensures lays { IfOk result (λ later. Lays patch.old patch.new archive base later writes.now) }
    ensures alike { IsAlike patch.old patch.new }
    ensures filled { OnOk result (patch.new.cells ≡ [] → writes.now ≡ []) }
{
    let ring = patch.layout().archive(archive);
    let mut later = base;
    for (bucket, value) in writes {
        later = lay_value(patch, archive, ring, later, *bucket, *value)?;
    }
    Ok(later)
}

// Lays a value under its bucket into an archive with this base, and answers the base that it has then.
fn lay_value(
    patch: &mut Patch,
    archive: u32,
    ring: Archive,
    base: u32,
    bucket: u32,
    value: Milli,
) -> Result<u32, NoMemory>
    requires archive { archive < length patch.old.layout.archives }
    requires ring { IsRing patch.old.layout archive ring }
    requires bucket { IsBucketOf (step_of patch.old.layout.archives archive) bucket }
    ensures lays { IfOk result
        (λ later. Lays patch.old patch.new archive base later ((bucket, value) ∷ [])) }
    ensures alike { IsAlike patch.old patch.new }
    ensures filled { OnOk result (patch.new.cells ≢ []) }
{
    let slot = slot_of(base, bucket, ring);
    lay_cell(patch, archive, slot, bucket, value)?;
    if slot == 0 {
        return Ok(bucket);
    }
    Ok(base)
}

/// Lays a cell.
pub(crate) fn lay_cell(
    patch: &mut Patch,
    archive: u32,
    slot: u32,
    bucket: u32,
    value: Milli,
) -> Result<(), NoMemory>
    requires place { IsPlace patch.old.layout (archive, slot) }
    ensures laid { OnOk result (IsLaid patch.old patch.new (archive, slot) (bucket, value)) }
    ensures alike { IsAlike patch.old patch.new }
    ensures filled { OnOk result (patch.new.cells ≢ []) }
{
    patch.lay(CellWrite {
        archive,
        slot,
        bucket,
        value,
    })
}
