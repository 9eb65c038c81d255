//! A file of version 1 carried into a patch that writes it anew.
ghost use Rattle.std.specs.Prelude.{◌≡◌, ◌+◌, ◌<◌, ◌≤◌, ℕ, List, false, true, IfOk, IfSome, IsErrAnd, IsErrOf, MatchResult, OnOk, length, slice_get};
ghost use Rattle.outside_io.specs.Frames.{ReadsOnly};
ghost use Rattle.ring_format.specs.Patch.{IsPlace};
ghost use Rattle.ring_archive.specs.Ring.{OnFile, stored_cells};
ghost use Rattle.ring_archive.specs.View.{IsThere};
ghost use Rattle.archive_update.specs.Carried.{Carries, CarriesTo, IsBlank, Keeps, has_base, kept_of};
ghost use Rattle.archive_update.specs.Laid.{IsAlike};

use crate::laying::lay_cell;
use fixed_num::{Milli, wide};
use outside_io::Disk;
use ring_archive::{RingFault, RingView};
use ring_format::{NoMemory, OLD_VERSION, Patch};
use std::alloc::Global;

// The most cells that are read at once.
const MOST_CELLS: u32 = 4_096;

/// Carries a file of version 1 into a fresh patch that lays nothing yet, which writes it anew:
/// it lays every cell that is not zero of each archive whose base is not 0. So a file that is
/// yet to be created reads under the patch as this one does.
///
/// The disk is only read, in stretches. The cells are laid in rising archive and slot, each
/// behind the last, so that no cell is moved and the time grows with the file alone. At an
/// error the patch comes back with some of its cells laid; it is of no use then, but for its
/// path.
pub fn carry<D: Disk>(
    alloc: Global,
    view: &RingView<'_>,
    disk: &mut D,
    patch: Patch,
) -> Result<Patch, (Patch, RingFault)>
    requires version { view.now.version ≡ OLD_VERSION }
    requires patch { IsBlank view.now.layout patch }
    requires file { IsThere view.now false (D.image disk.old) }
    ensures carries { IfOk result
        (λ new. OnFile (D.image disk.old) view.now.name.now (Carries patch new)) }
    ensures alike { MatchResult result (IsAlike patch) (λ refusal. IsAlike patch refusal.0) }
    ensures frame { ReadsOnly D.Disk disk.old disk.new
        (IsErrAnd result (λ refusal. refusal.1 ≡ RingFault.DiskFault)) }
{
    let mut patch = patch;
    if patch.reserve_all().is_err() {
        return Err((patch, RingFault::NoMemory));
    }
    match carry_all(alloc, view, disk, &mut patch) {
        Ok(()) => Ok(patch),
        Err(fault) => Err((patch, fault)),
    }
}

// Carries each archive, the finest first.
fn carry_all<D: Disk>(
    alloc: Global,
    view: &RingView<'_>,
    disk: &mut D,
    patch: &mut Patch,
) -> Result<(), RingFault>
    requires version { view.now.version ≡ OLD_VERSION }
    requires patch { IsBlank view.now.layout patch.old }
    requires file { IsThere view.now false (D.image disk.old) }
    ensures carries { OnOk result
        (OnFile (D.image disk.old) view.now.name.now (Carries patch.old patch.new)) }
    ensures alike { IsAlike patch.old patch.new }
    ensures frame { ReadsOnly D.Disk disk.old disk.new (IsErrOf result RingFault.DiskFault) }
{
    for archive in 0..view.layout.archive_count() {
        carry_archive(alloc, view, disk, patch, archive)?;
    }
    Ok(())
}

// Carries an archive, unless its base is 0.
fn carry_archive<D: Disk>(
    alloc: Global,
    view: &RingView<'_>,
    disk: &mut D,
    patch: &mut Patch,
    archive: u32,
) -> Result<(), RingFault>
    requires layout { patch.old.layout ≡ view.now.layout }
    requires archive { archive < length view.now.layout.archives }
    requires file { IsThere view.now false (D.image disk.old) }
    ensures carries { OnOk result
        (OnFile (D.image disk.old) view.now.name.now
        (λ file. CarriesTo patch.old file archive 0 → CarriesTo patch.new file (archive + 1) 0)) }
    ensures alike { IsAlike patch.old patch.new }
    ensures frame { ReadsOnly D.Disk disk.old disk.new (IsErrOf result RingFault.DiskFault) }
{
    let points = view.layout.archive(archive).points;
    let first = view.raw(disk, archive, 0)?;
    if first.0 == 0 {
        return Ok(());
    }
    let mut slot = 0;
    while slot < points {
        let count = (points - slot).min(MOST_CELLS);
        carry_stretch(alloc, view, disk, patch, archive, slot, count)?;
        slot += count;
    }
    Ok(())
}

// Carries neighbouring cells of an archive that has a base.
fn carry_stretch<D: Disk>(
    alloc: Global,
    view: &RingView<'_>,
    disk: &mut D,
    patch: &mut Patch,
    archive: u32,
    slot: u32,
    count: u32,
) -> Result<(), RingFault>
    requires layout { patch.old.layout ≡ view.now.layout }
    requires slots { IfSome (slice_get view.now.layout.archives archive)
        (λ ring. (slot < ring.points) × (slot + count ≤ ring.points)) }
    requires archive { archive < length view.now.layout.archives }
    requires file { IsThere view.now false (D.image disk.old) }
    ensures carries { OnOk result
        (OnFile (D.image disk.old) view.now.name.now
        (λ file. has_base view.now.layout.archives file archive ≡ true
        → CarriesTo patch.old file archive slot → CarriesTo patch.new file archive (slot + count))) }
    ensures alike { IsAlike patch.old patch.new }
    ensures frame { ReadsOnly D.Disk disk.old disk.new (IsErrOf result RingFault.DiskFault) }
{
    let cells = view.raw_cells(alloc, disk, archive, slot, count)?;
    lay_stretch(patch, archive, slot, &cells)?;
    Ok(())
}

// Lays those of neighbouring cells that are not zero, from a slot on.
fn lay_stretch(
    patch: &mut Patch,
    archive: u32,
    slot: u32,
    cells: &[(u32, Option<Milli>)],
) -> Result<(), NoMemory>
    requires slots { IfSome (slice_get patch.old.layout.archives archive)
        (λ ring. slot + length cells.now ≤ ring.points) }
    requires archive { archive < length patch.old.layout.archives }
    ensures carries { OnOk result ((file : List ℕ)
        → has_base patch.old.layout.archives file archive ≡ true
        → cells.now ≡ stored_cells patch.old.layout.archives file archive slot (length cells.now)
        → CarriesTo patch.old file archive slot
        → CarriesTo patch.new file archive (slot + length cells.now)) }
    ensures alike { IsAlike patch.old patch.new }
{
    let _ = patch.layout().archive(archive);
    for (k, cell) in cells.iter().enumerate() {
        lay_kept(patch, archive, slot + k as u32, *cell)?;
    }
    Ok(())
}

// Lays a cell, if it is not zero and its value fits.
fn lay_kept(
    patch: &mut Patch,
    archive: u32,
    slot: u32,
    cell: (u32, Option<Milli>),
) -> Result<(), NoMemory>
    requires place { IsPlace patch.old.layout (archive, slot) }
    ensures keeps { OnOk result
        (Keeps patch.old patch.new (archive, slot) cell.0 (kept_of cell)) }
    ensures alike { IsAlike patch.old patch.new }
{
    let bucket = cell.0;
    match kept_value(cell) {
        Some(value) => lay_cell(patch, archive, slot, bucket, value),
        None => Ok(()),
    }
}

// The value of a cell that is not zero, where it fits.
fn kept_value(cell: (u32, Option<Milli>)) -> Option<Milli>
    ensures { result ≡ kept_of cell }
{
    let value = cell.1?;
    if cell.0 == 0 && wide(value) == 0 {
        return None;
    }
    Some(value)
}
