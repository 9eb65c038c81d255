//! Ring files that are read through a patch.
ghost use Rattle.std.specs.Prelude.{◌≡◌, ◌<◌, IsTrue, length};
ghost use Rattle.ring_archive.specs.Ring.{FitsFrom};
ghost use Rattle.ring_archive.specs.View.{IsThere};

use crate::rings::{Ring, tell_failed, tell_fault, tell_reads};
use crate::told::{tell_value, tell_values};
use crate::words::place_in;
use case_lines::{Case, CaseFault, Told};
use fixed_num::Milli;
use outside_io::{Disk, DiskFailed, MemDisk};
use ring_archive::{BasedArchive, RingFault, RingView};
use ring_format::{Layout, Patch};
use std::alloc::Global;

/// `bucket ARCHIVES METHOD FACTOR STORED LAID ARCHIVE/BUCKET [FAILING]`: the value of the bucket; the disk's read of a number fails.
pub fn tell_bucket(alloc: Global, told: &mut Told, case: &Case, layout: Layout) {
    let ring = Ring::read(alloc, case, layout, 6, told);
    let place = place_in(case.text_at(5, told), told);
    if place.archive >= ring.layout.archive_count() {
        told.malformed();
    } else {
        tell_value_at(alloc, told, &ring, place.archive, place.at);
    }
}

fn tell_value_at(alloc: Global, told: &mut Told, ring: &Ring, archive: u32, bucket: u32)
    requires { archive < length ring.now.layout.archives }
{
    let Ok(patch) = ring.patch(alloc) else {
        return told.fail(CaseFault::NoMemory);
    };
    let Ok(mut disk) = ring.disk(alloc, "a") else {
        return told.fail(CaseFault::NoMemory);
    };
    let view = RingView::new("a", ring.layout, ring.version);
    let found = view.cell_at(&mut disk, &patch, archive, bucket);
    tell_one(told, found, &disk);
}

fn tell_one(told: &mut Told, found: Result<Option<Milli>, DiskFailed>, disk: &MemDisk) {
    match found {
        Ok(value) => tell_value(told, value),
        Err(DiskFailed) => told.push_str("fault"),
    }
    tell_failed(told, disk);
}

/// `buckets ARCHIVES METHOD FACTOR STORED LAID ARCHIVE/FIRST COUNT [FAILING]`: the values of so many buckets, and how often the disk was
/// read.
pub fn tell_buckets(alloc: Global, told: &mut Told, case: &Case, layout: Layout) {
    tell_row(alloc, told, case, layout, false);
}

/// `based-buckets ..`: the same where the base was read before.
pub fn tell_based_buckets(alloc: Global, told: &mut Told, case: &Case, layout: Layout) {
    tell_row(alloc, told, case, layout, true);
}

fn tell_row(alloc: Global, told: &mut Told, case: &Case, layout: Layout, is_based: bool) {
    let ring = Ring::read(alloc, case, layout, 7, told);
    let place = place_in(case.text_at(5, told), told);
    let count = case.small_at(6, told);
    if fits(&ring.layout, place.archive, place.at, count) {
        tell_row_of(alloc, told, &ring, place.archive, place.at, count, is_based);
    } else {
        told.malformed();
    }
}

fn tell_row_of(
    alloc: Global,
    told: &mut Told,
    ring: &Ring,
    archive: u32,
    first: u32,
    count: u32,
    is_based: bool,
)
    requires archive { archive < length ring.now.layout.archives }
    requires fits { FitsFrom ring.now.layout archive first count }
{
    let Ok(patch) = ring.patch(alloc) else {
        return told.fail(CaseFault::NoMemory);
    };
    let Ok(mut disk) = ring.disk(alloc, "a") else {
        return told.fail(CaseFault::NoMemory);
    };
    let view = RingView::new("a", ring.layout, ring.version);
    let found = if is_based {
        cells_behind_base(alloc, &mut disk, &view, &patch, archive, first, count)
    } else {
        view.cells(alloc, &mut disk, &patch, archive, first, count)
    };
    tell_found(told, &found, &disk);
}

fn tell_found(told: &mut Told, found: &Result<Vec<Option<Milli>>, RingFault>, disk: &MemDisk) {
    match found {
        Ok(values) => tell_values(told, values),
        Err(fault) => tell_fault(told, *fault),
    }
    tell_reads(told, disk);
}

// Whether an archive of a layout has so many buckets from a first one on.
fn fits(layout: &Layout, archive: u32, first: u32, count: u32) -> bool
    ensures there { IsTrue result → archive < length layout.now.archives }
    ensures fits { IsTrue result → FitsFrom layout.now archive first count }
{
    if archive >= layout.archive_count() {
        return false;
    }
    let behind = u64::from(count) * u64::from(layout.archive(archive).step);
    u64::from(first) + behind <= u64::from(u32::MAX)
}

// Reads the base of an archive, and then the values of buckets.
fn cells_behind_base<D: Disk>(
    alloc: Global,
    disk: &mut D,
    view: &RingView<'_>,
    patch: &Patch,
    archive: u32,
    first: u32,
    count: u32,
) -> Result<Vec<Option<Milli>>, RingFault>
    requires layout { patch.now.layout ≡ view.now.layout }
    requires archive { archive < length view.now.layout.archives }
    requires fits { FitsFrom view.now.layout archive first count }
    requires file { IsThere view.now patch.now.fresh (D.image disk.old) }
{
    let base = view.base(disk, patch, archive)?;
    let based = BasedArchive { archive, base };
    view.cells_from(alloc, disk, patch, based, first, count)
}

/// `slots ARCHIVES METHOD FACTOR STORED LAID ARCHIVE [FAILING]`: the slots that hold anything, and how often the disk was read.
pub fn tell_slots(alloc: Global, told: &mut Told, case: &Case, layout: Layout) {
    let ring = Ring::read(alloc, case, layout, 6, told);
    let archive = case.small_at(5, told);
    if archive >= ring.layout.archive_count() {
        told.malformed();
    } else {
        tell_slots_of(alloc, told, &ring, archive);
    }
}

fn tell_slots_of(alloc: Global, told: &mut Told, ring: &Ring, archive: u32)
    requires { archive < length ring.now.layout.archives }
{
    let Ok(patch) = ring.patch(alloc) else {
        return told.fail(CaseFault::NoMemory);
    };
    let Ok(mut disk) = ring.disk(alloc, "a") else {
        return told.fail(CaseFault::NoMemory);
    };
    let view = RingView::new("a", ring.layout, ring.version);
    let found = view.stale(alloc, &mut disk, &patch, archive);
    tell_held(told, &found, &disk);
}

fn tell_held(told: &mut Told, found: &Result<Vec<u32>, RingFault>, disk: &MemDisk) {
    match found {
        Ok(slots) => tell_numbers(told, slots),
        Err(fault) => tell_fault(told, *fault),
    }
    tell_reads(told, disk);
}

fn tell_numbers(told: &mut Told, numbers: &[u32]) {
    for (i, number) in numbers.iter().enumerate() {
        if i > 0 {
            told.push(',');
        }
        write!(told, "{number}");
    }
}
