//! Files of version 1 that are written anew.
ghost use Rattle.std.specs.Prelude.{◌≡◌, ◌<◌, IfOk, length, true};
ghost use Rattle.point_cache.specs.Points.{IsRising};

use crate::fetches::are_legal;
use crate::patches::tell_laid;
use crate::rings::{case_fault_of, disk_of, file_of, read_of};
use crate::told::tell_value;
use crate::words::{cells_in, path_in, place_in, points_in};
use archive_update::{carry, plan};
use case_lines::{Case, CaseFault, Told, halves, made, read_small, read_text};
use fixed_num::Milli;
use outside_io::MemDisk;
use ring_archive::RingView;
use ring_format::{Layout, OLD_VERSION, Patch, VERSION};
use std::alloc::Global;

/// `carry ARCHIVES METHOD FACTOR STORED`: the cells that a file of version 1, which holds
/// these, is carried into.
pub fn tell_carried(alloc: Global, told: &mut Told, case: &Case, layout: Layout) {
    if let Some(file) = old_file(alloc, &layout, case, told) {
        tell_carried_file(alloc, told, layout, &file);
    }
}

fn tell_carried_file(alloc: Global, told: &mut Told, layout: Layout, file: &[u8]) {
    match carried(alloc, layout, file) {
        Ok(patch) => tell_laid(told, &patch),
        Err(fault) => told.fail(fault),
    }
}

/// `carried-drain ARCHIVES METHOD FACTOR STORED POINTS@NOW ARCHIVE/BUCKET..`: the values of
/// these buckets after a file of version 1 was carried into a patch and the points were drained
/// into it.
pub fn tell_drained(alloc: Global, told: &mut Told, case: &Case, layout: Layout) {
    if let Some(file) = old_file(alloc, &layout, case, told) {
        tell_drained_file(alloc, told, case, layout, &file);
    }
}

fn tell_drained_file(alloc: Global, told: &mut Told, case: &Case, layout: Layout, file: &[u8]) {
    let (points, now) = halves(case.text_at(4, told), '@', told);
    let points = points_in(alloc, points, told);
    let now = read_small(now, told);
    match drained(alloc, layout, file, points.list(), now) {
        Ok(patch) => tell_buckets(alloc, told, layout, &patch, case.rest(5)),
        Err(fault) => told.fail(fault),
    }
}

fn tell_buckets(alloc: Global, told: &mut Told, layout: Layout, patch: &Patch, words: &[Vec<u8>])
    requires layout { patch.now.layout ≡ layout }
    requires fresh { patch.now.fresh ≡ true }
{
    for word in words {
        told.push_blank();
        tell_bucket(alloc, told, layout, patch, word);
    }
}

// The bytes of a file of version 1.
fn old_file(alloc: Global, layout: &Layout, case: &Case, told: &mut Told) -> Option<Vec<u8>> {
    let cells = cells_in(alloc, layout, case.text_at(3, told), told);
    made(file_of(alloc, layout, OLD_VERSION, &cells), told)
}

// What such a file is carried into.
fn carried(alloc: Global, layout: Layout, file: &[u8]) -> Result<Patch, CaseFault>
    ensures layout { IfOk result (λ patch. patch.layout ≡ layout) }
    ensures fresh { IfOk result (λ patch. patch.fresh ≡ true) }
{
    let patch = Patch::new(alloc, path_in(alloc, b"a")?, layout, true);
    let mut disk = disk_of(alloc, "a", &layout, OLD_VERSION, file)?;
    let view = RingView::new("a", layout, OLD_VERSION);
    match carry(alloc, &view, &mut disk, patch) {
        Ok(patch) => Ok(patch),
        Err(left) => Err(case_fault_of(left.1)),
    }
}

// That, with points drained into it.
fn drained(
    alloc: Global,
    layout: Layout,
    file: &[u8],
    points: &[(u32, Milli)],
    now: u32,
) -> Result<Patch, CaseFault>
    requires { IsRising points.now }
    ensures layout { IfOk result (λ patch. patch.layout ≡ layout) }
    ensures fresh { IfOk result (λ patch. patch.fresh ≡ true) }
{
    if !are_legal(points) {
        return Err(CaseFault::Malformed);
    }
    let patch = carried(alloc, layout, file)?;
    let mut disk = disk_of(alloc, "a", &layout, OLD_VERSION, file)?;
    let view = RingView::new("a", layout, OLD_VERSION);
    match plan(alloc, &view, &mut disk, patch, points, now) {
        Ok(patch) => Ok(patch),
        Err(left) => Err(case_fault_of(left.1)),
    }
}

fn tell_bucket(alloc: Global, told: &mut Told, layout: Layout, patch: &Patch, word: &[u8])
    requires layout { patch.now.layout ≡ layout }
    requires fresh { patch.now.fresh ≡ true }
{
    let place = place_in(read_text(word, told), told);
    match value_under(alloc, layout, patch, place.archive, place.at) {
        Ok(value) => tell_value(told, value),
        Err(fault) => told.fail(fault),
    }
}

// What a patch has there that makes its file anew, which is not there yet.
fn value_under(
    alloc: Global,
    layout: Layout,
    patch: &Patch,
    archive: u32,
    bucket: u32,
) -> Result<Option<Milli>, CaseFault>
    requires layout { patch.now.layout ≡ layout }
    requires fresh { patch.now.fresh ≡ true }
{
    if archive >= layout.archive_count() {
        return Err(CaseFault::Malformed);
    }
    let mut disk = MemDisk::new(alloc, 0);
    let view = RingView::new("a", layout, VERSION);
    let found = view.cell_at(&mut disk, patch, archive, bucket);
    read_of(found)
}
