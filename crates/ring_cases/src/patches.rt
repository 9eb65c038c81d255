//! The cells that are to be laid over a file.
ghost use Rattle.std.specs.Prelude.{◌≡◌, IfOk};

use crate::told::{tell_cell, tell_layout};
use crate::words::{cells_in, is_new, path_in, place_in};
use case_lines::{Case, CaseFault, Told, made};
use fixed_num::{Milli, wide};
use ring_format::{CellWrite, Layout, Patch};
use std::alloc::Global;

/// A patch of the metric of a path that lays these cells, in this order.
pub fn patch_with(
    alloc: Global,
    path: &[u8],
    layout: Layout,
    fresh: bool,
    cells: &[CellWrite],
) -> Result<Patch, CaseFault>
    ensures layout { IfOk result (λ patch. patch.layout ≡ layout) }
    ensures fresh { IfOk result (λ patch. patch.fresh ≡ fresh) }
{
    let mut patch = Patch::new(alloc, path_in(alloc, path)?, layout, fresh);
    for cell in cells {
        if !patch.layout().has_slot(cell.archive, cell.slot) {
            return Err(CaseFault::Malformed);
        }
        patch.lay(*cell)?;
    }
    Ok(patch)
}

/// `patch-of ARCHIVES METHOD FACTOR PATH new|old LAID`: what it is for.
pub fn tell_patch(alloc: Global, told: &mut Told, case: &Case, layout: Layout) {
    let path = case.bytes_at(3, told);
    let fresh = is_new(case.text_at(4, told), told);
    let cells = case.text_at(5, told);
    if let Some(patch) = patch_laying(alloc, path, layout, fresh, cells, told) {
        tell_aim(told, &patch);
    }
}

fn tell_aim(told: &mut Told, patch: &Patch) {
    told.push_str(if patch.fresh() { "new " } else { "old " });
    write!(told, "{} ", patch.path().as_str());
    tell_layout(told, &patch.layout());
}

/// The patch that lays the cells that a text says.
pub fn patch_laying(
    alloc: Global,
    path: &[u8],
    layout: Layout,
    fresh: bool,
    text: &str,
    told: &mut Told,
) -> Option<Patch> {
    let cells = cells_in(alloc, &layout, text, told);
    made(patch_with(alloc, path, layout, fresh, &cells), told)
}

// The patch of `ARCHIVES METHOD FACTOR LAID`.
fn patch_of(alloc: Global, case: &Case, layout: Layout, told: &mut Told) -> Option<Patch> {
    patch_laying(alloc, b"a", layout, false, case.text_at(3, told), told)
}

/// `patch-cells ARCHIVES METHOD FACTOR LAID`: how many cells there are, and all of them.
pub fn tell_cells(alloc: Global, told: &mut Told, case: &Case, layout: Layout) {
    if let Some(patch) = patch_of(alloc, case, layout, told) {
        tell_laid(told, &patch);
    }
}

/// Tells how many cells a patch has, and all of them.
pub fn tell_laid(told: &mut Told, patch: &Patch) {
    write!(told, "{}", patch.cell_count());
    for (place, held) in patch.cells() {
        told.push(' ');
        tell_cell(told, *place, *held);
    }
}

/// `patch-cell ARCHIVES METHOD FACTOR LAID ARCHIVE/SLOT`: the bucket and the value of the cell there, or `-`.
pub fn tell_cell_at(alloc: Global, told: &mut Told, case: &Case, layout: Layout) {
    let place = place_in(case.text_at(4, told), told);
    if let Some(patch) = patch_of(alloc, case, layout, told) {
        tell_held(told, patch.cell(place.archive, place.at));
    }
}

fn tell_held(told: &mut Told, held: Option<(u32, Milli)>) {
    match held {
        Some(held) => write!(told, "{}:{}", held.0, wide(held.1)),
        None => told.push('-'),
    }
}

/// `patch-from ARCHIVES METHOD FACTOR LAID ARCHIVE/SLOT`: the first cell from there on, or `-`.
pub fn tell_cell_from(alloc: Global, told: &mut Told, case: &Case, layout: Layout) {
    let place = place_in(case.text_at(4, told), told);
    if let Some(patch) = patch_of(alloc, case, layout, told) {
        tell_first(told, patch.first_cell_from(place.archive, place.at));
    }
}

fn tell_first(told: &mut Told, found: Option<((u32, u32), (u32, Milli))>) {
    match found {
        Some(cell) => tell_cell(told, cell.0, cell.1),
        None => told.push('-'),
    }
}
