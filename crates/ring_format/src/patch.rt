//! Cells that are to be laid over a ring file.
ghost use Rattle.std.specs.Prelude.{◌≡◌, ◌≢◌, ◌<◌, ◌≤◌, ◌^◌, ◌↔◌, ℕ, [], All, IfErr, IfOk, IfSome, IsTrue, OnErr, OnOk, Some, length};
ghost use Rattle.std.specs.List.Sorted.{IsStrictlySortedBy};
ghost use Rattle.std.specs.Map.{keys_of};
ghost use Rattle.std.specs.Ordering.{is_gt};
ghost use Rattle.ring_format.specs.Patch.{IsFreeAt, IsLaidAt, IsPlace, PutsAt, cell_at, cells_before, first_cell_from, place_cmp, with_cell};

use crate::cell::CELL_BYTES;
use crate::layout::Layout;
use fixed_num::Milli;
use metric_path::MetricPath;
use std::alloc::{AllocError as NoMemory, Global};
use std::marker::Model;

/// A cell that is to be written: where it stands, and what it is to hold.
#[derive(Clone, Copy, Debug, PartialEq, Eq)]
pub struct CellWrite {
    /// The archive, from 0 on.
    pub archive: u32,
    /// The slot in the archive's ring, from 0 on.
    pub slot: u32,
    /// The bucket, in seconds since 1970.
    pub bucket: u32,
    /// The value.
    pub value: Milli,
}

/// The cells that are to be laid over one metric's file, and whether the file is to be created.
///
/// The cells stand in rising archive and slot, each under its place.
#[derive(Drop)]
pub struct Patch {
    path: MetricPath,
    layout: Layout,
    fresh: bool,
    cells: Vec<((u32, u32), (u32, Milli))>,
}

impl Model for Patch {
    ghost use Rattle.std.specs.Prelude.{All};
    ghost use Rattle.std.specs.List.Sorted.{IsStrictlySortedBy};
    ghost use Rattle.std.specs.Map.{keys_of};
    ghost use Rattle.ring_format.specs.Patch.{IsPlace, PatchValue, place_cmp};

    ghost Value = { PatchValue };

    ghost view = { λ a. record {
      path = a.path;
      layout = a.layout;
      fresh = a.fresh;
      cells = a.cells.items;
    } };

    ghost invariant = { λ a. IsStrictlySortedBy place_cmp (keys_of a.cells.items)
        × All (IsPlace a.layout) (keys_of a.cells.items) };
}

impl Patch {
    /// A patch without cells, for the metric of this path and a file of this layout; `fresh` where the
    /// file is to be created.
    pub fn new(alloc: Global, path: MetricPath, layout: Layout, fresh: bool) -> Patch
        ensures { result ≡ record { path = path; layout = layout; fresh = fresh; cells = [] } }
    {
        let cells = Vec::new(alloc);
        Patch {
            path,
            layout,
            fresh,
            cells,
        }
    }

    /// Lays a cell, in place of one with the same archive and slot. At `Err` the patch is as before.
    pub fn lay(&mut self, cell: CellWrite) -> Result<(), NoMemory>
        requires { IsPlace self.old.layout (cell.archive, cell.slot) }
        ensures ok { OnOk result (self.new ≡ record self.old {
          cells =
              with_cell self.old.cells (cell.archive, cell.slot) (cell.bucket, cell.value);
        }) }
        ensures err { OnErr result (self.new ≡ self.old) }

        // The place has the new cell, and each other place has what it had.
        ensures here { OnOk result
            (cell_at self.new.cells (cell.archive, cell.slot) ≡ Some (cell.bucket, cell.value)) }
        ensures others { OnOk result ((place : ℕ × ℕ) → place ≢ (cell.archive, cell.slot)
            → cell_at self.new.cells place ≡ cell_at self.old.cells place) }
    {
        put_cell(
            &mut self.cells,
            (cell.archive, cell.slot),
            (cell.bucket, cell.value),
        )
    }

    /// Asks at once for room for a cell at each place of the layout, so that laying asks for none
    /// again. The patch stays as it is.
    pub fn reserve_all(&mut self) -> Result<(), NoMemory>
        ensures { self.new ≡ self.old }
    {
        let most = self.layout.file_size() / CELL_BYTES as u64;
        self.cells.reserve_exact(most as usize)
    }

    /// The bucket and the value laid at a place, or `None` where no cell is.
    pub fn cell(&self, archive: u32, slot: u32) -> Option<(u32, Milli)>
        ensures { result ≡ cell_at self.now.cells (archive, slot) }
    {
        cell_in(&self.cells, archive, slot)
    }

    /// The cells in rising archive and slot: each place, and then its bucket and value.
    pub fn cells(&self) -> &[((u32, u32), (u32, Milli))]
        ensures value { result.now ≡ self.now.cells }
        ensures rise { IsStrictlySortedBy place_cmp (keys_of self.now.cells) }
        ensures placed { All (IsPlace self.now.layout) (keys_of self.now.cells) }
        ensures fits { length self.now.cells < 2 ^ 63 }
    {
        self.cells.as_slice()
    }

    /// The first cell at a place or behind it, in rising archive and slot: its place, and then its bucket
    /// and value.
    pub fn first_cell_from(&self, archive: u32, slot: u32) -> Option<((u32, u32), (u32, Milli))>
        ensures value { result ≡ first_cell_from self.now.cells (archive, slot) }
        ensures placed { IfSome result (λ cell. IsPlace self.now.layout cell.0) }
    {
        first_from(&self.cells, archive, slot)
    }

    /// How many cells the patch has.
    pub fn cell_count(&self) -> usize
        ensures { result ≡ length self.now.cells }
    {
        self.cells.len()
    }

    /// Whether the file is to be created.
    pub fn fresh(&self) -> bool
        ensures { result ≡ self.now.fresh }
    {
        self.fresh
    }

    /// The path of the metric.
    pub fn path(&self) -> &MetricPath
        ensures { result.now ≡ self.now.path }
    {
        &self.path
    }

    /// The layout of the file.
    pub fn layout(&self) -> Layout
        ensures { result ≡ self.now.layout }
    {
        self.layout
    }
}

// For so many cells room is asked at once at least.
const MORE_CELLS: usize = 64;

// Puts a cell into cells of rising place, in place of one of the same place.
fn put_cell(
    cells: &mut Vec<((u32, u32), (u32, Milli))>,
    place: (u32, u32),
    held: (u32, Milli),
) -> Result<(), NoMemory>
    requires { IsStrictlySortedBy place_cmp (keys_of cells.old.items) }
    ensures ok { OnOk result (cells.new.items ≡ with_cell cells.old.items place held) }
    ensures err { OnErr result (cells.new.items ≡ cells.old.items) }
    ensures rise { IsStrictlySortedBy place_cmp (keys_of cells.new.items) }
{
    match find(cells, place) {
        Ok(at) => {
            cells[at] = (place, held);
            Ok(())
        }
        Err(at) => {
            make_room(cells)?;
            cells.insert(at, (place, held))?;
            Ok(())
        }
    }
}

// Room for a further cell, and where there is none for so many at once that most patches ask for memory twice at most.
fn make_room(cells: &mut Vec<((u32, u32), (u32, Milli))>) -> Result<(), NoMemory>
    ensures { cells.new.items ≡ cells.old.items }
{
    if cells.len() < cells.capacity() {
        return Ok(());
    }
    cells.reserve(cells.len().max(MORE_CELLS))?;
    Ok(())
}

// Where the cell of a place stands, or else where it would.
fn find(cells: &[((u32, u32), (u32, Milli))], place: (u32, u32)) -> Result<usize, usize>
    requires { IsStrictlySortedBy place_cmp (keys_of cells.now) }
    ensures there { IfOk result (IsLaidAt cells.now place) }
    ensures absent { IfErr result (IsFreeAt cells.now place) }
{
    let at = cells_before(cells, place.0, place.1);
    if at < cells.len() && stands_at(&cells[at], place.0, place.1) {
        return Ok(at);
    }
    Err(at)
}

// The bucket and the value of a place's cell among cells of rising place.
fn cell_in(cells: &[((u32, u32), (u32, Milli))], archive: u32, slot: u32) -> Option<(u32, Milli)>
    requires { IsStrictlySortedBy place_cmp (keys_of cells.now) }
    ensures { result ≡ cell_at cells.now (archive, slot) }
{
    if let Some(held) = near_cell(cells, archive, slot) {
        return Some(held);
    }
    let found = first_from(cells, archive, slot)?;
    if stands_at(&found, archive, slot) {
        return Some(found.1);
    }
    None
}

// A place's cell, if it is where it stands when no slot is free between it and the last cell, or the first one.
// Cells of a drain mostly stand in neighbouring slots, so that the search is seldom needed.
fn near_cell(cells: &[((u32, u32), (u32, Milli))], archive: u32, slot: u32) -> Option<(u32, Milli)>
    requires { IsStrictlySortedBy place_cmp (keys_of cells.now) }
    ensures { IfSome result (λ held. cell_at cells.now (archive, slot) ≡ Some held) }
{
    let count = cells.len();
    if count == 0 {
        return None;
    }
    let behind = cells[count - 1].0.1.saturating_sub(slot) as usize;
    let near = held_at(cells, (count - 1).saturating_sub(behind), archive, slot);
    if near.is_some() {
        return near;
    }
    let before = slot.saturating_sub(cells[0].0.1) as usize;
    held_at(cells, before, archive, slot)
}

// The bucket and the value of the cell at an index, where it stands at this place.
fn held_at(
    cells: &[((u32, u32), (u32, Milli))],
    at: usize,
    archive: u32,
    slot: u32,
) -> Option<(u32, Milli)>
    requires { IsStrictlySortedBy place_cmp (keys_of cells.now) }
    ensures { IfSome result (λ held. cell_at cells.now (archive, slot) ≡ Some held) }
{
    if at < cells.len() && stands_at(&cells[at], archive, slot) {
        return Some(cells[at].1);
    }
    None
}

// The first of cells of rising place that stands at a place or behind it.
fn first_from(
    cells: &[((u32, u32), (u32, Milli))],
    archive: u32,
    slot: u32,
) -> Option<((u32, u32), (u32, Milli))>
    requires { IsStrictlySortedBy place_cmp (keys_of cells.now) }
    ensures { result ≡ first_cell_from cells.now (archive, slot) }
{
    let at = cells_before(cells, archive, slot);
    if at < cells.len() {
        return Some(cells[at]);
    }
    None
}

// How many of these cells, in rising place, stand before a place. Mostly it is all of them.
fn cells_before(cells: &[((u32, u32), (u32, Milli))], archive: u32, slot: u32) -> usize
    requires { IsStrictlySortedBy place_cmp (keys_of cells.now) }
    ensures value { result ≡ cells_before cells.now (archive, slot) }
    ensures within { result ≤ length cells.now }
    ensures puts { PutsAt cells.now (archive, slot) result }
{
    let count = cells.len();
    if count == 0 {
        return 0;
    }
    if stands_before(&cells[count - 1], archive, slot) {
        return count;
    }
    cells.partition_point(|cell| stands_before(cell, archive, slot))
}

// Whether a cell stands before a place.
fn stands_before(cell: &((u32, u32), (u32, Milli)), archive: u32, slot: u32) -> bool
    ensures { result ≡ is_gt (place_cmp (archive, slot) cell.now.0) }
{
    let (found_archive, found_slot) = cell.0;
    found_archive < archive || found_archive == archive && found_slot < slot
}

// Whether a cell stands at a place.
fn stands_at(cell: &((u32, u32), (u32, Milli)), archive: u32, slot: u32) -> bool
    ensures { IsTrue result ↔ cell.now.0 ≡ (archive, slot) }
{
    let (found_archive, found_slot) = cell.0;
    found_archive == archive && found_slot == slot
}
