//! Slots that hold anything.
ghost use Rattle.std.specs.Prelude.{◌≡◌, ◌++◌, ◌-◌, ◌*◌, ◌==◌, ◌<◌, ◌≤◌, IfOk, IsErrOf, OnOk, false, filter, length, unsigned_abs};
ghost use Rattle.std.specs.List.{list_all, list_any, range_with_len};
ghost use Rattle.std.specs.Option.{option_map_or};
ghost use Rattle.outside_io.specs.Frames.{ReadsOnly};
ghost use Rattle.ring_format.specs.Head.{is_zero};
ghost use Rattle.ring_format.specs.Cell.{IsVersion, cell_size_in};
ghost use Rattle.ring_archive.specs.Ring.{is_laid, stale_slots};
ghost use Rattle.ring_archive.specs.View.{IsThere, OnRing};
ghost use Rattle.ring_archive.specs.Held.{cell_behind, held_slots};

use crate::fault::RingFault;
use crate::round::{Round, held_cell};
use crate::view::RingView;
use fixed_num::{Milli, wide};
use outside_io::Disk;
use ring_format::{Patch, cell_bytes_in};
use std::alloc::{AllocError, Global};

// How many cells are passed over at once where all of them are zero.
const BLOCK_CELLS: u32 = 340;

impl RingView<'_> {
    /// The slots of an archive whose cell is not zero, in rising order. This costs one read of the disk, or none
    /// under a fresh patch, and time that grows with the archive's bytes: they are looked at in blocks, and a
    /// block of zeros is passed over as a whole. Only where the patch has a cell in this archive is each slot
    /// looked up in the patch.
    pub fn stale<D: Disk>(
        &self,
        alloc: Global,
        disk: &mut D,
        patch: &Patch,
        archive: u32,
    ) -> Result<Vec<u32>, RingFault>
        requires layout { patch.now.layout ≡ self.now.layout }
        requires archive { archive < length self.now.layout.archives }
        requires file { IsThere self.now patch.now.fresh (D.image disk.old) }
        ensures slots { IfOk result
            (λ slots. OnRing self.now patch.now.fresh (D.image disk.old)
            (λ file. slots.items ≡ stale_slots patch.now file archive)) }
        ensures frame { ReadsOnly D.Disk disk.old disk.new (IsErrOf result RingFault.DiskFault) }
    {
        let points = self.layout.archive(archive).points;
        let round = Round {
            archive,
            points,
            slot: 0,
            version: self.version,
        };
        let bytes = self.held_cells(alloc, disk, patch.fresh(), round, points)?;
        Ok(laid_slots(alloc, patch, round, &bytes)?)
    }
}

// The slots whose cell is not zero, of the cells in memory with the patch's laid over them.
fn laid_slots(
    alloc: Global,
    patch: &Patch,
    round: Round,
    bytes: &[u8],
) -> Result<Vec<u32>, AllocError>
    requires slot { round.slot < round.points }
    requires version { IsVersion round.version }
    requires held { length bytes.now ≡ cell_size_in round.version * round.points }
    ensures { IfOk result
        (λ slots. slots.items ≡ filter
        (λ slot. is_laid (cell_behind patch.now.cells round bytes.now slot))
        (range_with_len 0 round.points)) }
{
    if has_cells(patch, round.archive) {
        return patched_slots(alloc, patch, round, bytes);
    }
    held_slots(alloc, round.version, bytes, round.points)
}

// Whether a patch has a cell in an archive.
fn has_cells(patch: &Patch, archive: u32) -> bool
    ensures { result ≡ list_any (λ cell. cell.0.0 == archive) patch.now.cells }
{
    patch.cells().iter().any(|cell| cell.0.0 == archive)
}

// The same slots, each of which is looked up in the patch.
fn patched_slots(
    alloc: Global,
    patch: &Patch,
    round: Round,
    bytes: &[u8],
) -> Result<Vec<u32>, AllocError>
    requires slot { round.slot < round.points }
    requires version { IsVersion round.version }
    requires held { length bytes.now ≡ cell_size_in round.version * round.points }
    ensures { IfOk result
        (λ slots. slots.items ≡ filter
        (λ slot. is_laid (cell_behind patch.now.cells round bytes.now slot))
        (range_with_len 0 round.points)) }
{
    let mut slots = Vec::new(alloc);
    for slot in 0..round.points {
        if is_laid(round.cell_behind(patch, bytes, slot)) {
            slots.push(slot)?;
        }
    }
    Ok(slots)
}

// The slots whose cell in memory is not zero.
fn held_slots(
    alloc: Global,
    version: u32,
    bytes: &[u8],
    points: u32,
) -> Result<Vec<u32>, AllocError>
    requires version { IsVersion version }
    requires held { length bytes.now ≡ cell_size_in version * points }
    ensures { IfOk result (λ slots. slots.items ≡ held_slots version bytes.now 0 points) }
{
    let mut slots = Vec::new(alloc);
    let mut end = 0;
    while end < points {
        let first = end;
        end += (points - first).min(BLOCK_CELLS);
        add_block(&mut slots, version, bytes, first, end)?;
    }
    Ok(slots)
}

// Adds the slots of a block whose cell in memory is not zero.
fn add_block(
    slots: &mut Vec<u32>,
    version: u32,
    bytes: &[u8],
    first: u32,
    end: u32,
) -> Result<(), AllocError>
    requires version { IsVersion version }
    requires order { first ≤ end }
    requires held { cell_size_in version * end ≤ length bytes.now }
    ensures { OnOk result
        (slots.new.items ≡ slots.old.items ++ held_slots version bytes.now first (end - first)) }
{
    let size = cell_bytes_in(version);
    if is_zero(&bytes[size * first as usize..size * end as usize]) {
        return Ok(());
    }
    for slot in first..end {
        if is_laid(held_cell(version, bytes, slot as usize)) {
            slots.push(slot)?;
        }
    }
    Ok(())
}

// Whether each byte is zero. There is no early end, so that many bytes can be looked at together.
fn is_zero(bytes: &[u8]) -> bool
    ensures { result ≡ list_all is_zero bytes.now }
{
    let mut bits = 0;
    for byte in bytes {
        bits |= *byte;
    }
    bits == 0
}

// Whether a cell is not zero.
fn is_laid(cell: (u32, Option<Milli>)) -> bool
    ensures { result ≡ is_laid cell }
{
    !(cell.0 == 0 && is_known_zero(cell.1))
}

// Whether a value fits and is 0.
fn is_known_zero(value: Option<Milli>) -> bool
    ensures { result ≡ option_map_or (λ known. unsigned_abs known == 0) value false }
{
    match value {
        Some(known) => wide(known) == 0,
        None => false,
    }
}
