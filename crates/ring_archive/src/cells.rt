//! The values of many buckets.
ghost use Rattle.std.specs.Prelude.{◌≡◌, ◌+◌, ◌*◌, ◌%◌, ◌==◌, ◌^◌, ◌<◌, ◌≤◌, true, None, if◌then◌else◌, IfOk, IsErrOf, length, map, min, replicate};
ghost use Rattle.std.specs.List.{range_with_len};
ghost use Rattle.outside_io.specs.Frames.{ReadsOnly};
ghost use Rattle.ring_archive.specs.Ring.{FitsFrom, value_for, values_from};
ghost use Rattle.ring_archive.specs.View.{IsBased, IsThere, OnRing};
ghost use Rattle.ring_archive.specs.Held.{cell_behind, held_cell, held_value, picked_value};
ghost use Rattle.ring_format.specs.Cell.{IsVersion, cell_size_in};

use crate::fault::RingFault;
use crate::near::{index_of, laid_at};
use crate::round::{Round, held_cell};
use crate::view::{BasedArchive, RingView, value_for};
use fixed_num::Milli;
use outside_io::Disk;
use ring_format::{Patch, slot_of};
use std::alloc::{AllocError, Global};

impl RingView<'_> {
    /// The values of `count` buckets of an archive, from the bucket `first` on, a step apart. However many
    /// they are, the disk is read at most three times: the base, and the ring's cells in one stretch or two.
    pub fn cells<D: Disk>(
        &self,
        alloc: Global,
        disk: &mut D,
        patch: &Patch,
        archive: u32,
        first: u32,
        count: u32,
    ) -> Result<Vec<Option<Milli>>, RingFault>
        requires layout { patch.now.layout ≡ self.now.layout }
        requires archive { archive < length self.now.layout.archives }
        requires fits { FitsFrom self.now.layout archive first count }
        requires file { IsThere self.now patch.now.fresh (D.image disk.old) }
        ensures values { IfOk result
            (λ values. OnRing self.now patch.now.fresh (D.image disk.old)
            (λ file. values.items ≡ values_from patch.now file archive first count)) }
        ensures count { IfOk result (λ values. length values.items ≡ count) }
        ensures unread { patch.now.fresh ≡ true → disk.new ≡ disk.old }
        ensures frame { ReadsOnly D.Disk disk.old disk.new (IsErrOf result RingFault.DiskFault) }
    {
        if first % self.layout.archive(archive).step != 0 {
            return Ok(no_values(alloc, count)?);
        }
        let base = self.base(disk, patch, archive)?;
        let based = BasedArchive { archive, base };
        self.cells_from(alloc, disk, patch, based, first, count)
    }

    /// The same values of an archive whose base is known: the disk is read at most twice, the ring's cells in
    /// one stretch or two.
    pub fn cells_from<D: Disk>(
        &self,
        alloc: Global,
        disk: &mut D,
        patch: &Patch,
        based: BasedArchive,
        first: u32,
        count: u32,
    ) -> Result<Vec<Option<Milli>>, RingFault>
        requires layout { patch.now.layout ≡ self.now.layout }
        requires based { IsBased self.now patch.now (D.image disk.old) based.archive based.base }
        requires fits { FitsFrom self.now.layout based.archive first count }
        requires file { IsThere self.now patch.now.fresh (D.image disk.old) }
        ensures values { IfOk result
            (λ values. OnRing self.now patch.now.fresh (D.image disk.old)
            (λ file. values.items
            ≡ values_from patch.now file based.archive first count)) }
        ensures count { IfOk result (λ values. length values.items ≡ count) }
        ensures unread { patch.now.fresh ≡ true → disk.new ≡ disk.old }
        ensures frame { ReadsOnly D.Disk disk.old disk.new (IsErrOf result RingFault.DiskFault) }
    {
        let ring = self.layout.archive(based.archive);
        if first % ring.step != 0 {
            return Ok(no_values(alloc, count)?);
        }
        if based.base == 0 {
            return Ok(no_values(alloc, count)?);
        }
        let round = Round {
            archive: based.archive,
            points: ring.points,
            slot: slot_of(based.base, first, ring),
            version: self.version,
        };
        let held = count.min(ring.points);
        let bytes = self.held_cells(alloc, disk, patch.fresh(), round, held)?;
        Ok(picked_values(alloc, patch, round, &bytes, first, ring.step, count)?)
    }
}

// So many buckets that have no value.
fn no_values(alloc: Global, count: u32) -> Result<Vec<Option<Milli>>, AllocError>
    ensures { IfOk result (λ values. values.items ≡ replicate count None) }
{
    vec![in alloc; None; count as usize]
}

// The values of buckets from the first one on, of the cells in memory with the patch's laid over them.
fn picked_values(
    alloc: Global,
    patch: &Patch,
    round: Round,
    bytes: &[u8],
    first: u32,
    step: u32,
    count: u32,
) -> Result<Vec<Option<Milli>>, AllocError>
    requires slot { round.slot < round.points }
    requires fits { first + count * step < 2 ^ 32 }
    requires version { IsVersion round.version }
    requires held { length bytes.now ≡ cell_size_in round.version * min count round.points }
    ensures { IfOk result
        (λ values. values.items ≡ map
        (λ k. picked_value patch.now.cells round bytes.now first step k) (range_with_len 0 count)) }
{
    if patch.cell_count() == 0 && count <= round.points {
        return held_values(alloc, round.version, bytes, first, step, count);
    }
    laid_values(alloc, patch, round, bytes, first, step, count)
}

// The same where the patch lays no cell and no more buckets are wanted than the ring has slots.
#[tactic(auto, unfolding(crate::specs::Held::held_value), using(crate::proofs::RangeLists::map_more))]
fn held_values(
    alloc: Global,
    version: u32,
    bytes: &[u8],
    first: u32,
    step: u32,
    count: u32,
) -> Result<Vec<Option<Milli>>, AllocError>
    requires fits { first + count * step < 2 ^ 32 }
    requires version { IsVersion version }
    requires held { length bytes.now ≡ cell_size_in version * count }
    ensures { IfOk result (λ values. values.items
        ≡ map (λ k. held_value version bytes.now first step k) (range_with_len 0 count)) }
{
    let mut values = Vec::with_capacity(alloc, count as usize)?;
    let mut bucket = first;
    for k in 0..count {
        values.push(held_value(version, bytes, bucket, k))?;
        bucket += step;
    }
    Ok(values)
}

// The value of a bucket in the cell at a place of the memory.
fn held_value(version: u32, bytes: &[u8], bucket: u32, place: u32) -> Option<Milli>
    requires version { IsVersion version }
    requires held { cell_size_in version * place + cell_size_in version ≤ length bytes.now }
    ensures { result ≡ (if bucket == 0 then None else value_for bucket
        (held_cell version bytes.now place)) }
{
    if bucket == 0 {
        return None;
    }
    value_for(bucket, held_cell(version, bytes, place as usize))
}

// The same where the patch lays cells over those in memory.
#[tactic(auto, unfolding(crate::specs::Held::picked_value), using(crate::proofs::RangeLists::map_more))]
fn laid_values(
    alloc: Global,
    patch: &Patch,
    round: Round,
    bytes: &[u8],
    first: u32,
    step: u32,
    count: u32,
) -> Result<Vec<Option<Milli>>, AllocError>
    requires slot { round.slot < round.points }
    requires fits { first + count * step < 2 ^ 32 }
    requires version { IsVersion round.version }
    requires held { length bytes.now ≡ cell_size_in round.version * min count round.points }
    ensures { IfOk result
        (λ values. values.items ≡ map
        (λ k. picked_value patch.now.cells round bytes.now first step k) (range_with_len 0 count)) }
{
    let mut values = Vec::with_capacity(alloc, count as usize)?;
    let mut at = index_of(patch, round.archive, round.slot);
    let mut place = 0;
    for k in 0..count {
        let picked = picked_value(patch, at, round, bytes, first + k * step, place);
        values.push(picked.value)?;
        at = picked.next;
        place = place_behind(place, round.points);
    }
    Ok(values)
}

// The place behind another, of so many that are gone round.
fn place_behind(place: u32, points: u32) -> u32
    requires { place < points }
    ensures { result ≡ (place + 1) % points }
{
    if place == points - 1 {
        return 0;
    }
    place + 1
}

// A value, and at which index of a patch the cell of the next slot most likely stands. Nothing rests on that.
#[derive(Clone, Copy, Debug)]
struct Picked {
    value: Option<Milli>,
    next: usize,
}

// The value of a bucket in the cell so many slots behind the first one in memory. Where the patch has one it is
// looked for at an index first.
#[tactic(auto, unfolding(crate::specs::Held::cell_behind))]
fn picked_value(
    patch: &Patch,
    at: usize,
    round: Round,
    bytes: &[u8],
    bucket: u32,
    place: u32,
) -> Picked
    requires slot { round.slot < round.points }
    requires place { place < round.points }
    requires version { IsVersion round.version }
    requires held { cell_size_in round.version * place + cell_size_in round.version
        ≤ length bytes.now }
    ensures { result.value ≡ (if bucket == 0 then None else value_for bucket
        (cell_behind patch.now.cells round bytes.now place)) }
{
    let slot = round.slot_behind(place);
    if let Some((held, value)) = laid_at(patch, at, round.archive, slot) {
        return Picked {
            value: value_in(bucket, (held, Some(value))),
            next: at.saturating_add(1),
        };
    }
    Picked {
        value: value_in(bucket, round.cell_behind(patch, bytes, place)),
        next: if slot == 0 {
            index_of(patch, round.archive, 1)
        } else {
            at
        },
    }
}

// The value that a cell has for a bucket, which the bucket 0 never has.
fn value_in(bucket: u32, cell: (u32, Option<Milli>)) -> Option<Milli>
    ensures { result ≡ (if bucket == 0 then None else value_for bucket cell) }
{
    if bucket == 0 {
        return None;
    }
    value_for(bucket, cell)
}
