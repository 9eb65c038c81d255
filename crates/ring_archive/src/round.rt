//! The cells of a ring in memory.
ghost use Rattle.std.specs.Prelude.{◌≡◌, ◌+◌, ◌*◌, ◌%◌, ◌<◌, ◌≤◌, true, false, IfOk, IsErrOf, OnOk, length, replicate, take, drop, IsErr};
ghost use Rattle.outside_io.specs.Frames.{ReadsOnly};
ghost use Rattle.ring_archive.specs.Ring.{OnFile, cell_offset};
ghost use Rattle.ring_archive.specs.View.{IsThere, OnRing};
ghost use Rattle.ring_archive.specs.Held.{GoesRound, HoldsSlots, IsRoundOf, cell_behind, held_cell, slot_behind};
ghost use Rattle.ring_format.specs.Cell.{IsVersion, cell_size_in};

use crate::fault::RingFault;
use crate::view::RingView;
use fixed_num::Milli;
use outside_io::{Disk, DiskFailed};
use ring_format::{Patch, cell_bytes_in, read_cell};
use std::alloc::{AllocError, Global};

// The slots of an archive's ring, from one on and round the ring's end.
#[derive(Clone, Copy, Debug)]
pub(crate) struct Round {
    // The archive, from 0 on.
    pub(crate) archive: u32,
    // How many slots the ring has.
    pub(crate) points: u32,
    // The first slot.
    pub(crate) slot: u32,
    // The version of the file.
    pub(crate) version: u32,
}

impl RingView<'_> {
    // So many cells of a ring, as the file holds them; under a fresh patch they are zero, and no disk is read.
    // The disk is read once, or twice where the cells go round the ring's end.
    pub(crate) fn held_cells<D: Disk>(
        &self,
        alloc: Global,
        disk: &mut D,
        fresh: bool,
        round: Round,
        count: u32,
    ) -> Result<Vec<u8>, RingFault>
        requires archive { round.archive < length self.now.layout.archives }
        requires round { GoesRound self.now.layout.archives round count }
        requires file { IsThere self.now fresh (D.image disk.old) }
        requires version { round.version ≡ self.now.version }
        ensures length { IfOk result
            (λ bytes. length bytes.items ≡ cell_size_in round.version * count) }
        ensures cells { IfOk result
            (λ bytes. OnRing self.now fresh (D.image disk.old)
            (λ file. HoldsSlots fresh self.now.layout.archives file round bytes.items)) }
        ensures unread { fresh ≡ true → disk.new ≡ disk.old }
        ensures frame { ReadsOnly D.Disk disk.old disk.new (IsErrOf result RingFault.DiskFault) }
    {
        let mut bytes = zeros(alloc, cell_bytes_in(round.version) * count as usize)?;
        if fresh {
            return Ok(bytes);
        }
        self.read_round(disk, round, &mut bytes)?;
        Ok(bytes)
    }

    // Fills a buffer with the cells of a ring, as the file holds them.
    fn read_round<D: Disk>(
        &self,
        disk: &mut D,
        round: Round,
        bytes: &mut [u8],
    ) -> Result<(), DiskFailed>
        requires archive { round.archive < length self.now.layout.archives }
        requires ring { IsRoundOf self.now.layout.archives round }
        requires slot { round.slot < round.points }
        requires version { round.version ≡ self.now.version }
        requires room { length bytes.old ≤ cell_size_in round.version * round.points }
        requires file { IsThere self.now false (D.image disk.old) }
        ensures cells { OnOk result
            (OnFile (D.image disk.old) self.now.name.now
            (λ file. HoldsSlots false self.now.layout.archives file round bytes.new)) }
        ensures frame { ReadsOnly D.Disk disk.old disk.new (IsErr result) }
    {
        let before_end = cell_bytes_in(round.version) * (round.points - round.slot) as usize;
        if bytes.len() <= before_end {
            return self.read_slots(disk, round, bytes);
        }
        let (front, back) = bytes.split_at_mut(before_end);
        self.read_slots(disk, round, front)?;
        self.read_slots(disk, Round { slot: 0, ..round }, back)
    }

    // Fills a buffer with the bytes of neighbouring slots, from the first one of a ring on.
    fn read_slots<D: Disk>(
        &self,
        disk: &mut D,
        round: Round,
        bytes: &mut [u8],
    ) -> Result<(), DiskFailed>
        requires archive { round.archive < length self.now.layout.archives }
        requires ring { IsRoundOf self.now.layout.archives round }
        requires version { round.version ≡ self.now.version }
        requires room { cell_size_in round.version * round.slot + length bytes.old
            ≤ cell_size_in round.version * round.points }
        requires file { IsThere self.now false (D.image disk.old) }
        ensures bytes { OnOk result
            (OnFile (D.image disk.old) self.now.name.now
            (λ file. bytes.new ≡ take (length bytes.old)
            (drop (cell_offset round.version self.now.layout.archives (round.archive, round.slot))
            file))) }
        ensures frame { ReadsOnly D.Disk disk.old disk.new (IsErr result) }
    {
        let offset = u64::from(self.layout.offset_in(round.archive, round.version));
        let at = offset + cell_bytes_in(round.version) as u64 * u64::from(round.slot);
        disk.read_at(self.name, at, bytes)
    }
}

impl Round {
    // The slot so many slots behind the first one.
    pub(crate) fn slot_behind(self, place: u32) -> u32
        requires slot { self.slot < self.points }
        requires place { place < self.points }
        ensures { result ≡ slot_behind self place }
    {
        let before_end = self.points - self.slot;
        if place < before_end {
            return self.slot + place;
        }
        place - before_end
    }

    // The cell so many slots behind the first one: the patch's, and else that in memory.
    #[tactic(auto, unfolding(crate::specs::Held::cell_behind))]
    pub(crate) fn cell_behind(self, patch: &Patch, bytes: &[u8], place: u32) -> (u32, Option<Milli>)
        requires version { IsVersion self.version }
        requires slot { self.slot < self.points }
        requires place { place < self.points }
        requires held { cell_size_in self.version * place + cell_size_in self.version
            ≤ length bytes.now }
        ensures { result ≡ cell_behind patch.now.cells self bytes.now place }
    {
        match patch.cell(self.archive, self.slot_behind(place)) {
            Some((bucket, value)) => (bucket, Some(value)),
            None => held_cell(self.version, bytes, place as usize),
        }
    }
}

// So many zero bytes.
fn zeros(alloc: Global, count: usize) -> Result<Vec<u8>, AllocError>
    ensures { IfOk result (λ bytes. bytes.items ≡ replicate count 0) }
{
    vec![in alloc; 0; count]
}

// The cell at a place of the memory.
#[tactic(auto, unfolding(crate::specs::Held::held_cell))]
pub(crate) fn held_cell(version: u32, bytes: &[u8], place: usize) -> (u32, Option<Milli>)
    requires version { IsVersion version }
    requires held { cell_size_in version * place + cell_size_in version ≤ length bytes.now }
    ensures { result ≡ held_cell version bytes.now place }
{
    let size = cell_bytes_in(version);
    let at = size * place;
    read_cell(version, &bytes[at..at + size])
}
