//! Looking up buckets in a ring file.
ghost use Rattle.std.specs.Prelude.{◌≡◌, ◌+◌, ◌<◌, ◌≤◌, true, false, IfOk, IfSome, IsErr, IsErrOf, length, Some, slice_get};
ghost use Rattle.outside_io.specs.Frames.{ReadsOnly};
ghost use Rattle.ring_format.specs.Cell.{IsVersion};
ghost use Rattle.ring_format.specs.Patch.{IsPlace};
ghost use Rattle.ring_archive.specs.Ring.{OnFile, is_bucket, ring_cell, stored_cell, value_for, value_of};
ghost use Rattle.ring_archive.specs.View.{IsThere, OnRing};

use fixed_num::{Milli, zero};
use outside_io::{Disk, DiskFailed};
use ring_format::{Archive, CELL_BYTES, Layout, Patch, cell_bytes_in, read_cell, slot_of};

/// The ring file of one name on a disk, with its layout and its version.
#[derive(Clone, Copy, Debug)]
pub struct RingView<'a> {
    /// The name of the file on the disk.
    pub name: &'a str,
    /// The layout of the file.
    pub layout: Layout,
    /// The version of the file: 1 or 2.
    pub version: u32,
}

/// An archive whose base is known.
#[derive(Clone, Copy, Debug)]
pub struct BasedArchive {
    /// The archive, from 0 on.
    pub archive: u32,
    /// The bucket in its first slot, in seconds since 1970, from which its slots are counted: 0 where it is
    /// empty.
    pub base: u32,
}

impl<'a> RingView<'a> {
    ghost use Rattle.ring_archive.specs.Ring.{base_of};

    /// The file of this name, which has this layout and version.
    pub fn new(name: &'a str, layout: Layout, version: u32) -> Self
        requires { IsVersion version }
        ensures name { result.name.now ≡ name.now }
        ensures layout { result.layout ≡ layout }
        ensures version { result.version ≡ version }
    {
        RingView {
            name,
            layout,
            version,
        }
    }

    /// The bucket in an archive's first slot, from which its slots are counted: 0 where the archive is empty.
    /// At most one cell is read from the disk, and none under a fresh patch.
    pub fn base<D: Disk>(
        &self,
        disk: &mut D,
        patch: &Patch,
        archive: u32,
    ) -> Result<u32, DiskFailed>
        requires layout { patch.now.layout ≡ self.now.layout }
        requires archive { archive < length self.now.layout.archives }
        requires file { IsThere self.now patch.now.fresh (D.image disk.old) }
        ensures value { IfOk result
            (λ base. OnRing self.now patch.now.fresh (D.image disk.old)
            (λ file. base ≡ base_of patch.now file archive)) }
        ensures unread { patch.now.fresh ≡ true → disk.new ≡ disk.old }
        ensures frame { ReadsOnly D.Disk disk.old disk.new (IsErr result) }
    {
        let _ = self.layout.archive(archive);
        let cell = self.ring_cell(disk, patch, archive, 0)?;
        Ok(cell.0)
    }

    /// The value of a bucket, in seconds since 1970, in an archive, from 0 on; in thousandths. `None` where
    /// the archive has none: it is empty, the slot holds another bucket, or the bucket is no positive
    /// multiple of the step. At most two cells are read from the disk, and none under a fresh patch.
    pub fn cell_at<D: Disk>(
        &self,
        disk: &mut D,
        patch: &Patch,
        archive: u32,
        bucket: u32,
    ) -> Result<Option<Milli>, DiskFailed>
        requires layout { patch.now.layout ≡ self.now.layout }
        requires archive { archive < length self.now.layout.archives }
        requires file { IsThere self.now patch.now.fresh (D.image disk.old) }
        ensures value { IfOk result
            (λ value. OnRing self.now patch.now.fresh (D.image disk.old)
            (λ file. value ≡ value_of patch.now file archive bucket)) }
        ensures unread { patch.now.fresh ≡ true → disk.new ≡ disk.old }
        ensures frame { ReadsOnly D.Disk disk.old disk.new (IsErr result) }
    {
        let ring = self.layout.archive(archive);
        if !is_bucket(bucket, ring) {
            return Ok(None);
        }
        let base = self.ring_cell(disk, patch, archive, 0)?;
        if base.0 == 0 {
            return Ok(None);
        }
        let slot = slot_of(base.0, bucket, ring);
        if slot == 0 {
            return Ok(value_for(bucket, base));
        }
        let cell = self.ring_cell(disk, patch, archive, slot)?;
        Ok(value_for(bucket, cell))
    }

    /// The bucket and the value in a slot of the file itself, without a patch; no value where
    /// it does not fit. One cell is read from the disk.
    pub fn raw<D: Disk>(
        &self,
        disk: &mut D,
        archive: u32,
        slot: u32,
    ) -> Result<(u32, Option<Milli>), DiskFailed>
        requires place { IsPlace self.now.layout (archive, slot) }
        requires file { IsThere self.now false (D.image disk.old) }
        ensures value { IfOk result
            (λ cell. OnFile (D.image disk.old) self.now.name.now
            (λ file. cell ≡ stored_cell self.now.layout.archives file (archive, slot))) }
        ensures frame { ReadsOnly D.Disk disk.old disk.new (IsErr result) }
    {
        self.stored_cell(disk, archive, slot)
    }

    // The bucket and the value in a slot: of the patch, and else of the file.
    #[tactic(auto, unfolding(crate::specs::Ring::ring_cell))]
    pub(crate) fn ring_cell<D: Disk>(
        &self,
        disk: &mut D,
        patch: &Patch,
        archive: u32,
        slot: u32,
    ) -> Result<(u32, Option<Milli>), DiskFailed>
        requires layout { patch.now.layout ≡ self.now.layout }
        requires place { IsPlace self.now.layout (archive, slot) }
        requires file { IsThere self.now patch.now.fresh (D.image disk.old) }
        ensures value { IfOk result
            (λ cell. OnRing self.now patch.now.fresh (D.image disk.old)
            (λ file. cell ≡ ring_cell patch.now file (archive, slot))) }
        ensures unread { patch.now.fresh ≡ true → disk.new ≡ disk.old }
        ensures frame { ReadsOnly D.Disk disk.old disk.new (IsErr result) }
    {
        if let Some((bucket, value)) = patch.cell(archive, slot) {
            return Ok((bucket, Some(value)));
        }
        if patch.fresh() {
            return Ok((0, Some(zero())));
        }
        self.stored_cell(disk, archive, slot)
    }

    // The bucket and the value in a slot of the file.
    #[tactic(auto, unfolding(crate::specs::Ring::stored_cell))]
    fn stored_cell<D: Disk>(
        &self,
        disk: &mut D,
        archive: u32,
        slot: u32,
    ) -> Result<(u32, Option<Milli>), DiskFailed>
        requires place { IsPlace self.now.layout (archive, slot) }
        requires file { IsThere self.now false (D.image disk.old) }
        ensures value { IfOk result
            (λ cell. OnFile (D.image disk.old) self.now.name.now
            (λ file. cell ≡ stored_cell self.now.layout.archives file (archive, slot))) }
        ensures frame { ReadsOnly D.Disk disk.old disk.new (IsErr result) }
    {
        let size = cell_bytes_in(self.version);
        let offset = u64::from(self.layout.offset_in(archive, self.version));
        let mut bytes = [0; CELL_BYTES];
        let cell = &mut bytes[..size];
        disk.read_at(self.name, offset + size as u64 * u64::from(slot), cell)?;
        Ok(read_cell(self.version, cell))
    }
}

// Whether this is a bucket of an archive: a positive multiple of its step.
fn is_bucket(bucket: u32, archive: Archive) -> bool
    requires { 0 < archive.step }
    ensures { result ≡ is_bucket bucket archive }
{
    0 < bucket && bucket % archive.step == 0
}

// The value that a cell has for a bucket.
pub(crate) fn value_for(bucket: u32, cell: (u32, Option<Milli>)) -> Option<Milli>
    ensures { result ≡ value_for bucket cell }
{
    if cell.0 == bucket {
        return cell.1;
    }
    None
}
