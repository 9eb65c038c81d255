//! A ring file on a disk in memory, under a patch.
ghost use Rattle.std.specs.Prelude.{◌≡◌, IfOk, false, length};
ghost use Rattle.ring_format.specs.Cell.{IsVersion};
ghost use Rattle.ring_archive.specs.Ring.{HoldsRing};

use crate::patches::patch_with;
use crate::words::cells_in;
use case_lines::{Case, CaseFault, Told};
use fixed_num::{Milli, wide};
use outside_io::{Disk, DiskFailed, MemDisk};
use ring_archive::RingFault;
use ring_format::{
    CELL_BYTES, CellWrite, Layout, Method, OLD_VERSION, Patch, VERSION, version_of, write_cell,
};
use std::alloc::Global;

/// A ring file, and a patch over it.
#[derive(Drop)]
pub struct Ring {
    pub layout: Layout,
    pub version: u32,
    // What the file holds, `None` where the patch makes it anew.
    stored: Option<Vec<CellWrite>>,
    laid: Vec<CellWrite>,
    // Which read of the disk fails, 0 for none.
    failing: u64,
}

impl Ring {
    ghost use Rattle.std.specs.Prelude.{◌≡◌, IfOk, is_none};
    ghost use Rattle.ring_format.specs.Cell.{IsVersion};
    ghost use Rattle.ring_archive.specs.Ring.{HoldsRing};

    /// The ring of `ARCHIVES METHOD FACTOR STORED LAID`, and the read that fails, where the word at a place says one.
    pub fn read(
        alloc: Global,
        case: &Case,
        layout: Layout,
        failing_at: usize,
        told: &mut Told,
    ) -> Ring {
        let (version, text) = version_of_text(case.text_at(3, told));
        Ring {
            layout,
            version,
            stored: stored_in(alloc, &layout, text, told),
            laid: cells_in(alloc, &layout, case.text_at(4, told), told),
            failing: failing_in(case, failing_at, told),
        }
    }

    /// A disk with the file, which is not there where the patch makes it anew, so that a read would fail.
    pub fn disk(&self, alloc: Global, name: &str) -> Result<MemDisk, CaseFault>
        ensures holds { IfOk result (λ disk. HoldsRing (is_none self.now.stored)
            (⟦<MemDisk as Disk>⟧.image disk) name.now self.now.version self.now.layout.archives) }
        ensures version { IfOk result (λ disk. IsVersion self.now.version) }
    {
        if self.version != OLD_VERSION && self.version != VERSION {
            return Err(CaseFault::Malformed);
        }
        let Some(stored) = &self.stored else {
            return Ok(MemDisk::new(alloc, 0));
        };
        let file = file_of(alloc, &self.layout, self.version, stored)?;
        failing_disk_of(alloc, name, &self.layout, self.version, file, self.failing)
    }

    /// The patch.
    pub fn patch(&self, alloc: Global) -> Result<Patch, CaseFault>
        ensures layout { IfOk result (λ patch. patch.layout ≡ self.now.layout) }
        ensures fresh { IfOk result (λ patch. patch.fresh ≡ is_none self.now.stored) }
    {
        patch_with(alloc, b"a", self.layout, self.stored.is_none(), &self.laid)
    }
}

fn stored_in(
    alloc: Global,
    layout: &Layout,
    text: &str,
    told: &mut Told,
) -> Option<Vec<CellWrite>> {
    if text == "new" {
        return None;
    }
    Some(cells_in(alloc, layout, text, told))
}

fn failing_in(case: &Case, at: usize, told: &mut Told) -> u64 {
    if at < case.len() {
        return case.number_at(at, told);
    }
    0
}

/// Puts a piece over a file's bytes, where it lies within them.
pub fn put_piece(at: usize, piece: &[u8], file: &mut [u8])
    ensures { length file.new ≡ length file.old }
{
    if at <= file.len() && piece.len() <= file.len() - at {
        file[at..at + piece.len()].copy_from_slice(piece);
    }
}

/// Puts a cell over its slot in the bytes of a file.
pub fn put_cell(layout: &Layout, cell: &CellWrite, file: &mut [u8])
    ensures { length file.new ≡ length file.old }
{
    if cell.archive < layout.archive_count() {
        let mut bytes = [0; CELL_BYTES];
        write_cell(cell.bucket, cell.value, &mut bytes);
        let at = layout.offset(cell.archive) as usize + CELL_BYTES * cell.slot as usize;
        put_piece(at, &bytes, file);
    }
}

/// The bytes of a file of a version that holds these cells. Of its head only the first word is
/// there.
pub fn file_of(
    alloc: Global,
    layout: &Layout,
    version: u32,
    cells: &[CellWrite],
) -> Result<Vec<u8>, CaseFault>
    requires { IsVersion version }
{
    let mut file = vec![in alloc; 0; layout.size_in(version) as usize]?;
    if version == OLD_VERSION {
        put_piece(0, &old_word(layout.method()).to_be_bytes(), &mut file);
    }
    for cell in cells {
        if version == OLD_VERSION {
            put_old_cell(layout, cell, &mut file)?;
        } else {
            put_cell(layout, cell, &mut file);
        }
    }
    Ok(file)
}

// The first word of a file of version 1.
fn old_word(method: Method) -> u32 {
    match method {
        Method::Average => 1,
        Method::Sum => 2,
        Method::Last => 3,
        Method::Max => 4,
        Method::Min => 5,
        Method::AvgZero => 6,
        Method::AbsMax => 7,
        Method::AbsMin => 8,
    }
}

// Puts a cell over its slot in the bytes of a file of version 1, in which values have 64 bits.
fn put_old_cell(layout: &Layout, cell: &CellWrite, file: &mut [u8]) -> Result<(), CaseFault>
    ensures { length file.new ≡ length file.old }
{
    let Ok(value) = i64::try_from(wide(cell.value)) else {
        return Err(CaseFault::Malformed);
    };
    if cell.archive < layout.archive_count() {
        let at = layout.offset_in(cell.archive, OLD_VERSION) as usize + 12 * cell.slot as usize;
        put_piece(at, &cell.bucket.to_be_bytes(), file);
        put_piece(at + 4, &value.to_be_bytes(), file);
    }
    Ok(())
}

// A disk with these bytes under a name, of which the read with one number fails, none with 0.
fn failing_disk_of(
    alloc: Global,
    name: &str,
    layout: &Layout,
    version: u32,
    file: Vec<u8>,
    failing: u64,
) -> Result<MemDisk, CaseFault>
    requires { IsVersion version }
    ensures { IfOk result
        (λ disk. HoldsRing false (⟦<MemDisk as Disk>⟧.image disk) name.now version layout.now.archives) }
{
    let listed = Vec::from_slice(alloc, &[failing])?;
    let disk = disk_of(alloc, name, layout, version, &file)?;
    Ok(disk.failing_reads(listed))
}

/// A disk with these bytes under a name, where they have room for a layout in a version.
pub fn disk_of(
    alloc: Global,
    name: &str,
    layout: &Layout,
    version: u32,
    file: &[u8],
) -> Result<MemDisk, CaseFault>
    requires { IsVersion version }
    ensures { IfOk result
        (λ disk. HoldsRing false (⟦<MemDisk as Disk>⟧.image disk) name.now version layout.now.archives) }
{
    if (file.len() as u64) < layout.size_in(version) || version_of(file) != version {
        return Err(CaseFault::Malformed);
    }
    let bytes = Vec::from_slice(alloc, file)?;
    let mut disk = MemDisk::new(alloc, 0);
    disk.put_file(name, bytes)?;
    Ok(disk)
}

/// What was read on a disk that has no call that fails.
pub fn read_of(found: Result<Option<Milli>, DiskFailed>) -> Result<Option<Milli>, CaseFault> {
    match found {
        Ok(value) => Ok(value),
        Err(fault) => Err(case_fault_of(RingFault::from(fault))),
    }
}

// The version of a file, and its cells: `1!` stands before those of one of version 1.
fn version_of_text(text: &str) -> (u32, &str)
    ensures { IsVersion result.0 }
{
    match text.split_once('!') {
        Some((_, cells)) => (OLD_VERSION, cells),
        None => (VERSION, text),
    }
}

/// What a fault is where the disk has no call that fails.
pub fn case_fault_of(fault: RingFault) -> CaseFault {
    match fault {
        RingFault::NoMemory => CaseFault::NoMemory,
        RingFault::DiskFault => CaseFault::Malformed,
    }
}

/// Tells `fault` where a read failed.
pub fn tell_fault(told: &mut Told, fault: RingFault) {
    match fault {
        RingFault::DiskFault => told.push_str("fault"),
        RingFault::NoMemory => told.fail(CaseFault::NoMemory),
    }
}

/// Tells how often a disk was read, and how many reads failed where any did.
pub fn tell_reads(told: &mut Told, disk: &MemDisk) {
    write!(told, "; reads {}", disk.calls().reads);
    tell_failed(told, disk);
}

/// Tells how many reads failed, where any did.
pub fn tell_failed(told: &mut Told, disk: &MemDisk) {
    let failed = disk.faults();
    if failed > 0 {
        write!(told, ", failed {failed}");
    }
}
