//! Patches that are written to a disk in memory.
ghost use Rattle.std.specs.Prelude.{◌≡◌, ◌≢◌, true, false, IfOk, IfSome, None, OnOk};
ghost use Rattle.outside_io.specs.MemDisk.{disk_image};
ghost use Rattle.ring_archive.specs.Ring.{IsRingFile, OnFile};
ghost use Rattle.ring_writer.specs.PartWritten.{AwaitsNext};

use crate::patches::patch_with;
use crate::told::tell_bytes;
use crate::words::cells_in;
use case_lines::{Case, CaseFault, Told};
use outside_io::{Disk, DiskFailed, MemDisk};
use ring_format::{CELL_BYTES, CellWrite, Layout, Patch};
use ring_writer::write_run;
use std::alloc::{AllocError, Global};
use write_shelf::Shelf;

// So many bytes hold any file of the cases.
const ROOM: u64 = 1_000_000;

// Writes the runs of a shelf, and a run again where it failed. It fails where some are left after 100 calls.
fn drain<D: Disk>(disk: &mut D, name: &str, shelf: &mut Shelf) -> Result<(), DiskFailed>
    requires { IfSome (D.image disk.old) (λ image. AwaitsNext shelf.old (image name.now)) }
    ensures { OnOk result
        (IfSome shelf.old
        (λ drain. OnFile (D.image disk.new) name.now (IsRingFile drain.patch.layout))) }
{
    for _ in 0..100 {
        let Some(_run) = shelf.next_run() else {
            return Ok(());
        };
        try_next(disk, name, shelf);
    }
    Err(DiskFailed)
}

// Writes the next run, and marks it where it is written.
fn try_next<D: Disk>(disk: &mut D, name: &str, shelf: &mut Shelf)
    requires some { shelf.old ≢ None }
    requires file { IfSome (D.image disk.old) (λ image. AwaitsNext shelf.old (image name.now)) }
    ensures next { IfSome (D.image disk.new) (λ image. AwaitsNext shelf.new (image name.now)) }
    ensures same { IfSome shelf.old
        (λ drain. IfSome shelf.new (λ later. later.patch ≡ drain.patch)) }
    ensures last { IfSome shelf.old
        (λ drain. shelf.new ≡ None
        → OnFile (D.image disk.new) name.now (IsRingFile drain.patch.layout)) }
{
    match write_run(disk, name, shelf) {
        Ok(()) => shelf.mark_written(),
        Err(DiskFailed) => {}
    }
}

// Writes a patch run by run.
fn drain_patch<D: Disk>(disk: &mut D, name: &str, patch: Patch) -> Result<(), CaseFault>
    requires { patch.fresh ≡ false → OnFile (D.image disk.old) name.now (IsRingFile patch.layout) }
    ensures { OnOk result
        (patch.fresh ≡ true → OnFile (D.image disk.new) name.now (IsRingFile patch.layout)) }
{
    let mut shelf = Shelf::empty();
    shelf.put(patch);
    match drain(disk, name, &mut shelf) {
        Ok(()) => Ok(()),
        Err(DiskFailed) => Err(CaseFault::Malformed),
    }
}

// Writes a patch of these cells run by run to the file of a name.
fn write(
    alloc: Global,
    disk: &mut MemDisk,
    name: &str,
    layout: Layout,
    fresh: bool,
    cells: &[CellWrite],
) -> Result<(), CaseFault>
    requires { fresh ≡ false
        → OnFile (⟦<MemDisk as Disk>⟧.image disk.old) name.now (IsRingFile layout) }
    ensures { OnOk result
        (fresh ≡ true
        → OnFile (⟦<MemDisk as Disk>⟧.image disk.new) name.now (IsRingFile layout)) }
{
    let patch = patch_with(alloc, b"a", layout, fresh, cells)?;
    drain_patch(disk, name, patch)
}

// The bytes of a file, or none where it is not there.
fn bytes_of<D: Disk>(
    alloc: Global,
    disk: &mut D,
    name: &str,
) -> Result<Option<Vec<u8>>, AllocError> {
    let Ok(Some(length)) = disk.length(name) else {
        return Ok(None);
    };
    let mut bytes = vec![in alloc; 0; length as usize]?;
    match disk.read_at(name, 0, &mut bytes) {
        Ok(()) => Ok(Some(bytes)),
        Err(DiskFailed) => Ok(None),
    }
}

// The number of bytes of a file, its head, and the place and the bytes of each cell that is not zero.
fn tell_bytes_of(told: &mut Told, layout: &Layout, file: &[u8]) {
    if layout.archive_count() == 0 {
        return;
    }
    let front = layout.offset(0) as usize;
    write!(told, "{}: ", file.len());
    tell_bytes(told, file.get(..front).unwrap_or(file));
    tell_nonzero(told, front, file.get(front..).unwrap_or(&[]));
}

fn tell_nonzero(told: &mut Told, front: usize, cells: &[u8]) {
    let mut at = front;
    for cell in cells.chunks(CELL_BYTES) {
        if cell.iter().any(|byte| *byte != 0) {
            write!(told, "; {at}=");
            tell_bytes(told, cell);
        }
        at = at.saturating_add(CELL_BYTES);
    }
}

/// `file ARCHIVES METHOD FACTOR LAID [LAID]`: the bytes of the file that a patch creates, when a second one is laid over it.
pub fn tell_file(alloc: Global, told: &mut Told, case: &Case, layout: Layout) {
    let first = cells_in(alloc, &layout, case.text_at(3, told), told);
    let second = cells_in(alloc, &layout, later_text(case, told), told);
    tell_twice(alloc, told, layout, &first, &second);
}

fn later_text<'a>(case: &'a Case, told: &mut Told) -> &'a str {
    if case.len() < 5 {
        return "";
    }
    case.text_at(4, told)
}

fn tell_twice(
    alloc: Global,
    told: &mut Told,
    layout: Layout,
    first: &[CellWrite],
    second: &[CellWrite],
) {
    let mut disk = MemDisk::new(alloc, ROOM);
    match write_twice(alloc, &mut disk, layout, first, second) {
        Ok(()) => tell_held(alloc, told, &mut disk, &layout),
        Err(fault) => told.fail(fault),
    }
}

fn write_twice(
    alloc: Global,
    disk: &mut MemDisk,
    layout: Layout,
    first: &[CellWrite],
    second: &[CellWrite],
) -> Result<(), CaseFault> {
    write(alloc, disk, "a", layout, true, first)?;
    write(alloc, disk, "a", layout, false, second)
}

fn tell_held<D: Disk>(alloc: Global, told: &mut Told, disk: &mut D, layout: &Layout) {
    match bytes_of(alloc, disk, "a") {
        Ok(Some(file)) => tell_bytes_of(told, layout, &file),
        Ok(None) => told.push_str("no file"),
        Err(_) => told.fail(CaseFault::NoMemory),
    }
}

/// `writes ARCHIVES METHOD FACTOR LAID N`: how often the disk is called to write a new file where none of the calls fails but the first, then
/// but the second, and so on up to the Nth; and it says so where another file is changed.
pub fn tell_writes(alloc: Global, told: &mut Told, case: &Case, layout: Layout) {
    let cells = cells_in(alloc, &layout, case.text_at(3, told), told);
    for failing in 1..=case.small_at(4, told) {
        told.push_blank();
        tell_calls(alloc, told, layout, &cells, u64::from(failing));
    }
}

fn tell_calls(alloc: Global, told: &mut Told, layout: Layout, cells: &[CellWrite], failing: u64) {
    match written_beside(alloc, layout, cells, failing) {
        Ok(disk) => tell_beside(alloc, told, disk),
        Err(fault) => told.fail(fault),
    }
}

// A disk of which one call fails, with another file, when a new file of these cells is written.
fn written_beside(
    alloc: Global,
    layout: Layout,
    cells: &[CellWrite],
    failing: u64,
) -> Result<MemDisk, CaseFault> {
    let mut disk = disk_beside(alloc, failing)?;
    write(alloc, &mut disk, "a", layout, true, cells)?;
    Ok(disk)
}

fn tell_beside(alloc: Global, told: &mut Told, disk: MemDisk) {
    let mut disk = disk;
    write!(told, "{}", disk.calls().writing());
    tell_other(alloc, told, &mut disk);
}

// A disk of which one call fails, with another file.
fn disk_beside(alloc: Global, failing: u64) -> Result<MemDisk, AllocError> {
    let other = Vec::from_slice(alloc, b"other")?;
    let listed = Vec::from_slice(alloc, &[failing])?;
    let mut disk = MemDisk::new(alloc, ROOM).failing(listed);
    disk.put_file("b", other)?;
    Ok(disk)
}

fn tell_other<D: Disk>(alloc: Global, told: &mut Told, disk: &mut D) {
    match bytes_of(alloc, disk, "b") {
        Ok(Some(other)) if other.as_slice() == b"other".as_slice() => {}
        Ok(_) => told.push_str(" of another file too"),
        Err(_) => told.fail(CaseFault::NoMemory),
    }
}

// A drain: the cells that the file has before, unless it is created, and those that are drained.
#[derive(Drop)]
struct Drained {
    layout: Layout,
    fresh: bool,
    before: Vec<CellWrite>,
    cells: Vec<CellWrite>,
}

// What a drain leaves: the file, and how many calls wrote.
#[derive(Drop)]
struct Left {
    file: Option<Vec<u8>>,
    calls: u64,
}

// A disk with the file of these cells, or, where it is to be created, without it.
fn disk_with(
    alloc: Global,
    name: &str,
    layout: Layout,
    fresh: bool,
    before: &[CellWrite],
) -> Result<MemDisk, CaseFault>
    ensures { IfOk result
        (λ disk. fresh ≡ false
        → OnFile (⟦<MemDisk as Disk>⟧.image disk) name.now (IsRingFile layout)) }
{
    let mut disk = MemDisk::new(alloc, ROOM);
    if !fresh {
        write(alloc, &mut disk, name, layout, true, before)?;
    }
    Ok(disk)
}

// The disk with one call that is to fail.
fn failing_once(alloc: Global, disk: MemDisk, call: u64, tears: bool) -> Result<MemDisk, CaseFault>
    ensures { IfOk result (λ failing. disk_image failing ≡ disk_image disk) }
{
    let disk = disk.failing(Vec::from_slice(alloc, &[call])?);
    if tears {
        return Ok(disk.tearing());
    }
    Ok(disk)
}

// The file when the patch is written run by run, where one call fails, and the calls that wrote.
fn by_runs(alloc: Global, drained: &Drained, call: u64, tears: bool) -> Result<Left, CaseFault> {
    let disk = disk_with(alloc, "a", drained.layout, drained.fresh, &drained.before)?;
    let mut disk = failing_once(alloc, disk, call, tears)?;
    left_on(alloc, &mut disk, "a", drained)
}

// The file of a name on a disk when the patch is written there, and the calls that wrote.
fn left_on(
    alloc: Global,
    disk: &mut MemDisk,
    name: &str,
    drained: &Drained,
) -> Result<Left, CaseFault>
    requires { drained.now.fresh ≡ false
        → OnFile (⟦<MemDisk as Disk>⟧.image disk.old) name.now (IsRingFile drained.now.layout) }
{
    let others = disk.calls().writing();
    write(
        alloc,
        disk,
        name,
        drained.layout,
        drained.fresh,
        &drained.cells,
    )?;
    let calls = disk.calls().writing().saturating_sub(others);
    let file = bytes_of(alloc, disk, name)?;
    Ok(Left { file, calls })
}

fn drained_of(alloc: Global, case: &Case, layout: Layout, told: &mut Told) -> Drained {
    let stored = case.text_at(3, told);
    let fresh = stored == "new";
    let before = if fresh { "" } else { stored };
    Drained {
        layout,
        fresh,
        before: cells_in(alloc, &layout, before, told),
        cells: cells_in(alloc, &layout, case.text_at(4, told), told),
    }
}

/// `rewrites ARCHIVES METHOD FACTOR STORED LAID`: the number of runs, and the bytes of the file in the end. Then each run in turn, and one
/// behind the last, fails once, whole or torn; it says so where the run is not written again, or the file is another one.
pub fn tell_rewrites(alloc: Global, told: &mut Told, case: &Case, layout: Layout) {
    let drained = drained_of(alloc, case, layout, told);
    match by_runs(alloc, &drained, 0, false) {
        Ok(smooth) => tell_smooth(alloc, told, &drained, &smooth),
        Err(fault) => told.fail(fault),
    }
}

fn tell_smooth(alloc: Global, told: &mut Told, drained: &Drained, smooth: &Left) {
    tell_left(told, &drained.layout, smooth);
    tell_failing(alloc, told, drained, smooth);
}

fn tell_left(told: &mut Told, layout: &Layout, left: &Left) {
    write!(told, "runs {}; ", left.calls);
    match &left.file {
        Some(file) => tell_bytes_of(told, layout, file),
        None => told.push_str("no file"),
    }
}

// Tells which calls, where they fail, leave another file or are not made again.
fn tell_failing(alloc: Global, told: &mut Told, drained: &Drained, smooth: &Left) {
    for call in 1..=smooth.calls.saturating_add(1) {
        tell_again(alloc, told, drained, smooth, call, false);
        tell_again(alloc, told, drained, smooth, call, true);
    }
}

fn tell_again(
    alloc: Global,
    told: &mut Told,
    drained: &Drained,
    smooth: &Left,
    call: u64,
    tears: bool,
) {
    match by_runs(alloc, drained, call, tears) {
        Ok(left) => tell_other_end(told, &left, smooth, call),
        Err(fault) => told.fail(fault),
    }
}

fn tell_other_end(told: &mut Told, left: &Left, smooth: &Left, call: u64) {
    let again = u64::from(call <= smooth.calls);
    if left.calls.saturating_sub(again) != smooth.calls || left.file != smooth.file {
        write!(told, "; another where call {call} fails");
    }
}
