//! Starting a shard from the files of its disk.
ghost use Rattle.std.specs.Prelude.{◌≡◌, ℕ, List, None, Some, Err, IfOk, IfErr, IfSome, IsErr, IsErrAnd, OnOk, length, map, min, take, string_bytes, string_cmp};
ghost use Rattle.std.specs.List.Sorted.{IsSorted};
ghost use Rattle.outside_io.specs.Frames.{ReadsOnly};
ghost use Rattle.carbon_model.specs.RingFiles.{is_sound_head};
ghost use Rattle.shard_core.specs.Opened.{IsOpened, Opens};
ghost use Rattle.shard_core.specs.Shard.{HasFiles};
ghost use Rattle.shard_core.specs.StartFaults.{IsDamagedRing, IsDiskFault};
ghost use Rattle.shard_core.specs.Starting.{FirstAmong, IsDamagedName, IsFaulty, Noted, Notes, NotesHead, OnDamaged, TellsHead};

use crate::fault::StartFault;
use metric_path::MetricPath;
use metric_table::MetricTable;
use outside_io::{Disk, DiskFailed, NamesFault};
use ring_format::{HEAD_BYTES, HeadFault, Layout, OLD_VERSION, read_head};
use std::alloc::Global;

/// What the head of a file tells.
#[derive(Clone, Copy)]
pub(crate) enum FileHead {
    /// A ring file of this layout and version.
    Ring(Layout, u32),
    /// A head of zero, which counts as no file.
    Zero,
    /// A head with a fault.
    Faulty,
}

/// The metrics of a class whose files lie on the disk: each is kept, in the layout and the version
/// of its file. Names that are no file name of a path of the class are left alone.
pub(crate) fn read_table<D: Disk>(
    alloc: Global,
    disk: &mut D,
    class: u32,
) -> Result<MetricTable, StartFault>
    ensures opens { IfOk result (λ table. Opens class (D.image disk.old) table) }
    ensures opened { IfOk result (IsOpened class) }
    ensures files { IfOk result (λ table. HasFiles class table None (D.image disk.old)) }
    ensures damaged { IfErr result (λ fault. IsDamagedRing fault (D.image disk.old) class) }
    ensures frame { ReadsOnly D.Disk disk.old disk.new (IsErrAnd result IsDiskFault) }
{
    let mut names = match disk.names() {
        Ok(names) => names,
        Err(NamesFault::Failed) => return Err(StartFault::DiskFault),
        Err(NamesFault::NoMemory) => return Err(StartFault::NoMemory),
    };
    match names.sort() {
        Ok(()) => {}
        Err(_) => return Err(StartFault::NoMemory),
    }
    match table_of(alloc, disk, class, names.as_slice()) {
        Ok(table) => Ok(table),
        Err(fault) => Err(fault),
    }
}

// The metrics of the files of these names, which are in byte order. The first damaged file ends it.
fn table_of<D: Disk>(
    alloc: Global,
    disk: &mut D,
    class: u32,
    names: &[String],
) -> Result<MetricTable, StartFault>
    requires sorted { IsSorted string_cmp names.now }
    ensures opened { IfOk result (IsOpened class) }
    ensures noted { IfOk result
        (λ table. IfSome (D.image disk.old)
        (λ image. Noted class image (map string_bytes names.now) (length names.now) table)) }
    ensures damaged { IfErr result
        (λ fault. IfSome (D.image disk.old)
        (λ image. OnDamaged fault (FirstAmong class image (map string_bytes names.now)))) }
    ensures frame { ReadsOnly D.Disk disk.old disk.new (IsErrAnd result IsDiskFault) }
{
    let mut table = MetricTable::new(alloc);
    for name in names {
        match note_file(alloc, disk, class, name.as_str(), &mut table) {
            Ok(()) => {}
            Err(fault) => return Err(fault),
        }
    }
    Ok(table)
}

// Notes the layout and the version of the file of this name, where it is a path's of the class.
fn note_file<D: Disk>(
    alloc: Global,
    disk: &mut D,
    class: u32,
    name: &str,
    table: &mut MetricTable,
) -> Result<(), StartFault>
    ensures opened { OnOk result (IsOpened class table.old → IsOpened class table.new) }
    ensures notes { OnOk result
        (IfSome (D.image disk.old)
        (λ image. HasFiles class table.old None (Some image)
        → Notes class image name.now table.old table.new)) }
    ensures damaged { IfErr result
        (λ fault. IfSome (D.image disk.old)
        (λ image. OnDamaged fault
        (λ told. (told ≡ name.now) × IsDamagedName class image name.now))) }
    ensures frame { ReadsOnly D.Disk disk.old disk.new (IsErrAnd result IsDiskFault) }
{
    let path = match MetricPath::of_file_name(alloc, name) {
        Ok(Some(path)) => path,
        Ok(None) => return Ok(()),
        Err(_) => return Err(StartFault::NoMemory),
    };
    if path.class() != class {
        return Ok(());
    }
    match read_file_head(disk, name) {
        Ok(head) => note_head(alloc, name, path, head, table),
        Err(DiskFailed) => Err(StartFault::DiskFault),
    }
}

// Notes what the head of the file of a path tells.
fn note_head(
    alloc: Global,
    name: &str,
    path: MetricPath,
    head: FileHead,
    table: &mut MetricTable,
) -> Result<(), StartFault>
    ensures notes { OnOk result (NotesHead path head table.old table.new) }
    ensures damaged { IfErr result
        (λ fault. OnDamaged fault (λ told. (told ≡ name.now) × IsFaulty head)) }
    ensures memory { IsErrAnd result IsDiskFault → ⊥ }
{
    match head {
        FileHead::Ring(layout, version) => match table.insert(
            path,
            layout,
            true,
            version == OLD_VERSION,
        ) {
            Ok(()) => Ok(()),
            Err(_) => Err(StartFault::NoMemory),
        },
        FileHead::Zero => Ok(()),
        FileHead::Faulty => match String::from_str(alloc, name) {
            Ok(name) => Err(StartFault::Damaged(name)),
            Err(_) => Err(StartFault::NoMemory),
        },
    }
}

// Reads the head of the file of this name. A name that is not there counts as a head of zero.
fn read_file_head<D: Disk>(disk: &mut D, name: &str) -> Result<FileHead, DiskFailed>
    ensures head { IfOk result
        (λ head. IfSome (D.image disk.old) (λ image. TellsHead (image name.now) head)) }
    ensures frame { ReadsOnly D.Disk disk.old disk.new (IsErr result) }
{
    let size = match disk.length(name) {
        Ok(Some(size)) => size,
        Ok(None) => return Ok(FileHead::Zero),
        Err(DiskFailed) => return Err(DiskFailed),
    };
    let mut front = [0; HEAD_BYTES];
    let count = size.min(HEAD_BYTES as u64) as usize;
    let bytes = &mut front[..count];
    match disk.read_at(name, 0, bytes) {
        Ok(()) => Ok(classify_head(bytes, size)),
        Err(DiskFailed) => Err(DiskFailed),
    }
}

// What the first 316 bytes of a file of `size` bytes tell, or all where there are fewer.
fn classify_head(bytes: &[u8], size: u64) -> FileHead
    requires { length bytes.now ≡ min 316 size }
    ensures { (file : List ℕ) → bytes.now ≡ take 316 file → size ≡ length file
        → TellsHead (Some file) result }
{
    match read_head(bytes, size) {
        Ok(told) => FileHead::Ring(told.0, told.1),
        Err(fault) if is_zero(fault) => FileHead::Zero,
        Err(_) => FileHead::Faulty,
    }
}

// Whether it is a head of zero that the fault tells of.
fn is_zero(fault: HeadFault) -> bool
    ensures { result ≡ is_sound_head (Err fault) }
{
    matches!(fault, HeadFault::Zero)
}
