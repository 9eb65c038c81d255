//! The layout and the version that the first bytes of a file tell of.
ghost use Rattle.std.specs.Prelude.{◌≡◌, ◌≤◌, ◌+◌, ◌*◌, ℕ, IfOk, None, Ok, length, min, map, take};
ghost use Rattle.std.specs.List.{list_all, range_with_len};
ghost use Rattle.ring_format.specs.Layout.{LayoutValue, layout_fault};
ghost use Rattle.ring_format.specs.LayoutFile.{file_size_in, row_size};
ghost use Rattle.ring_format.specs.Cell.{IsVersion};
ghost use Rattle.ring_format.specs.Head.{archive_at, archives_result, count_in, head_bytes_in, head_result, is_short, is_zero, last_retention, misplaced_archive, number_at, placed_result, version_of};

use crate::archive::{Archive, MOST_ARCHIVES, Method};
use crate::archive_list::ArchiveList;
use crate::cell::{OLD_VERSION, VERSION, cell_bytes_in};
use crate::fault::HeadFault;
use crate::head::{FRONT_BYTES, ROW_BYTES};
use crate::layout::{Layout, file_size_in, head_size};
use crate::method::{method_of, told_by};

/// The layout and the version of a file of `size` bytes, or the first fault of its head. The
/// bytes are the file's first 316, or all where there are fewer.
pub fn read_head(bytes: &[u8], size: u64) -> Result<(Layout, u32), HeadFault>
    requires { length bytes.now ≡ min 316 size }
    ensures value { result ≡ head_result bytes.now size }

    // An accepted file begins with its layout's own head in its version, and has its layout's
    // size in that version.
    ensures read { IfOk result (λ told. IsVersion told.1
        × (take (length (head_bytes_in told.1 told.0)) bytes.now ≡ head_bytes_in told.1 told.0)
        × (size ≡ file_size_in told.1 told.0.archives)
        × (layout_fault told.0.archives told.0.factor ≡ None)) }

    // A file that begins with a lawful layout's head in a version, and has its size, is accepted.
    ensures written { (layout : LayoutValue) (version : ℕ) → IsVersion version
        → layout_fault layout.archives layout.factor ≡ None
        → take (length (head_bytes_in version layout)) bytes.now ≡ head_bytes_in version layout
        → size ≡ file_size_in version layout.archives → result ≡ Ok (layout, version) }
{
    layout_of_head(bytes, size)
}

/// The version of a file by its first word: 1 where that is a method's number, and else 2, also
/// of a file whose head is yet to be written.
#[tactic(auto, unfolding(crate::specs::Head::version_of))]
pub fn version_of(bytes: &[u8]) -> u32
    requires { 4 ≤ length bytes.now }
    ensures value { result ≡ version_of bytes.now }
    ensures known { IsVersion result }
{
    match method_of(number_at(bytes, 0)) {
        Some(_) => OLD_VERSION,
        None => VERSION,
    }
}

// The layout, or the first fault, test by test.
#[tactic(auto, unfolding(crate::specs::Head::head_result))]
fn layout_of_head(bytes: &[u8], size: u64) -> Result<(Layout, u32), HeadFault>
    requires { length bytes.now ≡ min 316 size }
    ensures { result ≡ head_result bytes.now size }
{
    if begins_with_zeros(bytes) {
        return Err(HeadFault::Zero);
    }
    if is_short(bytes, size) {
        return Err(HeadFault::Short);
    }
    let Some(told) = told_by(number_at(bytes, 0)) else {
        return Err(HeadFault::Method);
    };
    let count = number_at(bytes, 12);
    if count < 1 || count > MOST_ARCHIVES as u32 {
        return Err(HeadFault::Count);
    }
    read_archives(told, count as usize, bytes, size)
}

// Whether the first 16 bytes are all zero.
fn begins_with_zeros(bytes: &[u8]) -> bool
    ensures { result ≡ list_all is_zero (take 16 bytes.now) }
{
    bytes.iter().take(FRONT_BYTES).all(|b| *b == 0)
}

// Whether the file ends before its four numbers or its rows do.
fn is_short(bytes: &[u8], size: u64) -> bool
    requires { length bytes.now ≡ min 316 size }
    ensures { result ≡ is_short bytes.now size }
{
    if size < FRONT_BYTES as u64 {
        return true;
    }
    let count = number_at(bytes, 12);
    count <= MOST_ARCHIVES as u32 && size < head_size(count as usize)
}

// The layout with this method and the version, or the first fault of what the rows tell.
#[tactic(auto, unfolding(crate::specs::Head::archives_result))]
fn read_archives(
    told: (Method, u32),
    count: usize,
    bytes: &[u8],
    size: u64,
) -> Result<(Layout, u32), HeadFault>
    requires version { IsVersion told.1 }
    requires count { count ≡ count_in bytes.now }
    requires few { count ≤ 25 }
    requires room { 16 + row_size * count ≤ length bytes.now }
    ensures { result ≡ archives_result told bytes.now size }
{
    let archives = archives_in(count, bytes);
    if let Some(i) = misplaced_archive(told.1, bytes, archives.as_slice()) {
        return Err(HeadFault::Offset(i));
    }
    read_placed(told, archives.as_slice(), bytes, size)
}

// The layout with these archives, or the first fault of the other fields.
#[tactic(auto, unfolding(crate::specs::Head::placed_result))]
fn read_placed(
    told: (Method, u32),
    archives: &[Archive],
    bytes: &[u8],
    size: u64,
) -> Result<(Layout, u32), HeadFault>
    requires version { IsVersion told.1 }
    requires few { length archives.now ≤ 25 }
    requires room { 16 ≤ length bytes.now }
    ensures { result ≡ placed_result told archives.now bytes.now size }
{
    if u64::from(number_at(bytes, 4)) != last_retention(archives) {
        return Err(HeadFault::Retention);
    }
    if size != file_size_in(archives, told.1) {
        return Err(HeadFault::Length);
    }
    match Layout::new(archives, told.0, number_at(bytes, 8)) {
        Ok(layout) => Ok((layout, told.1)),
        Err(fault) => Err(HeadFault::Layout(fault)),
    }
}

// The archives of the rows.
fn archives_in(count: usize, bytes: &[u8]) -> ArchiveList
    requires few { count ≤ 25 }
    requires room { 16 + row_size * count ≤ length bytes.now }
    ensures value { result ≡ map (archive_at bytes.now) (range_with_len 0 count) }
    ensures count { length result ≡ count }
{
    let mut archives = ArchiveList::new();
    for i in 0..count {
        let step = number_at(bytes, FRONT_BYTES + 4 + ROW_BYTES * i);
        let points = number_at(bytes, FRONT_BYTES + 8 + ROW_BYTES * i);
        archives.push(Archive { step, points });
    }
    archives
}

// The first archive that does not begin where what stands before it ends.
fn misplaced_archive(version: u32, bytes: &[u8], archives: &[Archive]) -> Option<u32>
    requires version { IsVersion version }
    requires few { length archives.now ≤ 25 }
    requires room { 16 + row_size * length archives.now ≤ length bytes.now }
    ensures { result ≡ misplaced_archive version bytes.now archives.now }
{
    let cell = cell_bytes_in(version) as u64;
    let mut offset = head_size(archives.len());
    for (i, archive) in archives.iter().enumerate() {
        if u64::from(number_at(bytes, FRONT_BYTES + ROW_BYTES * i)) != offset {
            return Some(i as u32);
        }
        offset += cell * u64::from(archive.points);
    }
    None
}

// How far back the last archive reaches.
fn last_retention(archives: &[Archive]) -> u64
    ensures { result ≡ last_retention archives.now }
{
    match archives.last() {
        Some(archive) => archive.retention(),
        None => 0,
    }
}

// The number in the four bytes at a place.
#[tactic(auto, unfolding(crate::specs::Head::number_at))]
fn number_at(bytes: &[u8], at: usize) -> u32
    requires { at + 4 ≤ length bytes.now }
    ensures { result ≡ number_at at bytes.now }
{
    u32::from_be_bytes([bytes[at], bytes[at + 1], bytes[at + 2], bytes[at + 3]])
}
