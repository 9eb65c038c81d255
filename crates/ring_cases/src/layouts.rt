//! Layouts, slots, cells and heads.

use crate::told::{name_of, tell_bytes, tell_layout as tell_lawful, tell_value};
use crate::words::{archive_in, layout_or_fault, value_in, version_in};
use case_lines::{Case, CaseFault, Told, read_text};
use ring_format::{
    CELL_BYTES, HEAD_BYTES, HeadFault, Layout, LayoutFault, OLD_VERSION, cell_bytes_in, read_cell,
    read_head, slot_of, write_cell, write_head,
};
use std::alloc::Global;

/// `layout ARCHIVES METHOD FACTOR`: `lawful`, or the first rule that is broken, with the archive.
pub fn tell_layout(alloc: Global, told: &mut Told, case: &Case) {
    match layout_or_fault(alloc, case, told) {
        Ok(_) => told.push_str("lawful"),
        Err(fault) => tell_layout_fault(told, fault),
    }
}

/// The first rule that a layout breaks.
pub fn tell_layout_fault(told: &mut Told, fault: LayoutFault) {
    match fault {
        LayoutFault::NoArchive => told.push_str("no archive"),
        LayoutFault::BadStep(i) => write!(told, "bad step {i}"),
        LayoutFault::StepOrder(i) => write!(told, "step order {i}"),
        LayoutFault::StepDivides(i) => write!(told, "step divides {i}"),
        LayoutFault::TooFewPoints(i) => write!(told, "too few points {i}"),
        LayoutFault::TooLong(i) => write!(told, "too long {i}"),
        LayoutFault::Retention(i) => write!(told, "retention {i}"),
        LayoutFault::TooManyPoints => told.push_str("too many points"),
        LayoutFault::BadFactor => told.push_str("bad factor"),
    }
}

/// `parts ARCHIVES METHOD FACTOR`: the method, the factor, the bytes of a file and the number of archives, and then of each archive
/// its step, its points, its retention and where it begins in a file.
pub fn tell_parts(told: &mut Told, layout: Layout) {
    let method = name_of(layout.method());
    let factor = layout.factor();
    let size = layout.file_size();
    write!(told, "{method} {factor} {size} {}", layout.archive_count());
    for i in 0..layout.archive_count() {
        let archive = layout.archive(i);
        write!(told, ", {}x{}", archive.step, archive.points);
        write!(told, " {} at {}", layout.retention(i), layout.offset(i));
    }
}

/// `slot BASE BUCKET STEPxPOINTS`: the slot of the bucket.
pub fn tell_slot(told: &mut Told, case: &Case) {
    let base = case.small_at(0, told);
    let bucket = case.small_at(1, told);
    let archive = archive_in(case.text_at(2, told), told);
    if archive.step == 0 || archive.points == 0 {
        return told.malformed();
    }
    write!(told, "{}", slot_of(base, bucket, archive));
}

/// `cell BUCKET VALUE`: its bytes.
pub fn tell_cell(told: &mut Told, case: &Case) {
    let bucket = case.small_at(0, told);
    let value = value_in(case.text_at(1, told), told);
    let mut bytes = [0; CELL_BYTES];
    write_cell(bucket, value, &mut bytes);
    tell_bytes(told, &bytes);
}

/// `read-cell VERSION BYTES`: its bucket and its value, `-` for one that does not fit, in a
/// file of the version.
pub fn tell_read_cell(alloc: Global, told: &mut Told, case: &Case) {
    let version = version_in(case, 0, told);
    let bytes = bytes_from(alloc, case, 1, told);
    if bytes.len() != cell_bytes_in(version) {
        return told.malformed();
    }
    let (bucket, value) = read_cell(version, &bytes);
    write!(told, "{bucket} ");
    tell_value(told, value);
}

// The bytes that the words of a case from a place on say, each four.
fn bytes_from(alloc: Global, case: &Case, at: usize, told: &mut Told) -> Vec<u8> {
    let mut bytes = Vec::new(alloc);
    for word in case.rest(at) {
        let four = four_bytes(word, told);
        told.keep(bytes.extend_from_slice(&four));
    }
    bytes
}

fn four_bytes(word: &[u8], told: &mut Told) -> [u8; 4] {
    let Ok(number) = u32::from_str_radix(read_text(word, told), 16) else {
        told.malformed();
        return [0; 4];
    };
    number.to_be_bytes()
}

/// `head ARCHIVES METHOD FACTOR`: its bytes.
pub fn tell_head(told: &mut Told, layout: Layout) {
    let mut head = [0xff; HEAD_BYTES];
    let length = write_head(&layout, &mut head);
    tell_bytes(told, head.get(..length).unwrap_or(&[]));
}

/// `old-parts ARCHIVES METHOD FACTOR`: the bytes of a file of version 1, and where each archive
/// begins in it.
pub fn tell_old_parts(told: &mut Told, layout: Layout) {
    write!(told, "{}", layout.size_in(OLD_VERSION));
    for i in 0..layout.archive_count() {
        write!(told, ", {}", layout.offset_in(i, OLD_VERSION));
    }
}

/// `read-head SIZE BYTES`: the layout and the version of a file of this size that begins with
/// these bytes and goes on with zeros, or its first fault.
pub fn tell_read_head(alloc: Global, told: &mut Told, case: &Case) {
    let size = case.number_at(0, told);
    let mut bytes = bytes_from(alloc, case, 1, told);
    if bytes
        .resize(size.min(HEAD_BYTES as u64) as usize, 0)
        .is_err()
    {
        return told.fail(CaseFault::NoMemory);
    }
    match read_head(&bytes, size) {
        Ok((layout, version)) => tell_versioned(told, &layout, version),
        Err(fault) => tell_head_fault(told, fault),
    }
}

fn tell_versioned(told: &mut Told, layout: &Layout, version: u32) {
    tell_lawful(told, layout);
    write!(told, " version {version}");
}

fn tell_head_fault(told: &mut Told, fault: HeadFault) {
    match fault {
        HeadFault::Zero => told.push_str("zero"),
        HeadFault::Short => told.push_str("short"),
        HeadFault::Method => told.push_str("method"),
        HeadFault::Count => told.push_str("count"),
        HeadFault::Offset(i) => write!(told, "offset {i}"),
        HeadFault::Retention => told.push_str("retention"),
        HeadFault::Length => told.push_str("length"),
        HeadFault::Layout(fault) => {
            told.push_str("layout: ");
            tell_layout_fault(told, fault);
        }
    }
}
