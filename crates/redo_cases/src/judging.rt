//! What a start has to make of an image.

use crate::crash_disk::CrashDisk;
use crate::reading::{is_absent, shows_all};
use crate::script::{Class, Drained};
use case_lines::CaseFault;
use redo_log::{arm, recover};
use std::alloc::Global;

/// How many drains of a class have to be there, and how many may be.
#[derive(Clone, Copy)]
pub struct Ends {
    pub least: usize,
    pub most: usize,
}

/// Starts a class, and says whether it came to its end.
pub fn start(alloc: Global, disk: &mut CrashDisk) -> bool {
    recover(alloc, disk).is_ok() && arm(disk).is_ok()
}

/// Whether the rings are those behind so many of the drains of a class.
pub fn has_ended(
    alloc: Global,
    disk: &mut CrashDisk,
    class: &Class,
    ends: Ends,
) -> Result<bool, CaseFault> {
    for count in ends.least..=ends.most {
        if has_rings(alloc, disk, &class.drains, count)? {
            return Ok(true);
        }
    }
    Ok(false)
}

fn has_rings(
    alloc: Global,
    disk: &mut CrashDisk,
    drains: &[Drained],
    count: usize,
) -> Result<bool, CaseFault> {
    for (at, drained) in drains.iter().enumerate() {
        if !has_ring(alloc, disk, drains, at, drained, count)? {
            return Ok(false);
        }
    }
    Ok(true)
}

// Whether the metric of the drain at a place is as behind so many drains, where that drain is the
// one that says so.
fn has_ring(
    alloc: Global,
    disk: &mut CrashDisk,
    drains: &[Drained],
    at: usize,
    drained: &Drained,
    count: usize,
) -> Result<bool, CaseFault> {
    if at < count {
        let is_last = !is_drained(drains, at.saturating_add(1), count, drained);
        return Ok(!is_last || shows_all(alloc, disk, drained)?);
    }
    Ok(is_drained(drains, 0, count, drained) || is_absent(disk, drained))
}

// Whether one of the drains from a place to another is of the metric of this one.
fn is_drained(drains: &[Drained], from: usize, to: usize, drained: &Drained) -> bool {
    drains
        .get(from..to)
        .unwrap_or(&[])
        .iter()
        .any(|other| other.path.as_slice() == drained.path.as_slice())
}
