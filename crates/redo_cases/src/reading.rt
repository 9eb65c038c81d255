//! What is read of a ring file.

use crate::crash_disk::CrashDisk;
use crate::script::{Drained, Shows};
use case_lines::CaseFault;
use fixed_num::Milli;
use metric_path::MetricPath;
use outside_io::{Disk, DiskFailed};
use ring_archive::{RingFault, RingView};
use ring_format::{HEAD_BYTES, HeadFault, Layout, Patch, VERSION, read_head};
use series_fetch::{fetch, window_of};
use std::alloc::Global;

// The latest moment.
const MOST_NOW: u64 = 4_000_000_000;

// What stands under the name of a ring file.
#[derive(Clone, Copy, PartialEq, Eq)]
enum Found {
    // Nothing that counts as a file.
    Nothing,
    // A ring file of the metric's layout.
    Ring,
    // Another file.
    Other,
}

/// Whether there is no ring file of a metric.
pub fn is_absent(disk: &mut CrashDisk, drained: &Drained) -> bool {
    matches!(look_at(disk, drained), Ok(Found::Nothing))
}

/// Whether its ring file is there and shows what it has to behind a drain.
pub fn shows_all(
    alloc: Global,
    disk: &mut CrashDisk,
    drained: &Drained,
) -> Result<bool, CaseFault> {
    match look_at(disk, drained) {
        Ok(Found::Ring) => shows_each(alloc, disk, drained),
        _ => Ok(false),
    }
}

fn is_same(one: &Layout, other: &Layout) -> bool {
    one.archives() == other.archives() && one.factor() == other.factor()
}

fn shows_each(alloc: Global, disk: &mut CrashDisk, drained: &Drained) -> Result<bool, CaseFault> {
    for shows in &drained.shows {
        if shown(alloc, disk, drained, shows)?.as_slice() != shows.values.as_slice() {
            return Ok(false);
        }
    }
    Ok(true)
}

// What a question shows.
fn shown(
    alloc: Global,
    disk: &mut CrashDisk,
    drained: &Drained,
    shows: &Shows,
) -> Result<Vec<Option<Milli>>, CaseFault> {
    if shows.from > shows.until || shows.now > MOST_NOW {
        return Err(CaseFault::Malformed);
    }
    let Ok(path) = MetricPath::new(alloc, &drained.path) else {
        return Err(CaseFault::Malformed);
    };
    let patch = Patch::new(alloc, path, drained.layout, false);
    let view = RingView::new(drained.name.as_str(), drained.layout, VERSION);
    let window = window_of(&drained.layout, shows.now, shows.from, shows.until);
    match fetch(alloc, &view, disk, &patch, window, &[]) {
        Ok(values) => Ok(values),
        Err(RingFault::NoMemory) => Err(CaseFault::NoMemory),
        Err(RingFault::DiskFault) => Ok(Vec::new(alloc)),
    }
}

// What stands under the name of a metric's file.
fn look_at(disk: &mut CrashDisk, drained: &Drained) -> Result<Found, DiskFailed> {
    let name = drained.name.as_str();
    let Some(size) = disk.length(name)? else {
        return Ok(Found::Nothing);
    };
    let mut front = [0; HEAD_BYTES];
    let count = size.min(HEAD_BYTES as u64) as usize;
    disk.read_at(name, 0, &mut front[..count])?;
    Ok(match read_head(&front[..count], size) {
        Ok((layout, version)) => {
            found_ring(version == VERSION && is_same(&layout, &drained.layout))
        }
        Err(HeadFault::Zero) => Found::Nothing,
        Err(_) => Found::Other,
    })
}

// A ring file of the wanted layout, or another.
fn found_ring(is_wanted: bool) -> Found {
    if is_wanted { Found::Ring } else { Found::Other }
}
