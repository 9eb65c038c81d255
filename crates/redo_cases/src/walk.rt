//! The walk over all crashes.

use crate::crash_disk::CrashDisk;
use crate::fates::write_fates;
use crate::files::Files;
use crate::judging::{Ends, has_ended, start};
use crate::moment::Moment;
use crate::script::{Class, Drained, Script};
use crate::tally::Tally;
use case_lines::CaseFault;
use metric_path::MetricPath;
use redo_log::{LOG_NAME, Redo, RedoStep};
use ring_format::Patch;
use std::alloc::{AllocError, Global};

// No call fails.
const NO_END: u64 = u64::MAX;

// A start takes at most so many calls that change or sync the disk.
const MOST_CALLS: u64 = 64;

// A drain has at most so many steps.
const MOST_STEPS: u64 = 64;

// The bytes of a cell in a log.
const CELL: usize = 28;

// The drain of a class that is walked, and what a start has to make of its crashes.
#[derive(Clone, Copy)]
struct At<'a> {
    class: &'a Class,
    drain: usize,
    ends: Ends,
}

// What is told.
#[derive(Drop)]
struct Told<'a> {
    tally: &'a mut Tally,
    page: &'a mut String,
}

/// Walks all crashes of these drains.
pub fn walk(alloc: Global, script: &Script, page: &mut String) -> Result<(), CaseFault> {
    let mut tally = Tally::new(alloc)?;
    for class in script.classes() {
        walk_class(
            alloc,
            class,
            &mut Told {
                tally: &mut tally,
                page,
            },
        )?;
    }
    Ok(tally.write(page)?)
}

// Walks the first start of a class and its drains.
fn walk_class(alloc: Global, class: &Class, told: &mut Told) -> Result<(), CaseFault> {
    let none = Files::new(alloc);
    let ends = Ends { least: 0, most: 0 };
    let at = At {
        class,
        drain: 0,
        ends,
    };
    walk_start(alloc, &none, at, "a first start", told)?;
    let mut disk = CrashDisk::of(alloc, &none, NO_END)?;
    if !start(alloc, &mut disk) {
        return Err(CaseFault::Malformed);
    }
    for (drain, drained) in class.drains.iter().enumerate() {
        let redo = redo_of(alloc, drained)?;
        walk_drain(alloc, class, drain, &mut disk, redo, told)?;
    }
    Ok(())
}

// A drain at its first step.
fn redo_of(alloc: Global, drained: &Drained) -> Result<Redo, CaseFault> {
    let patch = patch_of(alloc, drained)?;
    let name = patch.path().file_name()?;
    let mut redo = Redo::empty();
    redo.put(patch, name);
    Ok(redo)
}

// What a drain lays.
fn patch_of(alloc: Global, drained: &Drained) -> Result<Patch, CaseFault> {
    let Ok(path) = MetricPath::new(alloc, &drained.path) else {
        return Err(CaseFault::Malformed);
    };
    let mut patch = Patch::new(alloc, path, drained.layout, drained.is_new);
    for cell in &drained.cells {
        if !patch.layout().has_slot(cell.archive, cell.slot) {
            return Err(CaseFault::Malformed);
        }
        patch.lay(*cell)?;
    }
    Ok(patch)
}

// Walks the crashes behind each step of a drain.
fn walk_drain(
    alloc: Global,
    class: &Class,
    drain: usize,
    disk: &mut CrashDisk,
    redo: Redo,
    told: &mut Told,
) -> Result<(), CaseFault> {
    let mut redo = redo;
    let most = drain.saturating_add(1);
    let mut least = drain;
    for _ in 0..MOST_STEPS {
        let end = redo.step(disk);
        if disk.last() == Moment::OpenSynced || end == RedoStep::Finished {
            least = most;
        }
        let ends = Ends { least, most };
        walk_images(alloc, disk, At { class, drain, ends }, told)?;
        walk_logs(alloc, disk, At { class, drain, ends }, told)?;
        match end {
            RedoStep::Run => {}
            RedoStep::Finished => return Ok(()),
            RedoStep::Nothing | RedoStep::DiskFault => return Err(CaseFault::Malformed),
        }
    }
    Err(CaseFault::Malformed)
}

// Starts from each image that a crash in a drain may leave now.
fn walk_images(alloc: Global, disk: &CrashDisk, at: At, told: &mut Told) -> Result<(), CaseFault> {
    for number in 0..disk.image_count() {
        told.tally.add_in_drain(disk.last());
        let title = title_of(alloc, disk, number)?;
        walk_start(alloc, &disk.image(number)?, at, title.as_str(), told)?;
    }
    Ok(())
}

// Starts from each other length of a log whose gate was just opened and synced.
fn walk_logs(alloc: Global, disk: &CrashDisk, at: At, told: &mut Told) -> Result<(), CaseFault> {
    if disk.last() != Moment::OpenSynced {
        return Ok(());
    }
    let image = disk.image(0)?;
    let len = image.get(LOG_NAME).unwrap_or(&[]).len();
    for other in [
        len.saturating_sub(1),
        len.saturating_add(1),
        len.saturating_add(CELL),
    ] {
        told.tally.add_other_log();
        judge_log(alloc, &image.with_length(LOG_NAME, other)?, at, told)?;
    }
    Ok(())
}

// Judges a start over an open gate and a log that is no body: it has to fail, and to write nothing.
fn judge_log(alloc: Global, image: &Files, at: At, told: &mut Told) -> Result<(), CaseFault> {
    let mut disk = CrashDisk::of(alloc, image, NO_END)?;
    if !start(alloc, &mut disk) && disk.last() == Moment::FoundSynced {
        return Ok(());
    }
    tell_wrong(at, "open gate synced", "a log of another length", told)
}

// What an image is called: the call that it comes behind, and the fates of what was pending.
fn title_of(alloc: Global, disk: &CrashDisk, number: u64) -> Result<String, AllocError> {
    let mut title = String::from_str(alloc, disk.last().text())?;
    if disk.pending() > 0 {
        title.push(' ')?;
        write_fates(&mut title, disk.pending(), number)?;
    }
    Ok(title)
}

// Walks the crashes of a start, behind one call after the other, and last the start that comes to
// its end.
fn walk_start(
    alloc: Global,
    image: &Files,
    at: At,
    title: &str,
    told: &mut Told,
) -> Result<(), CaseFault> {
    for left in 1..MOST_CALLS {
        let mut disk = CrashDisk::of(alloc, image, left)?;
        let is_done = start(alloc, &mut disk);
        walk_within(alloc, &disk, at, title, told)?;
        if is_done {
            return judge(alloc, &mut disk, at, title, told);
        }
        if disk.has_calls() {
            break;
        }
    }
    tell_wrong(at, title, "no start", told)
}

// Starts again from each image that a crash in a start may leave now.
fn walk_within(
    alloc: Global,
    disk: &CrashDisk,
    at: At,
    title: &str,
    told: &mut Told,
) -> Result<(), CaseFault> {
    for number in 0..disk.image_count() {
        told.tally.add_in_start(disk.last());
        let mut again = CrashDisk::of(alloc, &disk.image(number)?, NO_END)?;
        if !start(alloc, &mut again) || !has_ended(alloc, &mut again, at.class, at.ends)? {
            let within = title_of(alloc, disk, number)?;
            tell_wrong(at, title, within.as_str(), told)?;
        }
    }
    Ok(())
}

// Judges a start that came to its end.
fn judge(
    alloc: Global,
    disk: &mut CrashDisk,
    at: At,
    title: &str,
    told: &mut Told,
) -> Result<(), CaseFault> {
    if has_ended(alloc, disk, at.class, at.ends)? {
        return Ok(());
    }
    tell_wrong(at, title, "other rings", told)
}

// A line for an image that starts to something else.
fn tell_wrong(at: At, title: &str, what: &str, told: &mut Told) -> Result<(), CaseFault> {
    told.tally.add_wrong();
    let (class, drain) = (at.class.number, at.drain);
    writeln!(
        told.page,
        "wrong: class {class}, drain {drain}: {title}: {what}"
    )?;
    Ok(())
}
