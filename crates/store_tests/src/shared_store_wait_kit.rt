// Callers of a store, of which one waits in a disk while the others go on, and the files that they leave.
ghost use Rattle.std.specs.Prelude.{◌≡◌, IfOk, vec_len};

use crate::shared_store_ends::{Row, assert_both, assert_counts, assert_replies, job_of, jobs_of};
use crate::shared_store_files::{are_minutes, bytes_in};
use crate::shared_store_kit::{Job, RULES, Ran, Scene, Turns, run};
use gate_io::{Flag, Gate, GateDisk};
use metric_path::CLASSES;
use outside_io::{Disk, MemDisk};
use shared_store::{Closed, Tally};
use std::alloc::{AllocError, Global};
use std::process::Abort;
use std::sync::Wait;
use std::test::Fail;
use std::thread::Threads;
use std::time::Clock;

// A call of the disk of a class that waits: its first create or write, the read that has so many
// before it, or the read that comes behind the last one that waits. The first of a list puts up the flag 0 and
// waits for the flag 1, the next has the flags 2 and 3.
#[derive(Clone, Copy)]
pub(crate) enum Stop {
    Create(u32),
    Write(u32),
    Read(u32, u64),
    Next(u32),
}

// Which calls wait, what the first caller does before, what both do then, how many entries the
// history has, and how many of each kind. There may be other callers.
#[derive(Clone, Copy)]
pub(crate) struct Case<'a> {
    pub(crate) stops: &'a [Stop],
    pub(crate) before: &'a [Row],
    pub(crate) first: &'a [Row],
    pub(crate) second: &'a [Row],
    pub(crate) entries: u64,
    pub(crate) tally: Tally,
}

// ---- the disks

fn flags_of(alloc: Global, pairs: usize) -> Result<Vec<Flag>, AllocError> {
    let mut flags = Vec::new(alloc);
    for _pair in 0..pairs {
        flags.push(Flag::new(alloc)?)?;
        flags.push(Flag::new(alloc)?)?;
    }
    Ok(flags)
}

fn gate_of<R: Clock + Drop>(rt: R, pair: &[Flag]) -> Result<Gate<R>, Fail> {
    let [begun, opens] = pair else {
        return Err(Fail::new("a gate has two flags"));
    };
    Ok(Gate::new(rt, begun.share()?, opens.share()?))
}

fn class_of(stop: Stop) -> u32 {
    match stop {
        Stop::Create(class) | Stop::Write(class) | Stop::Read(class, _) | Stop::Next(class) =>
            class,
    }
}

fn is_next(stop: Stop) -> bool {
    match stop {
        Stop::Next(_) => true,
        _ => false,
    }
}

// A call that waits, and where.
#[derive(Drop)]
struct Waiting<R: Clock + Drop> {
    stop: Stop,
    gate: Gate<R>,
}

fn stopping<R: Clock + Drop>(disk: GateDisk<R>, waiting: Waiting<R>) -> GateDisk<R> {
    let Waiting { stop, gate } = waiting;
    match stop {
        Stop::Create(_) => disk.creating_at(gate),
        Stop::Write(_) => disk.writing_at(gate),
        Stop::Read(_, before) => disk.reading_at(before, gate),
        Stop::Next(_) => disk,
    }
}

// Where the reads of a class wait that come one behind the other.
fn next_gates<R: Clock + Copy + Drop>(
    rt: R,
    alloc: Global,
    class: u32,
    stops: &[Stop],
    flags: &[Flag],
) -> Result<Vec<Gate<R>>, Fail> {
    let mut gates = Vec::new(alloc);
    for (stop, pair) in stops.iter().zip(flags.chunks(2)) {
        if is_next(*stop) && class_of(*stop) == class {
            gates.push(gate_of(rt, pair)?)?;
        }
    }
    Ok(gates)
}

// The other calls of a class that wait.
fn waits_of<R: Clock + Copy + Drop>(
    rt: R,
    alloc: Global,
    class: u32,
    stops: &[Stop],
    flags: &[Flag],
) -> Result<Vec<Waiting<R>>, Fail> {
    let mut waits = Vec::new(alloc);
    for (stop, pair) in stops.iter().zip(flags.chunks(2)) {
        if !is_next(*stop) && class_of(*stop) == class {
            let gate = gate_of(rt, pair)?;
            waits.push(Waiting { stop: *stop, gate })?;
        }
    }
    Ok(waits)
}

// A disk without files, whose calls wait so.
fn disk_at<R: Clock + Drop>(
    alloc: Global,
    gates: Vec<Gate<R>>,
    waits: Vec<Waiting<R>>,
) -> GateDisk<R> {
    let mut disk = GateDisk::new(MemDisk::new(alloc, 10_000_000)).reading_on(gates);
    for waiting in waits {
        disk = stopping(disk, waiting);
    }
    disk
}

// The disk of a class, without files.
fn disk_of<R: Clock + Copy + Drop>(
    rt: R,
    alloc: Global,
    class: u32,
    stops: &[Stop],
    flags: &[Flag],
) -> Result<GateDisk<R>, Fail> {
    let gates = next_gates(rt, alloc, class, stops, flags)?;
    let waits = waits_of(rt, alloc, class, stops, flags)?;
    Ok(disk_at(alloc, gates, waits))
}

fn disks_of<R: Clock + Copy + Drop>(
    rt: R,
    alloc: Global,
    stops: &[Stop],
    flags: &[Flag],
) -> Result<Vec<GateDisk<R>>, Fail>
    ensures { IfOk result (λ disks. vec_len disks ≡ 16) }
{
    let mut disks = Vec::new(alloc);
    for class in 0..CLASSES {
        disks.push(disk_of(rt, alloc, class, stops, flags)?)?;
    }
    Ok(disks)
}

// ---- a case

// All callers work at once.
const SCENE: Scene = Scene {
    schemas: RULES,
    limit: 10,
    turns: Turns::AtOnce,
};

// How many pairs of flags there are that no call of a disk has.
const PAIRS: usize = 4;

// The jobs of both callers, and of the others.
fn jobs_in(
    alloc: Global,
    case: &Case<'_>,
    others: &[&[Row]],
    flags: &[Flag],
) -> Result<Vec<Job>, AllocError> {
    let mut jobs = jobs_of(alloc, case.before, case.first, case.second, flags)?;
    for rows in others {
        jobs.push(job_of(alloc, &[], rows, flags)?)?;
    }
    Ok(jobs)
}

fn run_case<R: Threads + Wait + Clock + Copy + Send + Sync + Drop>(
    rt: &R,
    alloc: Global,
    case: &Case<'_>,
    others: &[&[Row]],
) -> Result<Ran<GateDisk<R>>, Fail> {
    let flags = flags_of(alloc, case.stops.len().saturating_add(PAIRS))?;
    let jobs = jobs_in(alloc, case, others, &flags)?;
    run(
        rt,
        alloc,
        disks_of(*rt, alloc, case.stops, &flags)?,
        SCENE,
        jobs,
    )
}

fn count_faults<D: Disk>(disks: &[D]) -> u64 {
    let mut faults = 0u64;
    for disk in disks {
        faults = faults.saturating_add(disk.faults());
    }
    faults
}

// The first two callers and the others have their replies.
fn assert_jobs(
    rt: &impl Abort,
    jobs: &[Job],
    case: &Case<'_>,
    others: &[&[Row]],
) -> Result<(), Fail> {
    let Some((both, rest)) = jobs.split_at_checked(2) else {
        return Err(Fail::new("there are two callers"));
    };
    assert_others(rt, rest, others);
    assert_both(rt, both, case.before, case.first, case.second)
}

fn assert_others(rt: &impl Abort, jobs: &[Job], others: &[&[Row]]) {
    for (job, rows) in jobs.iter().zip(others.iter()) {
        assert_replies(rt, job, &[], rows);
    }
    assert!(rt; jobs.len() == others.len());
}

// No call of a disk has failed, which would have waited in vain.
fn assert_closed<D: Disk>(rt: &impl Abort, closed: &Closed<D>, case: &Case<'_>) {
    assert_counts(rt, closed, case.entries, case.tally);
    assert!(rt; count_faults(closed.disks.as_slice()) == 0);
}

fn assert_ran<D: Disk>(
    rt: &impl Abort,
    ran: &Ran<D>,
    case: &Case<'_>,
    others: &[&[Row]],
) -> Result<(), Fail> {
    assert_closed(rt, &ran.closed, case);
    assert_jobs(rt, ran.jobs.as_slice(), case, others)
}

// A case with callers beside the two.
pub(crate) fn assert_among<R: Threads + Wait + Abort + Clock + Copy + Send + Sync + Drop>(
    rt: &R,
    alloc: Global,
    case: &Case<'_>,
    others: &[&[Row]],
) -> Result<(), Fail> {
    let ran = run_case(rt, alloc, case, others)?;
    assert_ran(rt, &ran, case, others)
}

pub(crate) fn assert_case<R: Threads + Wait + Abort + Clock + Copy + Send + Sync + Drop>(
    rt: &R,
    alloc: Global,
    case: &Case<'_>,
) -> Result<(), Fail> {
    assert_among(rt, alloc, case, &[])
}

// ---- the files that a case leaves

// A file, the class on whose disk it is, and the values of its minutes: 0 where there is none.
#[derive(Clone, Copy)]
pub(crate) struct Kept {
    pub(crate) class: u32,
    pub(crate) file: &'static str,
    pub(crate) numbers: &'static [u32],
}

// Whether a disk has the file with these minutes and no others: a head of 28 bytes, and ten cells of 20.
fn is_kept<D: Disk>(alloc: Global, disk: &mut D, kept: &Kept) -> Result<bool, AllocError> {
    let bytes = bytes_in(alloc, disk, kept.file)?;
    match bytes.as_slice().get(28..) {
        Some(cells) => Ok(cells.len() == 200 && are_minutes(cells, kept.numbers)),
        None => Ok(false),
    }
}

// How many of these files the disk of a class has, each with its minutes.
fn count_kept<D: Disk>(
    alloc: Global,
    class: u32,
    disk: &mut D,
    files: &[Kept],
) -> Result<usize, AllocError> {
    let mut count = 0usize;
    for kept in files {
        if kept.class == class && is_kept(alloc, disk, kept)? {
            count = count.saturating_add(1);
        }
    }
    Ok(count)
}

fn count_names<D: Disk>(disk: &mut D) -> Result<usize, Fail> {
    match disk.names() {
        Ok(names) => Ok(names.len()),
        Err(_fault) => Err(Fail::new("the names are read")),
    }
}

// The disks have these files and no others.
fn assert_files<D: Disk>(
    rt: &impl Abort,
    alloc: Global,
    disks: &mut [D],
    files: &[Kept],
) -> Result<(), Fail> {
    let mut found = 0usize;
    for (class, disk) in (0..CLASSES).zip(disks.iter_mut()) {
        found = found.saturating_add(assert_class(rt, alloc, class, disk, files)?);
    }
    assert!(rt; found == files.len());
    Ok(())
}

// How many of them the disk of a class has, and no others.
fn assert_class<D: Disk>(
    rt: &impl Abort,
    alloc: Global,
    class: u32,
    disk: &mut D,
    files: &[Kept],
) -> Result<usize, Fail> {
    let count = count_kept(alloc, class, disk, files)?;
    let names = count_names(disk)?;
    assert!(rt; names == count, "class {class}");
    Ok(count)
}

fn assert_left<D: Disk>(
    rt: &impl Abort,
    alloc: Global,
    ran: &mut Ran<D>,
    case: &Case<'_>,
    others: &[&[Row]],
    files: &[Kept],
) -> Result<(), Fail> {
    assert_ran(rt, ran, case, others)?;
    assert_files(rt, alloc, ran.closed.disks.as_mut_slice(), files)
}

pub(crate) fn assert_kept<R: Threads + Wait + Abort + Clock + Copy + Send + Sync + Drop>(
    rt: &R,
    alloc: Global,
    case: &Case<'_>,
    others: &[&[Row]],
    files: &[Kept],
) -> Result<(), Fail> {
    let mut ran = run_case(rt, alloc, case, others)?;
    assert_left(rt, alloc, &mut ran, case, others, files)
}
