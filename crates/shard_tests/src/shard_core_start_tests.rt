// Starts of shards over disks in memory.
use crate::shard_kit::{DAMAGED, Held, SOUND, file_of, paths_in, put_held, read_rules, text_of};
use drain_order::Strategy;
use outside_io::{Disk, MemDisk};
use schema_rules::Rules;
use shard_core::*;
use std::alloc::{AllocError, Global};
use std::process::Abort;
use std::test::Fail;

// More points than any test puts.
const LIMIT: u64 = 1_000_000;

fn disk_with(alloc: Global, files: &[Held]) -> Result<MemDisk, AllocError> {
    let mut disk = MemDisk::new(alloc, 0);
    for held in files {
        put_held(alloc, &mut disk, held)?;
    }
    Ok(disk)
}

// The shard of class 12 over a disk, with the rules of files that are not there.
fn start(
    alloc: Global,
    disk: MemDisk,
    rules: Rules,
) -> Result<Shard<MemDisk>, (MemDisk, StartFault)> {
    Shard::start(alloc, 12, disk, rules, LIMIT, Strategy::Naive, false)
}

// ---- heads

fn refused_for(alloc: Global, refusal: &(MemDisk, StartFault)) -> Result<Vec<u8>, AllocError> {
    Vec::from_slice(alloc, text_of(&refusal.1).as_bytes())
}

// A shard that is given back costs a proof a third of one that is dropped.
fn paths_of(alloc: Global, shard: Shard<MemDisk>) -> Result<Vec<u8>, AllocError> {
    let paths = paths_in(alloc, &shard);
    let _ = shard.finish();
    paths
}

fn found_by(alloc: Global, disk: MemDisk, rules: Rules) -> Result<Vec<u8>, AllocError> {
    match start(alloc, disk, rules) {
        Ok(shard) => paths_of(alloc, shard),
        Err(refusal) => refused_for(alloc, &refusal),
    }
}

// What a start finds: the paths of its metrics, or what it is refused for.
fn found(alloc: Global, disk: MemDisk) -> Result<Vec<u8>, Fail> {
    let rules = read_rules(alloc, b"")?;
    Ok(found_by(alloc, disk, rules)?)
}

fn assert_found(
    rt: &impl Abort,
    alloc: Global,
    what: &str,
    files: &[Held],
    want: &str,
) -> Result<(), Fail> {
    let found = found(alloc, disk_with(alloc, files)?)?;
    assert!(rt; found.as_slice() == want.as_bytes(), "{what}");
    Ok(())
}

// What a start finds over a sound file of `a.b`, over one that counts as none, and over a damaged
// one.
const RING: &str = "a.b";

const NONE: &str = "";

const DAMAGED_FILE: &str = "a/b.ring";

// What the file of `a.b` is, the numbers that it begins with, its size, and what the start finds.
static HEADS: [(&str, &[u32], usize, &str); 16] = [
    ("sound", SOUND, 148, RING),
    ("zero", &[], 28, NONE),
    ("empty", &[], 0, NONE),
    (
        "shorter than four numbers",
        &[1, 600, 500_000],
        15,
        DAMAGED_FILE,
    ),
    ("shorter than its rows", SOUND, 27, DAMAGED_FILE),
    (
        "of method 0",
        &[0, 600, 500_000, 1, 28, 60, 10],
        148,
        DAMAGED_FILE,
    ),
    ("of method 9", DAMAGED, 148, DAMAGED_FILE),
    ("of no archive", &[1, 600, 500_000, 0], 148, DAMAGED_FILE),
    ("of 26 archives", &[1, 600, 500_000, 26], 400, DAMAGED_FILE),
    (
        "of an offset too far",
        &[1, 600, 500_000, 1, 29, 60, 10],
        148,
        DAMAGED_FILE,
    ),
    (
        "of another retention",
        &[1, 601, 500_000, 1, 28, 60, 10],
        148,
        DAMAGED_FILE,
    ),
    ("a byte too short", SOUND, 147, DAMAGED_FILE),
    ("a byte too long", SOUND, 149, DAMAGED_FILE),
    (
        "of a factor above one",
        &[1, 600, 1_000_001, 1, 28, 60, 10],
        148,
        DAMAGED_FILE,
    ),
    (
        "of steps 60 and 120",
        &[1, 2400, 0, 2, 40, 60, 10, 160, 120, 20],
        400,
        RING,
    ),
    (
        "of steps 60 and 90",
        &[1, 1800, 0, 2, 40, 60, 10, 160, 90, 20],
        400,
        DAMAGED_FILE,
    ),
];

#[test]
fn heads_of_files(rt: HostRuntime) -> Result<(), Fail> {
    for (what, numbers, size, want) in HEADS.iter() {
        assert_found(
            &rt,
            rt.alloc(),
            what,
            &[("a/b.ring", *numbers, *size)],
            want,
        )?;
    }
    Ok(())
}

// The files, and the name of the first that is damaged, in byte order.
static NAMES: [(&[Held], &str); 4] = [
    (
        &[("a/r.ring", DAMAGED, 148), ("a/b.ring", DAMAGED, 148)],
        "a/b.ring",
    ),
    (
        &[
            ("a/r.ring", DAMAGED, 148),
            ("a/b.ring", SOUND, 148),
            ("a/2.ring", SOUND, 20),
        ],
        "a/2.ring",
    ),
    (
        &[
            ("a/2.ring", DAMAGED, 148),
            ("a.ring", DAMAGED, 148),
            ("a/b.ring", DAMAGED, 148),
        ],
        "a.ring",
    ),
    // no file of the class stands before it
    (
        &[("a.b.ring", DAMAGED, 148), ("a/r.ring", DAMAGED, 148)],
        "a/r.ring",
    ),
];

#[test]
fn the_first_damaged_name_is_told(rt: HostRuntime) -> Result<(), Fail> {
    for (files, want) in NAMES.iter() {
        assert_found(&rt, rt.alloc(), want, files, want)?;
    }
    Ok(())
}

// ---- the log

// The first byte of a gate that is open.
const OPEN: &[u32] = &[0x0100_0000];

// A body whose path is longer than the body.
const CUT: &[u32] = &[9];

// The files, and what a start over them finds: a log of which nothing can be laid is told before any
// head, where the gate is open. Sixteen zeros are the body of nothing.
static LOGS: [(&[Held], &str); 5] = [
    (
        &[
            ("redo.gate", OPEN, 1),
            ("redo.log", CUT, 16),
            ("a/b.ring", DAMAGED, 148),
        ],
        "redo.log",
    ),
    (
        &[("redo.gate", OPEN, 1), ("a/b.ring", SOUND, 148)],
        "redo.log",
    ),
    (
        &[
            ("redo.gate", OPEN, 1),
            ("redo.log", &[], 16),
            ("a/b.ring", SOUND, 148),
        ],
        RING,
    ),
    (
        &[
            ("redo.gate", &[], 1),
            ("redo.log", CUT, 16),
            ("a/b.ring", SOUND, 148),
        ],
        RING,
    ),
    (
        &[
            ("redo.gate", &[], 1),
            ("redo.log", CUT, 16),
            ("a/b.ring", DAMAGED, 148),
        ],
        DAMAGED_FILE,
    ),
];

#[test]
fn a_log_is_read_where_the_gate_is_open(rt: HostRuntime) -> Result<(), Fail> {
    for (files, want) in LOGS.iter() {
        assert_found(&rt, rt.alloc(), want, files, want)?;
    }
    Ok(())
}

// ---- what a start does with its disk

// What a file holds: nothing where it is not there.
fn bytes_in<D: Disk>(alloc: Global, disk: &mut D, name: &str) -> Result<Vec<u8>, AllocError> {
    let size = match disk.length(name) {
        Ok(Some(size)) => size,
        _ => return Ok(Vec::new(alloc)),
    };
    let mut bytes = vec![in alloc; 0; size as usize]?;
    let _ = disk.read_at(name, 0, &mut bytes);
    Ok(bytes)
}

fn holds<D: Disk>(alloc: Global, disk: &mut D, held: &Held) -> Result<bool, AllocError> {
    let (name, numbers, size) = held;
    let bytes = bytes_in(alloc, disk, name)?;
    let want = file_of(alloc, numbers, *size)?;
    Ok(bytes.as_slice() == want.as_slice())
}

fn count_files<D: Disk>(disk: &mut D) -> Option<usize> {
    match disk.names() {
        Ok(names) => Some(names.len()),
        Err(_fault) => None,
    }
}

// The disk behind a start that finds no damaged file.
fn disk_after(alloc: Global, disk: MemDisk) -> Result<MemDisk, Fail> {
    let rules = read_rules(alloc, b"")?;
    match start(alloc, disk, rules) {
        Ok(shard) => Ok(shard.finish()),
        Err(_refusal) => Err(Fail::new("no file of the class is damaged")),
    }
}

// The path `b` is of class 5.
static OTHERS: [Held; 4] = [
    ("x.txt", DAMAGED, 28),
    ("a.b.ring", DAMAGED, 30),
    ("b.ring", DAMAGED, 148),
    ("a/b.ring", SOUND, 148),
];

fn assert_others(rt: &impl Abort, alloc: Global, disk: &mut MemDisk) -> Result<(), Fail> {
    for held in OTHERS.iter() {
        let is_held = holds(alloc, disk, held)?;
        assert!(rt; is_held, "{}", held.0);
    }
    assert!(rt; count_files(disk) == Some(4));
    Ok(())
}

#[test]
fn other_files_are_left_alone(rt: HostRuntime) -> Result<(), Fail> {
    let mut disk = disk_after(rt.alloc(), disk_with(rt.alloc(), &OTHERS)?)?;
    assert_others(&rt, rt.alloc(), &mut disk)
}

// A disk with the file of `a.b`, of which one reading call fails.
fn failing_disk(alloc: Global, call: u64) -> Result<MemDisk, AllocError> {
    let calls = vec![in alloc; call]?;
    let disk = disk_with(alloc, &[("a/b.ring", SOUND, 148)])?;
    Ok(disk.failing_reads(calls))
}

fn faults_of_refusal(refusal: &(MemDisk, StartFault)) -> Option<u64> {
    match &refusal.1 {
        StartFault::DiskFault => Some(refusal.0.faults()),
        StartFault::Damaged(_) | StartFault::NoMemory => None,
    }
}

// How many faults the disk counts after a start that it lets succeed or fails, `None` where the start ends
// otherwise.
fn faults_of_start(alloc: Global, disk: MemDisk, rules: Rules) -> Option<u64> {
    match start(alloc, disk, rules) {
        Ok(shard) => Some(shard.finish().faults()),
        Err(refusal) => faults_of_refusal(&refusal),
    }
}

fn assert_counted(rt: &impl Abort, alloc: Global, call: u64, want: u64) -> Result<(), Fail> {
    let rules = read_rules(alloc, b"")?;
    let faults = faults_of_start(alloc, failing_disk(alloc, call)?, rules);
    assert!(rt; faults == Some(want), "call {call}");
    Ok(())
}

// A start asks for the gate and lists the names, and then asks the length of the one file and reads
// its head.
#[test]
fn a_failed_call_is_counted(rt: HostRuntime) -> Result<(), Fail> {
    for (call, want) in [(1, 1), (2, 1), (3, 1), (4, 1), (5, 0)] {
        assert_counted(&rt, rt.alloc(), call, want)?;
    }
    Ok(())
}

// A disk of which one writing call fails.
fn full_disk(alloc: Global, call: u64) -> Result<MemDisk, AllocError> {
    let calls = vec![in alloc; call]?;
    Ok(MemDisk::new(alloc, 100).failing(calls))
}

// Whether a start that makes the log is refused for the disk.
fn is_refused(alloc: Global, disk: MemDisk, rules: Rules) -> bool {
    match Shard::start(alloc, 12, disk, rules, LIMIT, Strategy::Naive, true) {
        Ok(shard) => {
            let _ = shard.finish();
            false
        }
        Err(refusal) => faults_of_refusal(&refusal) == Some(1),
    }
}

// The same over a disk of which one writing call fails.
fn is_unmade(alloc: Global, call: u64) -> Result<bool, Fail> {
    let disk = full_disk(alloc, call)?;
    let rules = read_rules(alloc, b"")?;
    Ok(is_refused(alloc, disk, rules))
}

// The log is created and brought to the device, and then the gate.
#[test]
fn a_start_is_refused_where_the_log_cannot_be_made(rt: HostRuntime) -> Result<(), Fail> {
    for (call, want) in [(1, true), (2, true), (3, true), (4, true), (5, false)] {
        assert!(rt; is_unmade(rt.alloc(), call)? == want, "call {call}");
    }
    Ok(())
}
