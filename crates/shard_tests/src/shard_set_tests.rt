// The shards of all classes over disks in memory.
ghost use Rattle.std.specs.Prelude.{◌≡◌, IfOk, vec_len};

use crate::shard_kit::{DAMAGED, Held, SOUND, paths_in, put_held, read_rules, text_of};
use drain_order::Strategy;
use metric_path::CLASSES;
use outside_io::{Disk, MemDisk};
use schema_rules::Rules;
use shard_core::Shard;
use shard_set::*;
use std::alloc::{AllocError, Global};
use std::process::Abort;
use std::test::Fail;

// No class has this number.
const NONE: u32 = 16;

// So many points, drained in order of arrival.
fn setup(rules: Rules) -> Setup {
    Setup {
        rules,
        limit: 1_000_000,
        strategy: Strategy::Naive,
        redo: false,
    }
}

// ---- the disks

// The disk of a class, with a file whose size tells the class. The path `d` is of class 3 and `a` of
// class 12, so that the file of `d` lies on the disk of class 3, and every other file on the others.
fn disk_of(alloc: Global, class: u32, files: &[Held]) -> Result<MemDisk, AllocError> {
    let mut disk = MemDisk::new(alloc, 0);
    put_held(alloc, &mut disk, &("class.txt", &[], class as usize))?;
    for held in files {
        if (class == 3) == (held.0 == "d.ring") {
            put_held(alloc, &mut disk, held)?;
        }
    }
    Ok(disk)
}

// The number of the call that fails: that of no call is 0.
fn failing_call(class: u32, failing: u32) -> u64 {
    if class == failing { 1 } else { 0 }
}

// The same disk, whose first call fails where its class is to fail.
fn failing_disk_of(
    alloc: Global,
    class: u32,
    files: &[Held],
    failing: u32,
) -> Result<MemDisk, AllocError> {
    let calls = vec![in alloc; failing_call(class, failing)]?;
    Ok(disk_of(alloc, class, files)?.failing_reads(calls))
}

// Sixteen disks, of which that of one class fails at its first call.
fn sixteen_disks(alloc: Global, files: &[Held], failing: u32) -> Result<Vec<MemDisk>, AllocError>
    ensures { IfOk result (λ disks. vec_len disks ≡ 16) }
{
    let mut disks = Vec::new(alloc);
    for class in 0..CLASSES {
        disks.push(failing_disk_of(alloc, class, files, failing)?)?;
    }
    Ok(disks)
}

fn is_of_class(disk: &mut MemDisk, class: u32) -> bool {
    disk.mend();
    disk.length("class.txt") == Ok(Some(u64::from(class)))
}

// Whether all disks are there, each in the place of its class.
fn are_in_order(disks: &mut [MemDisk]) -> bool {
    for (class, disk) in (0..CLASSES).zip(disks.iter_mut()) {
        if !is_of_class(disk, class) {
            return false;
        }
    }
    disks.len() == CLASSES as usize
}

// The class of the disk that has failed, 16 where none has.
fn failed_class(disks: &[MemDisk]) -> u32 {
    let mut failed = NONE;
    for (class, disk) in (0..CLASSES).zip(disks.iter()) {
        if disk.faults() > 0 {
            failed = class;
        }
    }
    failed
}

// ---- starts that are refused

fn start_refused(alloc: Global, disks: Vec<MemDisk>) -> Result<Refused<MemDisk>, Fail>
    requires { vec_len disks ≡ 16 }
{
    let setup = setup(read_rules(alloc, b"")?);
    match start_all(alloc, disks, &setup) {
        Ok(_started) => Err(Fail::new("a class is refused")),
        Err(refused) => Ok(refused),
    }
}

fn assert_refusal(rt: &impl Abort, refusal: &Refusal, disks: &[MemDisk], class: u32, want: &str) {
    let failed = if want == "disk" { class } else { NONE };
    assert!(rt; refusal.class == class, "{want}");
    assert!(rt; text_of(&refusal.fault) == want, "{want}");
    assert!(rt; failed_class(disks) == failed, "{want}");
}

fn assert_refused(
    rt: &impl Abort,
    alloc: Global,
    disks: Vec<MemDisk>,
    class: u32,
    want: &str,
) -> Result<(), Fail>
    requires { vec_len disks ≡ 16 }
{
    let mut refused = start_refused(alloc, disks)?;
    assert_refusal(rt, &refused.refusal, refused.disks.as_slice(), class, want);
    assert!(rt; are_in_order(refused.disks.as_mut_slice()), "{want}");
    Ok(())
}

// The damaged files, the class whose disk fails, and the class and the fault that are told; a file of `a`
// is left alone in other classes.
static REFUSALS: [(&[Held], u32, u32, &str); 6] = [
    (&[("a.ring", DAMAGED, 148)], NONE, 12, "a.ring"),
    (&[("d.ring", DAMAGED, 148)], NONE, 3, "d.ring"),
    (
        &[("a.ring", DAMAGED, 148), ("d.ring", DAMAGED, 20)],
        NONE,
        3,
        "d.ring",
    ),
    (&[("a.ring", DAMAGED, 148)], 7, 7, "disk"),
    (&[("d.ring", DAMAGED, 148)], 7, 3, "d.ring"),
    (&[], 15, 15, "disk"),
];

#[test]
fn the_least_class_that_is_refused_is_told(rt: HostRuntime) -> Result<(), Fail> {
    for (damaged, failing, class, want) in REFUSALS.iter() {
        let disks = sixteen_disks(rt.alloc(), damaged, *failing)?;
        assert_refused(&rt, rt.alloc(), disks, *class, want)?;
    }
    Ok(())
}

// ---- starts

fn start_sixteen(alloc: Global, disks: Vec<MemDisk>) -> Result<Started<MemDisk>, Fail>
    requires { vec_len disks ≡ 16 }
{
    let setup = setup(read_rules(alloc, b"")?);
    match start_all(alloc, disks, &setup) {
        Ok(started) => Ok(started),
        Err(_refused) => Err(Fail::new("no file is damaged")),
    }
}

// What the shard of a class finds.
fn found_in(class: u32) -> &'static [u8] {
    match class {
        3 => b"d",
        12 => b"a",
        _ => b"",
    }
}

fn assert_found(
    rt: &impl Abort,
    alloc: Global,
    shards: &[Shard<MemDisk>],
) -> Result<(), AllocError> {
    for (class, shard) in (0..CLASSES).zip(shards.iter()) {
        assert_found_in(rt, alloc, class, shard)?;
    }
    Ok(())
}

fn assert_found_in(
    rt: &impl Abort,
    alloc: Global,
    class: u32,
    shard: &Shard<MemDisk>,
) -> Result<(), AllocError> {
    let found = paths_in(alloc, shard)?;
    assert!(rt; found.as_slice() == found_in(class), "{class}");
    Ok(())
}

static FILES: [Held; 3] = [
    ("a.ring", SOUND, 148),
    ("d.ring", SOUND, 148),
    ("x.txt", DAMAGED, 148),
];

// The disks that are handed back behind a start whose shards find what they have.
fn disks_behind(rt: &impl Abort, alloc: Global, disks: Vec<MemDisk>) -> Result<Vec<MemDisk>, Fail>
    requires { vec_len disks ≡ 16 }
{
    let started = start_sixteen(alloc, disks)?;
    assert_found(rt, alloc, started.shards.as_slice())?;
    Ok(hand_back(started.shards, started.room))
}

#[test]
fn each_shard_has_the_disk_of_its_class(rt: HostRuntime) -> Result<(), Fail> {
    let disks = sixteen_disks(rt.alloc(), &FILES, NONE)?;
    let mut disks = disks_behind(&rt, rt.alloc(), disks)?;
    assert!(rt; are_in_order(disks.as_mut_slice()));
    Ok(())
}
