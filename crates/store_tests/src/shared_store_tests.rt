// Stores over disks in memory: puts, drains, questions and notes.
ghost use Rattle.std.specs.Prelude.{◌≡◌, IfOk, vec_len};

use crate::shared_store_ends::{End, Row, Shown, assert_both, assert_counts, jobs_of};
use crate::shared_store_kit::{Deed, RULES, Ran, Scene, Turns, run};
use metric_path::CLASSES;
use outside_io::{Disk, MemDisk};
use point_cache::Put;
use shard_core::Wrote;
use shared_store::{AskFault, DrainEnd, PutCounts, Tally};
use std::alloc::{AllocError, Global};
use std::process::Abort;
use std::sync::Wait;
use std::test::Fail;
use std::thread::Threads;
use std::time::Clock;

// ---- a case

// The rules, how many points of a class may be pending, the class whose disk fails at a writing and
// at a reading call, 0 for none, what the first of two callers does to a new store, and what the
// second does, who learns what the first has seen.
#[derive(Clone, Copy)]
pub(crate) struct Case<'a> {
    pub(crate) schemas: &'static [u8],
    pub(crate) limit: u64,
    pub(crate) class: u32,
    pub(crate) writes: u64,
    pub(crate) reads: u64,
    pub(crate) first: &'a [Row],
    pub(crate) second: &'a [Row],
}

// A disk without files, of which a writing and a reading call fail.
fn disk_failing(alloc: Global, writes: u64, reads: u64) -> Result<MemDisk, AllocError> {
    let writes = vec![in alloc; writes]?;
    let reads = vec![in alloc; reads]?;
    Ok(
        MemDisk::new(alloc, 10_000_000)
            .failing(writes)
            .failing_reads(reads),
    )
}

fn disk_of(alloc: Global, class: u32, case: &Case<'_>) -> Result<MemDisk, AllocError> {
    if class == case.class {
        disk_failing(alloc, case.writes, case.reads)
    } else {
        disk_failing(alloc, 0, 0)
    }
}

fn disks_of(alloc: Global, case: &Case<'_>) -> Result<Vec<MemDisk>, AllocError>
    ensures { IfOk result (λ disks. vec_len disks ≡ 16) }
{
    let mut disks = Vec::new(alloc);
    for class in 0..CLASSES {
        disks.push(disk_of(alloc, class, case)?)?;
    }
    Ok(disks)
}

pub(crate) fn run_case<R: Threads + Wait + Clock + Sync>(
    rt: &R,
    alloc: Global,
    case: &Case<'_>,
) -> Result<Ran<MemDisk>, Fail> {
    let scene = Scene {
        schemas: case.schemas,
        limit: case.limit,
        turns: Turns::OneByOne,
    };
    let jobs = jobs_of(alloc, &[], case.first, case.second, &[])?;
    run(rt, alloc, disks_of(alloc, case)?, scene, jobs)
}

// What a case comes to: how many entries the history has, and how many of each kind.
fn assert_case<R: Abort + Threads + Wait + Clock + Sync>(
    rt: &R,
    alloc: Global,
    case: &Case<'_>,
    entries: u64,
    tally: Tally,
) -> Result<(), Fail> {
    let ran = run_case(rt, alloc, case)?;
    assert_ran(rt, &ran, case.first, case.second, entries, tally)
}

fn assert_ran(
    rt: &impl Abort,
    ran: &Ran<MemDisk>,
    first: &[Row],
    second: &[Row],
    entries: u64,
    tally: Tally,
) -> Result<(), Fail> {
    assert_counts(rt, &ran.closed, entries, tally);
    assert_both(rt, ran.jobs.as_slice(), &[], first, second)
}

// ---- drains of all

// The metric `p.b` is of class 3, `p.a` and `g` are of class 6, and `a` is of class 12.
static FOUR: [Row; 6] = [
    (Deed::Put("p.a", 0, 1), End::Put(Put::Stored)),
    (Deed::Put("p.b", 0, 2), End::Put(Put::Stored)),
    (Deed::Put("g", 0, 3), End::Put(Put::Stored)),
    (Deed::Put("a", 0, 4), End::Put(Put::Stored)),
    (Deed::DrainAll, End::Drained(DrainEnd::Done(4))),
    (Deed::DrainAll, End::Drained(DrainEnd::Done(0))),
];

// The first run of class 6 fails, and comes again.
static FAILING: [Row; 7] = [
    (Deed::Put("p.a", 0, 1), End::Put(Put::Stored)),
    (Deed::Put("p.b", 0, 2), End::Put(Put::Stored)),
    (Deed::Put("g", 0, 3), End::Put(Put::Stored)),
    (Deed::Put("a", 0, 4), End::Put(Put::Stored)),
    (Deed::DrainAll, End::Drained(DrainEnd::DiskFault(6))),
    (Deed::DrainAll, End::Drained(DrainEnd::Done(2))),
    (Deed::DrainAll, End::Drained(DrainEnd::Done(0))),
];

const DRAINED: Tally = Tally {
    stored: 4,
    replaced: 0,
    full: 0,
    drains: 4,
};

#[test]
fn all_that_is_pending_is_drained(rt: HostRuntime) -> Result<(), Fail> {
    // the acts, the writing call of class 6 that fails, and the entries
    let table: [(&[Row], u64, u64); 2] = [(&FOUR, 0, 8), (&FAILING, 1, 9)];
    for (acts, writes, entries) in table {
        let case = Case {
            schemas: RULES,
            limit: 10,
            class: 6,
            writes,
            reads: 0,
            first: acts,
            second: &[],
        };
        assert_case(&rt, rt.alloc(), &case, entries, DRAINED)?;
    }
    Ok(())
}

// ---- drains that make a file

// While the drain of `p.a` is written, no other of its class can begin.
static CREATING: [Row; 14] = [
    (Deed::MakesFile(6), End::MakesFile(false)),
    (Deed::Put("p.a", 0, 1), End::Put(Put::Stored)),
    (Deed::MakesFile(6), End::MakesFile(true)),
    (Deed::MakesFile(3), End::MakesFile(false)),
    (Deed::Plan(6), End::Planned("p.a")),
    (Deed::Put("g", 0, 3), End::Put(Put::Stored)),
    (Deed::MakesFile(6), End::MakesFile(false)),
    (Deed::Write(6), End::Wrote(Wrote::Run)),
    (Deed::Write(6), End::Wrote(Wrote::Run)),
    (Deed::Write(6), End::Wrote(Wrote::Finished)),
    (Deed::MakesFile(6), End::MakesFile(true)),
    (Deed::DrainAll, End::Drained(DrainEnd::Done(1))),
    (Deed::Put("p.a", 1, 2), End::Put(Put::Stored)),
    (Deed::MakesFile(6), End::MakesFile(false)),
];

// A metric that has a file goes before one that has none.
static IN_TURN: [Row; 5] = [
    (Deed::Put("p.a", 0, 1), End::Put(Put::Stored)),
    (Deed::DrainAll, End::Drained(DrainEnd::Done(1))),
    (Deed::Put("p.a", 1, 2), End::Put(Put::Stored)),
    (Deed::Put("g", 0, 3), End::Put(Put::Stored)),
    (Deed::MakesFile(6), End::MakesFile(false)),
];

#[test]
fn the_first_drain_of_a_metric_makes_its_file(rt: HostRuntime) -> Result<(), Fail> {
    // the acts, the entries and the drains
    let table: [(&[Row], u64, u64); 2] = [(&CREATING, 5, 2), (&IN_TURN, 4, 1)];
    for (acts, entries, drains) in table {
        let case = Case {
            schemas: RULES,
            limit: 10,
            class: CLASSES,
            writes: 0,
            reads: 0,
            first: acts,
            second: &[],
        };
        let tally = Tally {
            stored: 3,
            replaced: 0,
            full: 0,
            drains,
        };
        assert_case(&rt, rt.alloc(), &case, entries, tally)?;
    }
    Ok(())
}

// ---- files of version 1

// A file of version 1 of ten minutes by minutes, of which the first is known: its head, and its first cell.
static OLD_FRONT: [u8; 40] = [
    0, 0, 0, 1, 0, 0, 2, 88, 0, 7, 161, 32, 0, 0, 0, 1, 0, 0, 0, 28, 0, 0, 0, 60, 0, 0, 0, 10, 101,
    83, 241, 100, 0, 0, 0, 0, 0, 0, 27, 88,
];

const OLD_LENGTH: u64 = 148;

// It is shown as it is, and the drain of its metric makes it anew with what it held.
static REMAKING: [Row; 9] = [
    (Deed::MakesFile(6), End::MakesFile(false)),
    (Deed::Ask(&OLD_GLOB), End::Shown(&OLD_ALONE, 1)),
    (Deed::Put("p.a", 1, 2), End::Put(Put::Stored)),
    (Deed::MakesFile(6), End::MakesFile(true)),
    (Deed::Ask(&OLD_GLOB), End::Shown(&OLD_AND_NEW, 1)),
    (Deed::DrainAll, End::Drained(DrainEnd::Done(1))),
    (Deed::Ask(&OLD_GLOB), End::Shown(&OLD_AND_NEW, 1)),
    (Deed::Put("p.a", 1, 2), End::Put(Put::Stored)),
    (Deed::MakesFile(6), End::MakesFile(false)),
];

const OLD_GLOB: [&[u8]; 1] = [b"p.a"];

const OLD_ALONE: [&[Shown]; 1] = [&[Shown {
    path: "p.a",
    values: &[Some(7_000), None, None, None, None],
}]];

const OLD_AND_NEW: [&[Shown]; 1] = [&[Shown {
    path: "p.a",
    values: &[Some(7_000), Some(2_000), None, None, None],
}]];

fn put_old_file(disk: &mut MemDisk) -> bool {
    disk.create("p/a.ring", OLD_LENGTH).is_ok() && disk.write_at("p/a.ring", 0, &OLD_FRONT).is_ok()
}

// A disk of a class, with that file in class 6.
fn old_disk(alloc: Global, class: u32) -> Result<MemDisk, AllocError> {
    let mut disk = disk_failing(alloc, 0, 0)?;
    if class == 6 && !put_old_file(&mut disk) {
        return Err(AllocError);
    }
    Ok(disk)
}

fn old_disks(alloc: Global) -> Result<Vec<MemDisk>, AllocError>
    ensures { IfOk result (λ disks. vec_len disks ≡ 16) }
{
    let mut disks = Vec::new(alloc);
    for class in 0..CLASSES {
        disks.push(old_disk(alloc, class)?)?;
    }
    Ok(disks)
}

#[test]
fn a_file_of_version_1_is_made_anew_by_the_next_drain(rt: HostRuntime) -> Result<(), Fail> {
    let alloc = rt.alloc();
    let scene = Scene {
        schemas: RULES,
        limit: 10,
        turns: Turns::OneByOne,
    };
    let tally = Tally {
        stored: 2,
        replaced: 0,
        full: 0,
        drains: 1,
    };
    let jobs = jobs_of(alloc, &[], &REMAKING, &[], &[])?;
    let ran = run(&rt, alloc, old_disks(alloc)?, scene, jobs)?;
    assert_ran(&rt, &ran, &REMAKING, &[], 6, tally)
}

// ---- questions

const A: Shown = Shown {
    path: "p.a",
    values: &[Some(1_000), Some(2_000), None, None, None],
};

const LATER_A: Shown = Shown {
    path: "p.a",
    values: &[Some(1_000), Some(3_000), Some(7_000), None, None],
};

const B: Shown = Shown {
    path: "p.b",
    values: &[Some(5_000), None, None, None, None],
};

const GLOB: [&[u8]; 1] = [b"p.*"];

const BOTH: [&[Shown]; 1] = [&[A, B]];

const GLOBS: [&[u8]; 3] = [b"p.b", b"q.*", b"p.[ac]"];

const LATER: [&[Shown]; 3] = [&[B], &[], &[LATER_A]];

// The rows are the same while a drain is written. A later point is shown over an earlier one.
static ASKED: [Row; 12] = [
    (Deed::Put("p.a", 0, 1), End::Put(Put::Stored)),
    (Deed::Put("p.a", 1, 2), End::Put(Put::Stored)),
    (Deed::Put("p.b", 0, 5), End::Put(Put::Stored)),
    (Deed::Ask(&GLOB), End::Shown(&BOTH, 1)),
    (Deed::Plan(6), End::Planned("p.a")),
    (Deed::Write(6), End::Wrote(Wrote::Run)),
    (Deed::Ask(&GLOB), End::Shown(&BOTH, 1)),
    (Deed::Write(6), End::Wrote(Wrote::Run)),
    (Deed::Write(6), End::Wrote(Wrote::Finished)),
    (Deed::Ask(&GLOB), End::Shown(&BOTH, 1)),
    (Deed::Put("p.a", 2, 7), End::Put(Put::Stored)),
    (Deed::Put("p.a", 1, 3), End::Put(Put::Stored)),
];

static ASKED_LATER: [Row; 2] = [
    (Deed::Ask(&GLOBS), End::Shown(&LATER, 1)),
    (Deed::Names, End::Names(&["p.a", "p.b"])),
];

#[test]
fn a_question_has_the_rows_of_all_classes(rt: HostRuntime) -> Result<(), Fail> {
    let case = Case {
        schemas: RULES,
        limit: 10,
        class: CLASSES,
        writes: 0,
        reads: 0,
        first: &ASKED,
        second: &ASKED_LATER,
    };
    let tally = Tally {
        stored: 5,
        replaced: 0,
        full: 0,
        drains: 1,
    };
    assert_case(&rt, rt.alloc(), &case, 11, tally)
}

// The start asks for the gate and reads the names of the disk, and the next call that reads is that of
// the question.
static UNREAD: [Row; 7] = [
    (Deed::Put("p.a", 0, 1), End::Put(Put::Stored)),
    (Deed::Put("p.a", 1, 2), End::Put(Put::Stored)),
    (Deed::Put("p.a", 2, 3), End::Put(Put::Full)),
    (Deed::DrainAll, End::Drained(DrainEnd::Done(1))),
    (Deed::Put("p.b", 0, 5), End::Put(Put::Stored)),
    (Deed::Ask(&[b"p.*"]), End::Refused(AskFault::DiskFault(6))),
    (Deed::Ask(&GLOB), End::Shown(&BOTH, 1)),
];

// Of the eight entries two are of questions, and one tells of the disk.
#[test]
fn a_disk_that_fails_ends_a_question(rt: HostRuntime) -> Result<(), Fail> {
    let case = Case {
        schemas: RULES,
        limit: 2,
        class: 6,
        writes: 0,
        reads: 3,
        first: &UNREAD,
        second: &[],
    };
    let tally = Tally {
        stored: 3,
        replaced: 0,
        full: 1,
        drains: 1,
    };
    assert_case(&rt, rt.alloc(), &case, 8, tally)
}

// The next call that reads is that of a plan.
static UNPLANNED: [Row; 7] = [
    (Deed::Put("p.a", 0, 1), End::Put(Put::Stored)),
    (Deed::DrainAll, End::Drained(DrainEnd::Done(1))),
    (Deed::Put("p.a", 1, 2), End::Put(Put::Stored)),
    (Deed::Plan(6), End::Planned("disk fault")),
    (Deed::Plan(6), End::Planned("p.a")),
    (Deed::Plan(6), End::Planned("busy")),
    (Deed::DrainAll, End::Drained(DrainEnd::Done(0))),
];

// Of the five entries one tells of the disk.
#[test]
fn a_disk_that_fails_ends_a_plan(rt: HostRuntime) -> Result<(), Fail> {
    let case = Case {
        schemas: RULES,
        limit: 2,
        class: 6,
        writes: 0,
        reads: 3,
        first: &UNPLANNED,
        second: &[],
    };
    let tally = Tally {
        stored: 2,
        replaced: 0,
        full: 0,
        drains: 2,
    };
    assert_case(&rt, rt.alloc(), &case, 5, tally)
}

const POINTS: [(&str, u32, u32); 6] = [
    ("p.b", 0, 5),
    ("p.a", 0, 1),
    ("p.a", 1, 9),
    ("p.a", 1, 2),
    ("p.a", 2, 3),
    ("a", 0, 1),
];

const SIX: PutCounts = PutCounts {
    done: 6,
    stored: 4,
    replaced: 1,
    full: 1,
};

// Of each class two points may be pending.
static PUT: [Row; 3] = [
    (Deed::PutAll(&POINTS), End::PutAll(SIX)),
    (Deed::Ask(&GLOB), End::Shown(&BOTH, 1)),
    (Deed::Names, End::Names(&["a", "p.a", "p.b"])),
];

#[test]
fn a_piece_is_put_point_by_point(rt: HostRuntime) -> Result<(), Fail> {
    let case = Case {
        schemas: RULES,
        limit: 2,
        class: CLASSES,
        writes: 0,
        reads: 0,
        first: &PUT,
        second: &[],
    };
    let tally = Tally {
        stored: 4,
        replaced: 1,
        full: 1,
        drains: 0,
    };
    assert_case(&rt, rt.alloc(), &case, 8, tally)
}

// Without rules all metrics have minutes.
static MANY: [Row; 4] = [
    (Deed::PutMany(0, 10_000), End::PutMany(10_000)),
    (Deed::Ask(&[b"s.*"]), End::Found(10_000)),
    (Deed::PutMany(10_000, 10_001), End::PutMany(1)),
    (
        Deed::Ask(&[b"s.*"]),
        End::Refused(AskFault::TooManySeries(10_001)),
    ),
];

#[test]
fn a_question_has_at_most_ten_thousand_series(rt: HostRuntime) -> Result<(), Fail> {
    let case = Case {
        schemas: b"",
        limit: 1_000,
        class: CLASSES,
        writes: 0,
        reads: 0,
        first: &MANY,
        second: &[],
    };
    let tally = Tally {
        stored: 10_001,
        replaced: 0,
        full: 0,
        drains: 0,
    };
    assert_case(&rt, rt.alloc(), &case, 10_003, tally)
}
