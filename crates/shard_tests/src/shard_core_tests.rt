// Shards over disks in memory: puts, plans, runs, looks and reads.
ghost use Rattle.std.specs.Prelude.{◌≡◌, ◌<◌, ◌≤◌, All, IfOk};
ghost use Rattle.shard_core.specs.Looks.{MayRead};
ghost use Rattle.shard_core.specs.View.{inside_of};

use crate::shard_kit::{SOUND, file_of, read_rules};
use drain_order::Strategy;
use fixed_num::{Milli, milli_of};
use metric_line::{Datum, read_line};
use metric_path::MetricPath;
use outside_io::{Disk, MemDisk};
use path_glob::Glob;
use point_cache::Put;
use schema_rules::Rules;
use shard_core::*;
use std::alloc::{AllocError, Global};
use std::process::Abort;
use std::test::Fail;

// A minute and five minutes begin here.
const START: u32 = 1_700_000_100;

// Four minutes later, the moment of most questions.
const NOW: u32 = START + 240;

// Ten minutes by minutes.
const ONE: &[u8] = b"[all]\npattern = .*\nretentions = 60:10\n";

// And an hour by five minutes.
const TWO: &[u8] = b"[all]\npattern = .*\nretentions = 60:10,300:12\n";

// And four hours by ten minutes.
const THREE: &[u8] = b"[all]\npattern = .*\nretentions = 60:10,300:12,600:24\n";

// What is done to a shard, and what comes of it.
#[derive(Clone, Copy)]
enum Act<'a> {
    // A line is put, and ends so.
    Put(&'a [u8], Put),
    // A drain is planned at a moment: the path of its metric, or how else the plan ends.
    Plan(u32, &'static str),
    // A run is written, and ends so.
    Write(Wrote),
    // These are the metrics that are pending or kept.
    Names(&'a [&'static str]),
    // A glob finds these metrics, in a question from one moment until another, asked at `NOW`.
    Found(&'a [u8], u32, u32, &'a [&'static str]),
    // The values of the first metric that it finds, up to `NOW`.
    Shown(&'a [u8], u32, &'a [Option<i64>]),
    // A metric is looked at, a drain is planned, and a read tells so many drains, if it has moved.
    Moved(&'a [u8], Option<u64>),
}

// The shard of class 12, in which are `a.b`, `a.r` and `a.2`, over a disk.
fn start_over(
    alloc: Global,
    disk: MemDisk,
    rules: Rules,
    limit: u64,
    strategy: Strategy,
) -> Result<Shard<MemDisk>, Fail> {
    match Shard::start(alloc, 12, disk, rules, limit.max(1), strategy, false) {
        Ok(shard) => Ok(shard),
        Err(_refusal) => Err(Fail::new("no file is damaged")),
    }
}

// The same with drains that go through the log.
fn start_logged(alloc: Global, disk: MemDisk, rules: Rules) -> Result<Shard<MemDisk>, Fail> {
    match Shard::start(alloc, 12, disk, rules, 100, Strategy::Naive, true) {
        Ok(shard) => Ok(shard),
        Err(_refusal) => Err(Fail::new("no file is damaged")),
    }
}

// What owns a shard has few ways out: each of them drops all of it, and a proof pays for that.
fn shard_over(
    alloc: Global,
    disk: MemDisk,
    schemas: &[u8],
    limit: u64,
    strategy: Strategy,
) -> Result<Shard<MemDisk>, Fail> {
    let rules = read_rules(alloc, schemas)?;
    start_over(alloc, disk, rules, limit, strategy)
}

fn shard_logged(alloc: Global, disk: MemDisk, schemas: &[u8]) -> Result<Shard<MemDisk>, Fail> {
    let rules = read_rules(alloc, schemas)?;
    start_logged(alloc, disk, rules)
}

// ---- what is done

// Whether the metric is of the class, and its put ends so.
fn put<D: Disk>(shard: &mut Shard<D>, datum: &Datum, end: Put) -> bool {
    if datum.path.class() != shard.class() {
        return false;
    }
    shard.put(datum) == end
}

fn puts<D: Disk>(alloc: Global, shard: &mut Shard<D>, line: &[u8], end: Put) -> bool {
    match read_line(alloc, line, START) {
        Ok(datum) => put(shard, &datum, end),
        Err(_fault) => false,
    }
}

fn has_end(planned: &Planned, end: &str) -> bool {
    match planned {
        Planned::Took(path) => path.as_str() == end,
        Planned::Busy => end == "busy",
        Planned::Idle => end == "idle",
        Planned::DiskFault => end == "disk fault",
        Planned::NoMemory => end == "no memory",
    }
}

fn plans<D: Disk>(shard: &mut Shard<D>, now: u32, end: &str) -> bool {
    has_end(&shard.plan(now), end)
}

fn has_names<D: Disk>(shard: &Shard<D>, paths: &[&'static str]) -> bool {
    match shard.names() {
        Ok(names) => are_names(names.as_slice(), paths),
        Err(_fault) => false,
    }
}

fn are_names(names: &[MetricPath], paths: &[&'static str]) -> bool {
    names.len() == paths.len()
        && names
            .iter()
            .zip(paths.iter())
            .all(|(name, path)| name.as_str() == *path)
}

// Nothing could be looked at: no test of this kind wants that.
#[derive(Clone, Copy)]
struct NotLooked;

// What a glob finds in a question from a moment until another, asked at `NOW`.
fn look<D: Disk>(
    alloc: Global,
    shard: &Shard<D>,
    glob: &[u8],
    from: u32,
    until: u32,
) -> Result<Vec<Looked>, NotLooked>
    ensures { IfOk result (λ looked. All (MayRead (inside_of shard.now)) looked.items) }
{
    let Ok(glob) = Glob::new(alloc, glob) else {
        return Err(NotLooked);
    };
    let until = u64::from(until);
    match shard.look(
        &Verdicts::none(alloc, &glob),
        until.min(u64::from(from)),
        until,
        u64::from(NOW),
    ) {
        Ok(looked) => Ok(looked),
        Err(_fault) => Err(NotLooked),
    }
}

fn are_found(looked: &[Looked], paths: &[&'static str]) -> bool {
    looked.len() == paths.len()
        && looked
            .iter()
            .zip(paths.iter())
            .all(|(one, path)| one.path.as_str() == *path)
}

fn finds<D: Disk>(
    alloc: Global,
    shard: &Shard<D>,
    glob: &[u8],
    from: u32,
    until: u32,
    paths: &[&'static str],
) -> bool {
    match look(alloc, shard, glob, from, until) {
        Ok(looked) => are_found(looked.as_slice(), paths),
        Err(_fault) => false,
    }
}

// Whether the first metric that a glob finds has these values.
fn shows<D: Disk>(
    alloc: Global,
    shard: &mut Shard<D>,
    glob: &[u8],
    from: u32,
    values: &[Option<i64>],
) -> bool {
    let Ok(looked) = look(alloc, shard, glob, from, NOW) else {
        return false;
    };
    let Some(one) = looked.first() else {
        return false;
    };
    match shard.read(one) {
        Ok(read) => are_values(read.list(), values),
        Err(_fault) => false,
    }
}

// Whether these are the values of so many thousandths.
fn are_values(values: &[Option<Milli>], thousandths: &[Option<i64>]) -> bool {
    values.len() == thousandths.len()
        && values.iter().zip(thousandths.iter()).all(|(value, number)| *value
            == number.map(|thousandths| milli_of(thousandths)))
}

// What a read tells of the drains of a metric, where one is planned since it was looked at.
fn moved<D: Disk>(
    alloc: Global,
    shard: &mut Shard<D>,
    glob: &[u8],
) -> Result<Option<u64>, NotLooked> {
    let looked = look(alloc, shard, glob, START, NOW)?;
    let Some(one) = looked.first() else {
        return Err(NotLooked);
    };
    let _ = shard.plan(NOW);
    match shard.read(one) {
        Err(LookFault::Moved(drains)) => Ok(Some(drains)),
        _ => Ok(None),
    }
}

fn are_drains(told: Result<Option<u64>, NotLooked>, drains: Option<u64>) -> bool {
    match told {
        Ok(told) => told == drains,
        Err(_fault) => false,
    }
}

// Whether what comes of an act is what is to come.
fn obey<D: Disk>(alloc: Global, shard: &mut Shard<D>, act: Act<'_>) -> bool {
    match act {
        Act::Put(line, end) => puts(alloc, shard, line, end),
        Act::Plan(now, end) => plans(shard, now, end),
        Act::Write(end) => shard.write_next() == end,
        Act::Names(paths) => has_names(shard, paths),
        Act::Found(glob, from, until, paths) => finds(alloc, shard, glob, from, until, paths),
        Act::Shown(glob, from, values) => shows(alloc, shard, glob, from, values),
        Act::Moved(glob, drains) => are_drains(moved(alloc, shard, glob), drains),
    }
}

fn assert_all<D: Disk>(rt: &impl Abort, alloc: Global, shard: &mut Shard<D>, acts: &[Act<'_>]) {
    for (n, act) in acts.iter().enumerate() {
        assert!(rt; obey(alloc, shard, *act), "act {n}");
    }
}

// The same over a shard that is given, which is given back.
fn assert_done(rt: &impl Abort, alloc: Global, shard: Shard<MemDisk>, acts: &[Act<'_>]) {
    let mut shard = shard;
    assert_all(rt, alloc, &mut shard, acts);
    let _ = shard.finish();
}

// ---- drains

// Five minutes of `a.b` from the start on, with the values from 1 to 5.
const B_1: Act<'static> = Act::Put(b"a.b 1 1700000100", Put::Stored);

const B_2: Act<'static> = Act::Put(b"a.b 2 1700000160", Put::Stored);

const B_3: Act<'static> = Act::Put(b"a.b 3 1700000220", Put::Stored);

const B_4: Act<'static> = Act::Put(b"a.b 4 1700000280", Put::Stored);

const B_5: Act<'static> = Act::Put(b"a.b 5 1700000340", Put::Stored);

static FIVE: [Act<'static>; 5] = [B_1, B_2, B_3, B_4, B_5];

// The five minutes by minutes, and the two five minutes up to them: 3 is the average of the second.
const FINE: Act<'static> = Act::Shown(
    b"a.b",
    START - 60,
    &[
        Some(1_000),
        Some(2_000),
        Some(3_000),
        Some(4_000),
        Some(5_000),
    ],
);

const COARSE: Act<'static> = Act::Shown(b"*.*", START - 460, &[None, Some(3_000)]);

// More than an hour by ten minutes: in the last ten one of two five minutes is known, which is
// enough.
const OLD: Act<'static> = Act::Shown(
    b"a.*",
    START - 3_400,
    &[None, None, None, None, None, Some(3_000)],
);

// A file of `a.b` with one other point.
const BEFORE: [Act<'static>; 5] = [
    Act::Put(b"a.b 9 1700000160", Put::Stored),
    Act::Plan(START + 60, "a.b"),
    Act::Write(Wrote::Run),
    Act::Write(Wrote::Run),
    Act::Write(Wrote::Finished),
];

// The drain of the five minutes: the rules, what is done before, the questions, the first writing
// call of the drain, and its runs.
#[derive(Clone, Copy)]
struct Drain<'a> {
    schemas: &'a [u8],
    before: &'a [Act<'a>],
    asks: &'a [Act<'a>],
    first: u32,
    runs: u32,
}

// Writes what is on the shelf run by run, with questions before each run and behind the last: how
// many were written, and how many failed.
fn write_all<D: Disk>(
    rt: &impl Abort,
    alloc: Global,
    shard: &mut Shard<D>,
    asks: &[Act<'_>],
) -> Result<(u32, u32), Fail> {
    let mut runs = 0u32;
    let mut faults = 0u32;
    for _ in 0..20u32 {
        assert_all(rt, alloc, shard, asks);
        match shard.write_next() {
            Wrote::Run | Wrote::Finished => runs = runs.saturating_add(1),
            Wrote::DiskFault => faults = faults.saturating_add(1),
            Wrote::Nothing => return Ok((runs, faults)),
        }
    }
    Err(Fail::new("the shelf is empty at last"))
}

fn drain_over(
    rt: &impl Abort,
    alloc: Global,
    shard: &mut Shard<MemDisk>,
    drain: &Drain<'_>,
) -> Result<(u32, u32), Fail> {
    assert_all(rt, alloc, shard, drain.before);
    assert_all(rt, alloc, shard, &FIVE);
    assert_all(rt, alloc, shard, drain.asks);
    assert_all(rt, alloc, shard, &[Act::Plan(NOW, "a.b")]);
    write_all(rt, alloc, shard, drain.asks)
}

// The same over a shard that is given, which is given back, since one that is dropped costs a
// proof three times as much.
fn drain_whole(
    rt: &impl Abort,
    alloc: Global,
    shard: Shard<MemDisk>,
    drain: &Drain<'_>,
) -> Result<(u32, u32), Fail> {
    let mut shard = shard;
    let ends = drain_over(rt, alloc, &mut shard, drain);
    let _ = shard.finish();
    ends
}

fn torn(disk: MemDisk, is_torn: bool) -> MemDisk {
    if !is_torn {
        return disk;
    }
    disk.tearing()
}

// A disk of which one writing call fails, and leaves its place as it was, or torn.
fn failing_disk(alloc: Global, call: u32, is_torn: bool) -> Result<MemDisk, AllocError> {
    let calls = vec![in alloc; u64::from(call)]?;
    Ok(torn(MemDisk::new(alloc, 10_000).failing(calls), is_torn))
}

// How many runs are written, and how many fail, where a run of the drain does.
fn drain_failing(
    rt: &impl Abort,
    alloc: Global,
    drain: &Drain<'_>,
    run: u32,
    is_torn: bool,
) -> Result<(u32, u32), Fail> {
    let disk = failing_disk(alloc, drain.first.saturating_add(run), is_torn)?;
    let shard = shard_over(alloc, disk, drain.schemas, 100, Strategy::Naive)?;
    drain_whole(rt, alloc, shard, drain)
}

// A run that fails comes again. Behind the last run no call fails.
fn assert_each_run(
    rt: &impl Abort,
    alloc: Global,
    drain: &Drain<'_>,
    is_torn: bool,
) -> Result<(), Fail> {
    let runs = drain.runs;
    for run in 0..=runs {
        let ends = drain_failing(rt, alloc, drain, run, is_torn)?;
        assert!(rt;
            ends == (runs, u32::from(run < runs)),
            "call {run} of {runs}"
        );
    }
    Ok(())
}

const ONE_ASKED: [Act<'static>; 1] = [FINE];

const TWO_ASKED: [Act<'static>; 2] = [FINE, COARSE];

const THREE_ASKED: [Act<'static>; 3] = [FINE, COARSE, OLD];

static DRAINS: [Drain<'static>; 6] = [
    Drain {
        schemas: ONE,
        before: &[],
        asks: &ONE_ASKED,
        first: 1,
        runs: 3,
    },
    Drain {
        schemas: TWO,
        before: &[],
        asks: &TWO_ASKED,
        first: 1,
        runs: 4,
    },
    Drain {
        schemas: THREE,
        before: &[],
        asks: &THREE_ASKED,
        first: 1,
        runs: 5,
    },
    // the first slot is that of the second minute, so that the first minute has the last
    Drain {
        schemas: ONE,
        before: &BEFORE,
        asks: &ONE_ASKED,
        first: 4,
        runs: 2,
    },
    Drain {
        schemas: TWO,
        before: &BEFORE,
        asks: &TWO_ASKED,
        first: 4,
        runs: 3,
    },
    Drain {
        schemas: THREE,
        before: &BEFORE,
        asks: &THREE_ASKED,
        first: 4,
        runs: 4,
    },
];

// A file that is to be created is, then its cells are written, those of each archive at once, and
// then its head. Each run fails once, and leaves its place as it was, or torn.
#[test]
fn a_metric_shows_the_same_between_any_two_runs(rt: HostRuntime) -> Result<(), Fail> {
    for drain in DRAINS.iter() {
        assert_each_run(&rt, rt.alloc(), drain, false)?;
        assert_each_run(&rt, rt.alloc(), drain, true)?;
    }
    Ok(())
}

// ---- drains through the log

// How many steps are taken, and how many fail, where a step of the drain does. Behind the four calls
// by which the log is made, five come before the runs, and three behind them.
fn steps_failing(
    rt: &impl Abort,
    alloc: Global,
    drain: &Drain<'_>,
    step: u32,
    is_torn: bool,
) -> Result<(u32, u32), Fail> {
    let disk = failing_disk(alloc, step.saturating_add(5), is_torn)?;
    let shard = shard_logged(alloc, disk, drain.schemas)?;
    drain_whole(rt, alloc, shard, drain)
}

fn assert_each_step(
    rt: &impl Abort,
    alloc: Global,
    drain: &Drain<'_>,
    is_torn: bool,
) -> Result<(), Fail> {
    let steps = drain.runs.saturating_add(8);
    for step in 0..=steps {
        let ends = steps_failing(rt, alloc, drain, step, is_torn)?;
        assert!(rt;
            ends == (steps, u32::from(step < steps)),
            "step {step} of {steps}"
        );
    }
    Ok(())
}

#[test]
fn a_metric_shows_the_same_between_any_two_steps_of_the_log(rt: HostRuntime) -> Result<(), Fail> {
    for drain in DRAINS.iter().take(3) {
        assert_each_step(&rt, rt.alloc(), drain, false)?;
        assert_each_step(&rt, rt.alloc(), drain, true)?;
    }
    Ok(())
}

// So many steps of a drain of the five minutes.
fn take_steps(rt: &impl Abort, alloc: Global, shard: &mut Shard<MemDisk>, steps: u32) {
    assert_all(rt, alloc, shard, &FIVE);
    assert_all(rt, alloc, shard, &[Act::Plan(NOW, "a.b")]);
    for _ in 0..steps {
        let _ = shard.write_next();
    }
}

// The disk of a shard that was stopped behind so many steps of a drain.
fn stopped_disk(rt: &impl Abort, alloc: Global, steps: u32) -> Result<MemDisk, Fail> {
    let shard = shard_logged(alloc, MemDisk::new(alloc, 10_000), ONE)?;
    Ok(disk_behind(rt, alloc, shard, steps))
}

fn disk_behind(rt: &impl Abort, alloc: Global, shard: Shard<MemDisk>, steps: u32) -> MemDisk {
    let mut shard = shard;
    take_steps(rt, alloc, &mut shard, steps);
    shard.finish()
}

// What is kept where the gate was open, which it is behind the fourth step.
static LAID: [Act<'static>; 2] = [Act::Names(&["a.b"]), FINE];

static NOTHING_LAID: [Act<'static>; 1] = [Act::Names(&[])];

fn assert_stopped(rt: &impl Abort, alloc: Global, steps: u32) -> Result<(), Fail> {
    let disk = stopped_disk(rt, alloc, steps)?;
    let shard = shard_over(alloc, disk, ONE, 100, Strategy::Naive)?;
    let acts = if steps < 4 {
        NOTHING_LAID.as_slice()
    } else {
        LAID.as_slice()
    };
    assert_done(rt, alloc, shard, acts);
    Ok(())
}

// A drain that was stopped is laid whole at the next start, once its gate was open, and is as if it
// had not begun before.
#[test]
fn a_drain_that_was_stopped_is_whole_at_the_next_start(rt: HostRuntime) -> Result<(), Fail> {
    for steps in 0..=11u32 {
        assert_stopped(&rt, rt.alloc(), steps)?;
    }
    Ok(())
}

// How many files were created, pieces written, and syncs made behind so many steps. The log and the
// gate are made first, each with a sync; five steps lead to the open gate, three write the file, and
// three close the gate.
static CALLS: [[u64; 3]; 12] = [
    [2, 0, 2],
    [3, 0, 2],
    [3, 1, 2],
    [3, 1, 3],
    [3, 2, 3],
    [3, 2, 4],
    [4, 2, 4],
    [4, 3, 4],
    [4, 4, 4],
    [4, 4, 5],
    [4, 5, 5],
    [4, 5, 6],
];

fn assert_calls(rt: &impl Abort, disk: &MemDisk, steps: u32, want: &[u64; 3]) {
    let calls = disk.calls();
    assert!(rt;
        calls.creates == want[0] && calls.writes == want[1] && calls.syncs == want[2],
        "behind {steps} steps"
    );
}

#[test]
fn each_step_of_the_log_is_one_call(rt: HostRuntime) -> Result<(), Fail> {
    let mut steps = 0u32;
    for want in CALLS.iter() {
        let disk = stopped_disk(&rt, rt.alloc(), steps)?;
        assert_calls(&rt, &disk, steps, want);
        steps = steps.saturating_add(1);
    }
    Ok(())
}

static MINUTE_ASKED: [Act<'static>; 1] = [FINE];

// A drain of one more point: how many steps are taken, and how many fail.
fn drain_again(rt: &impl Abort, alloc: Global, shard: Shard<MemDisk>) -> Result<(u32, u32), Fail> {
    let mut shard = shard;
    assert_all(rt, alloc, &mut shard, &LAID);
    assert_all(rt, alloc, &mut shard, &[B_5, Act::Plan(NOW, "a.b")]);
    let ends = write_all(rt, alloc, &mut shard, &MINUTE_ASKED);
    let _ = shard.finish();
    ends
}

fn second_drain(rt: &impl Abort, alloc: Global) -> Result<(u32, u32), Fail> {
    let disk = stopped_disk(rt, alloc, 11)?;
    let shard = shard_logged(alloc, disk, ONE)?;
    drain_again(rt, alloc, shard)
}

// The log of the last drain is made anew by the next.
#[test]
fn a_second_drain_goes_through_the_same_log(rt: HostRuntime) -> Result<(), Fail> {
    let ends = second_drain(&rt, rt.alloc())?;
    assert!(rt; ends == (9, 0));
    Ok(())
}

// ---- whole tables

// A shard with rules, so many points at most and an order, and what is done to it.
#[derive(Clone, Copy)]
struct Case<'a> {
    schemas: &'a [u8],
    limit: u64,
    strategy: Strategy,
    acts: &'a [Act<'a>],
}

fn assert_case(rt: &impl Abort, alloc: Global, disk: MemDisk, case: &Case<'_>) -> Result<(), Fail> {
    let shard = shard_over(alloc, disk, case.schemas, case.limit, case.strategy)?;
    assert_done(rt, alloc, shard, case.acts);
    Ok(())
}

// The same over a disk without files, of which one reading call fails, if it comes so far.
fn assert_without_files(
    rt: &impl Abort,
    alloc: Global,
    failing: u64,
    case: &Case<'_>,
) -> Result<(), Fail> {
    let disk = MemDisk::new(alloc, 1_000_000).failing_reads(vec![in alloc; failing]?);
    assert_case(rt, alloc, disk, case)
}

static UNREAD: [Act<'static>; 26] = [
    Act::Put(b"a.b 9 1700000100", Put::Stored),
    Act::Plan(START, "a.b"),
    Act::Plan(START, "busy"),
    Act::Write(Wrote::Run),
    Act::Write(Wrote::Run),
    Act::Write(Wrote::Finished),
    Act::Put(b"a.b 7 1700000160", Put::Stored),
    Act::Put(b"a.b 2 1700000160", Put::Replaced),
    B_1,
    B_3,
    B_4,
    B_5,
    Act::Plan(NOW, "disk fault"),
    Act::Write(Wrote::Nothing),
    FINE,
    COARSE,
    Act::Plan(NOW, "a.b"),
    FINE,
    COARSE,
    Act::Write(Wrote::Run),
    FINE,
    COARSE,
    Act::Write(Wrote::Finished),
    FINE,
    COARSE,
    Act::Plan(NOW, "idle"),
];

// The start asks for the gate and lists the names. A file that is there is read for the plan, and each
// look before that reads nothing.
#[test]
fn a_plan_that_cannot_read_leaves_all(rt: HostRuntime) -> Result<(), Fail> {
    let case = Case {
        schemas: TWO,
        limit: 100,
        strategy: Strategy::Naive,
        acts: &UNREAD,
    };
    assert_without_files(&rt, rt.alloc(), 3, &case)
}

static BETWEEN: [Act<'static>; 18] = [
    B_1,
    B_2,
    Act::Plan(NOW, "a.b"),
    Act::Write(Wrote::Run),
    B_3,
    Act::Write(Wrote::Run),
    B_4,
    B_5,
    FINE,
    Act::Write(Wrote::Finished),
    FINE,
    Act::Plan(NOW, "a.b"),
    Act::Write(Wrote::Finished),
    Act::Put(b"a.b 1 1699996000", Put::Stored),
    Act::Plan(NOW, "a.b"),
    Act::Write(Wrote::Nothing),
    FINE,
    Act::Plan(NOW, "idle"),
];

// Points that are put while a drain is written show over it, and a drain of points that are older
// than all that the archives reach back to writes nothing.
#[test]
fn points_come_between_two_runs(rt: HostRuntime) -> Result<(), Fail> {
    let case = Case {
        schemas: ONE,
        limit: 100,
        strategy: Strategy::Naive,
        acts: &BETWEEN,
    };
    assert_without_files(&rt, rt.alloc(), 0, &case)
}

// Ten minutes for `a.r`, and else as `TWO`.
const SHORT: &[u8] =
    b"[r]\npattern = r$\nretentions = 60:10\n[all]\npattern = .*\nretentions = 60:10,300:12\n";

static PENDING: [Act<'static>; 16] = [
    Act::Put(b"a.r 1 1700000100", Put::Stored),
    Act::Names(&["a.r"]),
    Act::Put(b"a.b 1 1700000100", Put::Stored),
    Act::Put(b"a.2 1 1700000100", Put::Full),
    Act::Names(&["a.b", "a.r"]),
    Act::Put(b"a.b 2 1700000100", Put::Replaced),
    Act::Found(b"a.*", START, NOW, &["a.b", "a.r"]),
    Act::Plan(START, "a.r"),
    Act::Names(&["a.b", "a.r"]),
    Act::Found(b"*.*", START, NOW, &["a.b", "a.r"]),
    Act::Found(b"a.[q-r]", START, NOW, &["a.r"]),
    Act::Found(b"a.2", START, NOW, &[]),
    Act::Found(b"a.*", NOW - 3_000, NOW - 601, &["a.b"]),
    Act::Found(b"a.*", NOW - 5_000, NOW - 3_601, &[]),
    Act::Found(b"a.*", NOW + 1, NOW + 2, &[]),
    Act::Shown(
        b"a.{b,r}",
        START - 60,
        &[Some(2_000), None, None, None, None],
    ),
];

// A full class refuses a new metric, and does not know it then. A metric is found as long as it is
// pending or kept, where its archives reach back to the question.
#[test]
fn pending_metrics_are_found(rt: HostRuntime) -> Result<(), Fail> {
    let case = Case {
        schemas: SHORT,
        limit: 2,
        strategy: Strategy::Naive,
        acts: &PENDING,
    };
    assert_without_files(&rt, rt.alloc(), 0, &case)
}

// A disk with an empty ring file of `a.b`, of ten minutes by minutes, and a zero file of `a.r`.
fn disk_with_two(alloc: Global) -> Result<MemDisk, AllocError> {
    let sound = file_of(alloc, SOUND, 148)?;
    let zeros = file_of(alloc, &[], 28)?;
    let mut disk = MemDisk::new(alloc, 1_000);
    disk.put_file("a/b.ring", sound)?;
    disk.put_file("a/r.ring", zeros)?;
    Ok(disk)
}

static KEPT: [Act<'static>; 12] = [
    Act::Names(&["a.b"]),
    Act::Found(b"a.*", START, NOW, &["a.b"]),
    // the layout is that of the file
    Act::Found(b"a.*", NOW - 3_000, NOW - 601, &[]),
    Act::Shown(b"a.*", START - 60, &[None, None, None, None, None]),
    Act::Put(b"a.r 1.5 1700000100", Put::Stored),
    Act::Names(&["a.b", "a.r"]),
    Act::Plan(NOW, "a.r"),
    Act::Write(Wrote::Run),
    Act::Write(Wrote::Run),
    Act::Write(Wrote::Finished),
    Act::Found(b"*.*", START, NOW, &["a.b", "a.r"]),
    Act::Shown(b"a.r", START - 60, &[Some(1_500), None, None, None, None]),
];

// A metric that is kept alone is found; a zero file counts as none, and is created by its drain.
#[test]
fn kept_metrics_are_found(rt: HostRuntime) -> Result<(), Fail> {
    let case = Case {
        schemas: TWO,
        limit: 100,
        strategy: Strategy::Naive,
        acts: &KEPT,
    };
    assert_case(&rt, rt.alloc(), disk_with_two(rt.alloc())?, &case)
}

static MOVED: [Act<'static>; 9] = [
    B_1,
    Act::Moved(b"a.b", Some(1)),
    Act::Write(Wrote::Run),
    Act::Write(Wrote::Run),
    Act::Write(Wrote::Finished),
    B_2,
    Act::Moved(b"a.b", Some(2)),
    Act::Write(Wrote::Finished),
    // nothing is pending, and so nothing is drained
    Act::Moved(b"a.b", None),
];

#[test]
fn a_metric_that_was_drained_since_the_look_has_moved(rt: HostRuntime) -> Result<(), Fail> {
    let case = Case {
        schemas: TWO,
        limit: 100,
        strategy: Strategy::Naive,
        acts: &MOVED,
    };
    assert_without_files(&rt, rt.alloc(), 0, &case)
}

// ---- orders

// Three points of `a.r`.
const R_1: Act<'static> = Act::Put(b"a.r 1 1700000100", Put::Stored);

const R_2: Act<'static> = Act::Put(b"a.r 2 1700000160", Put::Stored);

const R_3: Act<'static> = Act::Put(b"a.r 3 1700000220", Put::Stored);

static MOST: [Act<'static>; 7] = [R_1, R_2, R_3, B_1, B_2, B_3, Act::Plan(NOW, "a.b")];

// Of two metrics with as many points the first in byte order is drained.
#[test]
fn the_most_points_are_drained_first(rt: HostRuntime) -> Result<(), Fail> {
    let case = Case {
        schemas: b"",
        limit: 100,
        strategy: Strategy::Max,
        acts: &MOST,
    };
    assert_without_files(&rt, rt.alloc(), 0, &case)
}

static QUEUE: [Act<'static>; 24] = [
    Act::Put(b"a.b 9 1700000040", Put::Stored),
    Act::Plan(START, "a.b"),
    Act::Write(Wrote::Run),
    Act::Write(Wrote::Run),
    Act::Write(Wrote::Finished),
    R_1,
    R_2,
    R_3,
    B_1,
    B_2,
    Act::Put(b"a.2 1 1700000100", Put::Stored),
    Act::Plan(NOW, "a.r"),
    Act::Put(b"a.2 1 1700000160", Put::Stored),
    Act::Put(b"a.2 1 1700000220", Put::Stored),
    Act::Put(b"a.2 1 1700000280", Put::Stored),
    Act::Put(b"a.2 1 1700000340", Put::Stored),
    Act::Put(b"a.2 1 1700000400", Put::Stored),
    Act::Write(Wrote::Run),
    Act::Write(Wrote::Run),
    Act::Write(Wrote::Finished),
    Act::Plan(START + 300, "disk fault"),
    Act::Plan(START + 300, "a.b"),
    Act::Write(Wrote::Finished),
    Act::Plan(START + 300, "a.2"),
];

// The queue is made at the first plan, whatever is put later, and a plan that cannot read leaves
// it.
#[test]
fn a_queue_is_drained_to_its_end(rt: HostRuntime) -> Result<(), Fail> {
    let case = Case {
        schemas: b"",
        limit: 100,
        strategy: Strategy::Sorted,
        acts: &QUEUE,
    };
    assert_without_files(&rt, rt.alloc(), 3, &case)
}
