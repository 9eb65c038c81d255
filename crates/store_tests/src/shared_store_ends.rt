// How the deeds of callers are to end, and whether they do.
use crate::shared_store_kit::{Deed, Job, Reply, START};
use fixed_num::milli_of;
use gate_io::Flag;
use metric_path::MetricPath;
use outside_io::Disk;
use point_cache::Put;
use series_set::{Reading, Series, SeriesRows, SeriesSet};
use shard_core::{Planned, Wrote};
use shared_store::{AskFault, Closed, DrainEnd, PutCounts, Step, Tally};
use std::alloc::{AllocError, Global};
use std::process::Abort;
use std::test::Fail;

// The series of a metric: its path and its values by minutes, of which the first is that of `START`.
#[derive(Clone, Copy)]
pub(crate) struct Shown {
    pub(crate) path: &'static str,
    pub(crate) values: &'static [Option<i64>],
}

// Whether these are the values of so many thousandths.
fn are_values(values: &[Reading], thousandths: &[Option<i64>]) -> bool {
    values.len() == thousandths.len()
        && values.iter().zip(thousandths.iter()).all(|(value, number)| value.get()
            == number.map(|thousandths| milli_of(thousandths)))
}

// How a deed is to end.
#[derive(Clone, Copy)]
pub(crate) enum End {
    Put(Put),
    PutAll(PutCounts),
    // So many points are stored.
    PutMany(u32),
    // The path of the metric of which a drain was begun, or how else the plan ends.
    Planned(&'static str),
    Wrote(Wrote),
    Stepped(Step),
    // Whether the next drain makes a ring file.
    MakesFile(bool),
    Drained(DrainEnd),
    // The series of each glob, and how many entries the question makes.
    Shown(&'static [&'static [Shown]], u64),
    // Each glob has so many series.
    Found(usize),
    Refused(AskFault),
    Names(&'static [&'static str]),
    // So many entries of each kind.
    Counted(Tally),
    // The flag is up, or it is down.
    Up,
    Down,
}

// What is done, and how it is to end.
pub(crate) type Row = (Deed, End);

// ---- series

fn is_shown(series: &Series, shown: &Shown) -> bool {
    series.path() == shown.path
        && series.start() == u64::from(START)
        && series.step() == 60
        && are_values(series.values(), shown.values)
}

fn set_is_shown(set: &SeriesSet, shown: &[Shown]) -> bool {
    set.len() == shown.len()
        && set
            .as_slice()
            .iter()
            .zip(shown.iter())
            .all(|(series, one)| is_shown(series, one))
}

fn rows_are_shown(rows: &SeriesRows, shown: &[&'static [Shown]]) -> bool {
    rows.len() == shown.len()
        && rows
            .as_slice()
            .iter()
            .zip(shown.iter())
            .all(|(set, one)| set_is_shown(set, one))
}

// ---- replies

fn has_end(planned: &Planned, end: &str) -> bool {
    match planned {
        Planned::Took(path) => path.as_str() == end,
        Planned::Busy => end == "busy",
        Planned::Idle => end == "idle",
        Planned::DiskFault => end == "disk fault",
        Planned::NoMemory => end == "no memory",
    }
}

fn is_put(reply: &Reply, want: Put) -> bool {
    match reply {
        Reply::Put(put) => *put == want,
        _ => false,
    }
}

fn is_put_whole(reply: &Reply, want: &PutCounts) -> bool {
    match reply {
        Reply::PutAll(counts) => counts == want,
        _ => false,
    }
}

fn is_put_many(reply: &Reply, want: u32) -> bool {
    match reply {
        Reply::PutMany(stored) => *stored == want,
        _ => false,
    }
}

fn is_planned(reply: &Reply, want: &str) -> bool {
    match reply {
        Reply::Planned(planned) => has_end(planned, want),
        _ => false,
    }
}

fn is_written(reply: &Reply, want: Wrote) -> bool {
    match reply {
        Reply::Wrote(wrote) => *wrote == want,
        _ => false,
    }
}

fn is_step(reply: &Reply, want: Step) -> bool {
    match reply {
        Reply::Stepped(step) => *step == want,
        _ => false,
    }
}

fn is_making(reply: &Reply, want: bool) -> bool {
    match reply {
        Reply::MakesFile(makes) => *makes == want,
        _ => false,
    }
}

fn is_drained(reply: &Reply, want: DrainEnd) -> bool {
    match reply {
        Reply::Drained(end) => *end == want,
        _ => false,
    }
}

fn is_answered(reply: &Reply, want: &[&'static [Shown]], entries: u64) -> bool {
    match reply {
        Reply::Rows(rows, made) => *made == entries && rows_are_shown(rows, want),
        _ => false,
    }
}

fn has_found(reply: &Reply, count: usize) -> bool {
    match reply {
        Reply::Rows(rows, _) => rows.as_slice().iter().all(|set| set.len() == count),
        _ => false,
    }
}

fn is_refused(reply: &Reply, want: AskFault) -> bool {
    match reply {
        Reply::Refused(fault) => *fault == want,
        _ => false,
    }
}

fn are_named(names: &[MetricPath], paths: &[&'static str]) -> bool {
    names.len() == paths.len()
        && names
            .iter()
            .zip(paths.iter())
            .all(|(name, path)| name.as_str() == *path)
}

fn has_names(reply: &Reply, paths: &[&'static str]) -> bool {
    match reply {
        Reply::Names(names) => are_named(names.as_slice(), paths),
        _ => false,
    }
}

fn is_counted(reply: &Reply, want: Tally) -> bool {
    match reply {
        Reply::Counted(tally) => *tally == want,
        _ => false,
    }
}

fn is_flag(reply: &Reply, want: bool) -> bool {
    match reply {
        Reply::Up(up) => *up == want,
        _ => false,
    }
}

fn ends_so(reply: &Reply, end: End) -> bool {
    match end {
        End::Put(put) => is_put(reply, put),
        End::PutAll(counts) => is_put_whole(reply, &counts),
        End::PutMany(stored) => is_put_many(reply, stored),
        End::Planned(path) => is_planned(reply, path),
        End::Wrote(wrote) => is_written(reply, wrote),
        End::Stepped(step) => is_step(reply, step),
        End::MakesFile(makes) => is_making(reply, makes),
        End::Drained(end) => is_drained(reply, end),
        End::Shown(shown, entries) => is_answered(reply, shown, entries),
        End::Found(count) => has_found(reply, count),
        End::Refused(fault) => is_refused(reply, fault),
        End::Names(paths) => has_names(reply, paths),
        End::Counted(tally) => is_counted(reply, tally),
        End::Up => is_flag(reply, true),
        End::Down => is_flag(reply, false),
    }
}

// The job of a caller that has some rows before its others.
pub(crate) fn job_of(
    alloc: Global,
    before: &[Row],
    rows: &[Row],
    flags: &[Flag],
) -> Result<Job, AllocError> {
    let mut deeds = Vec::new(alloc);
    for (deed, _) in before.iter().chain(rows.iter()) {
        deeds.push(*deed)?;
    }
    Job::new(alloc, deeds, flags)
}

// The jobs of two callers, of which the first has some rows before its others.
pub(crate) fn jobs_of(
    alloc: Global,
    before: &[Row],
    first: &[Row],
    second: &[Row],
    flags: &[Flag],
) -> Result<Vec<Job>, AllocError> {
    let mut jobs = Vec::new(alloc);
    jobs.push(job_of(alloc, before, first, flags)?)?;
    jobs.push(job_of(alloc, &[], second, flags)?)?;
    Ok(jobs)
}

// Each deed has its reply, in two lists of rows one behind the other.
pub(crate) fn assert_replies(rt: &impl Abort, job: &Job, before: &[Row], rows: &[Row]) {
    let replies = job.replies.as_slice();
    let (first, then) = replies
        .split_at_checked(before.len())
        .unwrap_or((&[], replies));
    assert_ends(rt, first, before);
    assert_ends(rt, then, rows);
}

fn assert_ends(rt: &impl Abort, replies: &[Reply], rows: &[Row]) {
    for (n, ((_, end), reply)) in rows.iter().zip(replies.iter()).enumerate() {
        assert!(rt; ends_so(reply, *end), "{n}");
    }
    assert!(rt; replies.len() == rows.len());
}

pub(crate) fn assert_both(
    rt: &impl Abort,
    jobs: &[Job],
    before: &[Row],
    first: &[Row],
    second: &[Row],
) -> Result<(), Fail> {
    let [one, other] = jobs else {
        return Err(Fail::new("there are two callers"));
    };
    assert_replies(rt, one, before, first);
    assert_replies(rt, other, &[], second);
    Ok(())
}

// How many entries the history has, and how many of each kind.
pub(crate) fn assert_counts<D: Disk>(
    rt: &impl Abort,
    closed: &Closed<D>,
    entries: u64,
    tally: Tally,
) {
    assert!(rt; closed.history.len() == entries);
    assert!(rt; closed.tally == tally);
    assert!(rt; closed.disks.len() == 16);
}
