//! Runs of a case.

use crate::case::Case;
use crate::text::write_lines;
use carbon_run::{Report, run};
use gate_io::MemNet;
use outside_io::{FixedClock, MemDisk, MemSink, MemSource};
use std::alloc::{AllocError, Global};
use std::sync::Wait;
use std::thread::Threads;

// The moment of the clock, at which `serve` alone looks.
const MOMENT: u64 = 1_700_000_000;

/// A run that has ended.
#[derive(Drop)]
pub struct Ran {
    /// What the run answered.
    pub report: Report<MemDisk>,
    /// The folder of the rule files.
    pub conf: MemDisk,
    /// The input.
    pub source: MemSource,
    /// The output.
    pub out: MemSink,
}

/// Runs a case once, with one more cut of its input.
fn run_once(
    rt: &(impl Threads + Wait + Copy + Send + Sync + Drop),
    alloc: Global,
    case: &Case,
    cut: Option<usize>,
) -> Result<Ran, AllocError> {
    let disks = case.disks(alloc)?;
    let mut source = case.source(alloc, cut)?;
    let mut out = case.sink(alloc)?;
    let mut conf = case.conf.disk(alloc)?;
    let clock = FixedClock::new(MOMENT);
    let mut net = MemNet::new(*rt, case.links(alloc)?, Vec::new(alloc));
    let report = run(
        rt,
        alloc,
        &case.words,
        &mut source,
        &mut out,
        &mut conf,
        disks,
        &clock,
        &mut net,
    );
    Ok(Ran {
        report,
        conf,
        source,
        out,
    })
}

/// Runs a case and tells its status and what it wrote.
pub fn run_case(
    rt: &(impl Threads + Wait + Copy + Send + Sync + Drop),
    alloc: Global,
    case: &Case,
    page: &mut String,
) -> Result<Ran, AllocError> {
    let ran = run_once(rt, alloc, case, None)?;
    write_end(page, &ran)?;
    if case.is_cut_each {
        run_cut(rt, alloc, case, &ran, page)?;
    }
    Ok(ran)
}

// Runs a case once for each place inside its input, and tells those at which it ends otherwise.
fn run_cut(
    rt: &(impl Threads + Wait + Copy + Send + Sync + Drop),
    alloc: Global,
    case: &Case,
    uncut: &Ran,
    page: &mut String,
) -> Result<(), AllocError> {
    let mut alike: u64 = 0;
    for place in 1..case.input.len() {
        if is_alike(rt, alloc, case, uncut, place, page)? {
            alike = alike.saturating_add(1);
        }
    }
    writeln!(page, "the same at each of {alike} cuts")
}

// Whether a case that is cut at a place ends as the uncut one; where it does not, how it ends is told.
fn is_alike(
    rt: &(impl Threads + Wait + Copy + Send + Sync + Drop),
    alloc: Global,
    case: &Case,
    uncut: &Ran,
    place: usize,
    page: &mut String,
) -> Result<bool, AllocError> {
    let ran = run_once(rt, alloc, case, Some(place))?;
    tell_cut(page, uncut, &ran, place)
}

fn tell_cut(page: &mut String, uncut: &Ran, ran: &Ran, place: usize) -> Result<bool, AllocError> {
    if has_same_end(uncut, ran) {
        return Ok(true);
    }
    writeln!(page, "cut at {place}:")?;
    write_end(page, ran)?;
    Ok(false)
}

fn has_same_end(one: &Ran, other: &Ran) -> bool {
    one.report.status == other.report.status && one.out.bytes() == other.out.bytes()
}

fn write_end(page: &mut String, ran: &Ran) -> Result<(), AllocError> {
    writeln!(page, "status {}", ran.report.status)?;
    write_lines(page, ran.out.bytes())
}
