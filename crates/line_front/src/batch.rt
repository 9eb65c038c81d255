//! The points of lines that wait, read as one batch.
ghost use Rattle.std.specs.Prelude.{◌≡◌, ◌≤◌, [], length};
ghost use Rattle.line_front.specs.Batches.{AddsPoint, ReadsNext, ReadsPoint, ReadsPoints, reading};
ghost use Rattle.line_front.specs.Links.{ReadsOnce};

use clock_watch::Watch;
use line_frame::{Framed, Framer};
use metric_line::{Datum, LineFault, read_line_over};
use metric_path::MetricPath;
use outside_io::Clock;
use std::alloc::Global;

/// The most points that a batch has.
pub(crate) const MOST_BATCH_POINTS: usize = 256;

/// Why the lines that wait bring no further point.
#[derive(Clone, Copy, Debug, PartialEq, Eq)]
pub(crate) enum NoPoint {
    /// No line waits.
    NoLine,
    /// The line is refused, or there is no memory for its point.
    Refused(LineFault),
    /// The line is too long.
    Long,
}

/// Takes the points out of a batch, and keeps their paths for the memory that they have.
pub(crate) fn empty(points: &mut Vec<Datum>, spares: &mut Vec<MetricPath>)
    ensures { points.new.items ≡ [] }
{
    while let Some(datum) = points.pop() {
        // Where there is no room for a path its memory is given back.
        let _ = spares.push(datum.path);
    }
}

/// Reads the first lines that wait as points, up to one that has none, or as many as a batch has.
/// It takes that one too. The clock is read once for each line that is not too long. The points'
/// paths take the memory of those that are spare.
pub(crate) fn read_points<C: Clock>(
    alloc: Global,
    clock: &C,
    watch: &mut Watch<C>,
    spares: &mut Vec<MetricPath>,
    framer: &mut Framer,
    points: &mut Vec<Datum>,
) -> Result<(), NoPoint>
    requires none { points.old.items ≡ [] }
    ensures reads { ReadsPoints (C.moments clock.now) result (reading watch.old framer.old)
        (reading watch.new framer.new) points.new.items }
    ensures few { length points.new.items ≤ 256 }
{
    while points.len() < MOST_BATCH_POINTS {
        match read_next(alloc, clock, watch, spares, framer, points) {
            Ok(()) => {}
            Err(none) => return Err(none),
        }
    }
    Ok(())
}

// Reads the next line that waits as a point, at the moment that the clock tells then.
fn read_next<C: Clock>(
    alloc: Global,
    clock: &C,
    watch: &mut Watch<C>,
    spares: &mut Vec<MetricPath>,
    framer: &mut Framer,
    points: &mut Vec<Datum>,
) -> Result<(), NoPoint>
    ensures reads { ReadsNext (C.moments clock.now) result (reading watch.old framer.old)
        (reading watch.new framer.new) points.old.items points.new.items }
    ensures open_line { framer.new.open_line ≡ framer.old.open_line }
{
    match framer.next_line() {
        Some(Framed::Line) => read_point(alloc, clock, watch, spares, framer.line(), points),
        Some(Framed::TooLong) => Err(NoPoint::Long),
        None => Err(NoPoint::NoLine),
    }
}

// Reads a line as a point.
#[tactic(auto, using(crate::proofs::BatchLemmas::read_added))]
fn read_point<C: Clock>(
    alloc: Global,
    clock: &C,
    watch: &mut Watch<C>,
    spares: &mut Vec<MetricPath>,
    line: &[u8],
    points: &mut Vec<Datum>,
) -> Result<(), NoPoint>
    ensures { ReadsPoint (ReadsOnce (C.moments clock.now) watch.old watch.new) line.now result
        points.old.items points.new.items }
{
    let now = watch.read(clock);
    match read_line_over(alloc, &mut spares.pop(), line, now) {
        Ok(datum) => add_point(points, datum),
        Err(fault) => Err(NoPoint::Refused(fault)),
    }
}

// Puts a point behind the others, unless there is no memory for it.
fn add_point(points: &mut Vec<Datum>, datum: Datum) -> Result<(), NoPoint>
    ensures { AddsPoint datum result points.old.items points.new.items }
{
    match points.push(datum) {
        Ok(()) => Ok(()),
        Err(_) => Err(NoPoint::Refused(LineFault::NoMemory)),
    }
}
