//! The functions of each series by itself.
ghost use Rattle.std.specs.Prelude.{◌≡◌, ◌≢◌, ◌≤◌, ◌<◌, ◌+◌, All, IfErr, IfOk, Ok, Err, false, filter, length, map, true};
ghost use Rattle.series_set.specs.declared.grid.EvalFault.TheVariants.{NoMemory};
ghost use Rattle.series_set.specs.Series.{end_of, latest_end, most_values};
ghost use Rattle.series_funcs.specs.Each.{each_of};
ghost use Rattle.series_funcs.specs.Moved.{HasStep, IsSoLate, IsSummaryStep, later_by, lateness, moved_start, shape, shifted, stays, summarized};
ghost use Rattle.series_funcs.specs.Shaped.{shaped_series, shaped_values};

use crate::changing::{Change, change_each, take_least};
use crate::kinds::{Gather, Shape};
use crate::looking_back::{add_up, delayed, differ, keep_last, rise, tell_changes};
use crate::naming::{CallName, call_text};
use crate::summary::summarized;
use crate::work;
use fixed_num::wide;
use series_set::{Allowance, EvalFault, Reading, Series, SeriesSet, Size};
use std::alloc::{AllocError, Global};

/// What the function makes of each series, under the name of the call. It owns the series, so that most functions change their values where
/// they stand. A summary ends less than its step later than its series, a shifted one by the shift; the others as before.
///
/// Errors: `TooLong` exactly where a summary has more than 4,000,000 values, with their number at the first such series, and want of memory, as
/// where there is no room for the values of summaries or for names, or too much to be done.
#[tactic(auto, unfolding(crate::specs::Moved::shape))]
pub fn shape(
    alloc: Global,
    kind: &Shape,
    set: SeriesSet,
    call: &CallName,
    room: &mut Allowance,
) -> Result<SeriesSet, EvalFault>
    requires step { HasStep kind.now }
    requires early { All (λ s. end_of s + lateness kind.now ≤ latest_end) set }
    ensures ok { IfOk result (λ shaped.
        shape kind.now call.now.function.now call.now.tail.now set ≡ Ok shaped) }
    ensures err { IfErr result (λ fault. fault ≢ NoMemory
        → shape kind.now call.now.function.now call.now.tail.now set ≡ Err fault) }
    ensures bounds { IfOk result (All (IsSoLate set (lateness kind.now))) }
{
    match *kind {
        Shape::Summarize { step, gather } => {
            summarize_each(alloc, step, gather, call, set.as_slice(), room)
        }
        Shape::TimeShift { past, seconds } => Ok(shift_each(
            alloc, past, seconds, call, set, room,
        )?),
        _ => Ok(shape_each(alloc, kind, call, set, room)?),
    }
}

// The summary of each series.
fn summarize_each(
    alloc: Global,
    step: u32,
    gather: Gather,
    call: &CallName,
    set: &[Series],
    room: &mut Allowance,
) -> Result<SeriesSet, EvalFault>
    requires step { IsSummaryStep step }
    requires early { All (λ s. end_of s + step ≤ latest_end) set.now }
    ensures ok { IfOk result (λ summaries. each_of
        (summarized step gather call.now.function.now call.now.tail.now) set.now ≡ Ok summaries) }
    ensures err { IfErr result (λ fault. fault ≢ NoMemory → each_of
        (summarized step gather call.now.function.now call.now.tail.now) set.now ≡ Err fault) }
{
    let mut summaries = Vec::with_capacity(alloc, set.len())?;
    for series in set {
        summaries.push(summarized(alloc, step, gather, call, series, room)?)?;
    }
    Ok(SeriesSet::from_vec(summaries))
}

// The series moved by so many seconds, without those that would begin too early.
fn shift_each(
    alloc: Global,
    past: bool,
    seconds: u64,
    call: &CallName,
    set: SeriesSet,
    room: &mut Allowance,
) -> Result<SeriesSet, AllocError>
    requires { All (λ s. end_of s + later_by past seconds ≤ latest_end) set }
    ensures { IfOk result (λ moved. moved ≡ map
        (shifted past seconds call.now.function.now call.now.tail.now) (filter (stays past seconds) set)) }
{
    let mut moved = Vec::with_capacity(alloc, set.len())?;
    for series in set.into_vec() {
        if stays(past, seconds, &series) {
            moved.push(shifted(alloc, past, seconds, call, series, room)?)?;
        }
    }
    Ok(SeriesSet::from_vec(moved))
}

fn stays(past: bool, seconds: u64, series: &Series) -> bool
    ensures { result ≡ stays past seconds series.now }
{
    past || seconds <= series.start()
}

#[tactic(auto, unfolding(crate::specs::Moved::shifted))]
fn shifted(
    alloc: Global,
    past: bool,
    seconds: u64,
    call: &CallName,
    mut series: Series,
    room: &mut Allowance,
) -> Result<Series, AllocError>
    requires behind { stays past seconds series ≡ true }
    requires early { end_of series + later_by past seconds ≤ latest_end }
    ensures { IfOk result (λ moved.
        moved ≡ shifted past seconds call.now.function.now call.now.tail.now series) }
{
    let name = call_text(alloc, call.function, series.name(), call.tail)?;
    room.take_name(name.len(), series.name().len())?;
    let path = String::from_str(alloc, series.path())?;
    let start = moved_start(past, seconds, series.start());
    let step = series.step();
    Ok(Series::from_legal(name, path, start, step, series.take_values()))
}

fn moved_start(past: bool, seconds: u64, start: u64) -> u64
    requires behind { past ≡ false → seconds ≤ start }
    requires early { start + later_by past seconds ≤ latest_end }
    ensures { result ≡ moved_start past seconds start }
{
    if past {
        return start + seconds;
    }
    start - seconds
}

// The series with their values shaped.
fn shape_each(
    alloc: Global,
    kind: &Shape,
    call: &CallName,
    set: SeriesSet,
    room: &mut Allowance,
) -> Result<SeriesSet, AllocError>
    ensures { IfOk result (λ shaped. shaped
        ≡ map (shaped_series kind.now call.now.function.now call.now.tail.now) set) }
{
    let mut shaped = Vec::with_capacity(alloc, set.len())?;
    for series in set.into_vec() {
        shaped.push(shaped_series(alloc, kind, call, series, room)?)?;
    }
    Ok(SeriesSet::from_vec(shaped))
}

// The series under the name of the call, with its values shaped.
#[tactic(auto, unfolding(crate::specs::Shaped::shaped_series))]
fn shaped_series(
    alloc: Global,
    kind: &Shape,
    call: &CallName,
    mut series: Series,
    room: &mut Allowance,
) -> Result<Series, AllocError>
    ensures { IfOk result (λ shaped.
        shaped ≡ shaped_series kind.now call.now.function.now call.now.tail.now series) }
{
    let name = call_text(alloc, call.function, series.name(), call.tail)?;
    room.take_name(name.len(), series.name().len())?;
    room.spend(work::of_shape(kind, series.values()))?;
    let step = series.step();
    let values = shaped_values(alloc, kind, step, series.take_values(), room)?;
    Ok(series.with_values(values).renamed(name))
}

// The values, a step apart, as the function makes them.
#[tactic(auto, unfolding(crate::specs::Shaped::shaped_values))]
fn shaped_values(
    alloc: Global,
    kind: &Shape,
    step: u64,
    mut values: Vec<Reading>,
    room: &Allowance,
) -> Result<Vec<Reading>, AllocError>
    requires some { 1 ≤ step }
    requires few { length values.items ≤ most_values }
    ensures { IfOk result (λ shaped. shaped.items ≡ shaped_values kind.now step values.items) }
{
    match *kind {
        Shape::Absolute => change_each(&mut values, &Change::Magnitude),
        Shape::Scale { billionths } => {
            let change = Change::Ratio {
                factor: billionths,
                divisor: 1_000_000_000,
            };
            change_each(&mut values, &change);
        }
        Shape::Offset { by } => change_each(&mut values, &Change::Plus { other: wide(by) }),
        Shape::OffsetToZero => take_least(&mut values),
        Shape::Derivative => differ(&mut values),
        Shape::NonNegativeDerivative => rise(&mut values),
        Shape::PerSecond => {
            rise(&mut values);
            change_each(
                &mut values,
                &Change::Ratio {
                    factor: 1,
                    divisor: step,
                },
            );
        }
        Shape::Integral => add_up(&mut values),
        Shape::Delay { places } => {
            room.bear(Size::of_values(values.len() as u64))?;
            return delayed(alloc, &values, places as usize);
        }
        Shape::KeepLastValue { most } => keep_last(&mut values, most),
        Shape::TransformNull { value } => change_each(
            &mut values,
            &Change::KnownOr { other: value },
        ),
        Shape::IsNonNull => change_each(&mut values, &Change::TellKnown),
        Shape::Changed => tell_changes(&mut values),
        Shape::RemoveAboveValue { most } => change_each(&mut values, &Change::NotAbove { most }),
        Shape::RemoveBelowValue { least } => change_each(&mut values, &Change::NotBelow { least }),
        Shape::ScaleToSeconds { seconds } => {
            let change = Change::Ratio {
                factor: i64::from(seconds),
                divisor: step,
            };
            change_each(&mut values, &change);
        }
        Shape::Summarize { .. } | Shape::TimeShift { .. } => {}
    }
    Ok(values)
}
