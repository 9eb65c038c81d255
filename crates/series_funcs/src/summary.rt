//! Summaries of series.
ghost use Rattle.std.specs.Prelude.{◌≡◌, ◌≢◌, ◌+◌, ◌-◌, ◌≤◌, IfErr, IfOk, Ok, Err, OnOk, drop, length, map, take};
ghost use Rattle.std.specs.List.{range_with_len};
ghost use Rattle.series_set.specs.declared.grid.EvalFault.TheVariants.{NoMemory};
ghost use Rattle.series_set.specs.Average.{known};
ghost use Rattle.series_set.specs.CommonGrid.{IsGrid, value_count};
ghost use Rattle.series_set.specs.Series.{end_of, latest_end, most_values};
ghost use Rattle.series_funcs.specs.Combined.{gathered};
ghost use Rattle.series_funcs.specs.Moved.{IsSummaryStep, method_of, summarized, summary_at, summary_on};

use crate::kinds::Gather;
use crate::naming::{CallName, call_text};
use crate::work;
use fixed_num::Milli;
use ring_format::Method;
use rollup::roll;
use series_set::{Allowance, EvalFault, Grid, Reading, Series, Size};
use std::alloc::{AllocError, Global};

/// The series in buckets of so many seconds that begin at multiples of them: each has what its known values give. Room and work are taken for it.
///
/// Errors: `TooLong` exactly where there are more than 4,000,000 buckets, with their number, and want of memory.
#[tactic(auto, unfolding(crate::specs::Moved::summarized))]
pub(crate) fn summarized(
    alloc: Global,
    step: u32,
    gather: Gather,
    call: &CallName,
    series: &Series,
    room: &mut Allowance,
) -> Result<Series, EvalFault>
    requires step { IsSummaryStep step }
    requires early { end_of series.now + step ≤ latest_end }
    ensures ok { IfOk result (λ summary.
        summarized step gather call.now.function.now call.now.tail.now series.now ≡ Ok summary) }
    ensures err { IfErr result (λ fault. fault ≢ NoMemory
        → summarized step gather call.now.function.now call.now.tail.now series.now ≡ Err fault) }
{
    let whole = Grid {
        start: series.start(),
        end: series.end(),
        step: u64::from(step),
    };
    let grid = whole.widened().short()?;
    room.bear(Size::of_values(grid.value_count()))?;
    room.spend(work::of_summary(series.values().len() as u64, grid.value_count()))?;
    let summary = summary_on(alloc, gather, call, series, &grid)?;
    room.take(summary.size())?;
    Ok(summary)
}

// The summary of a series on a grid.
#[tactic(auto, unfolding(crate::specs::Moved::summary_on))]
fn summary_on(
    alloc: Global,
    gather: Gather,
    call: &CallName,
    series: &Series,
    grid: &Grid,
) -> Result<Series, AllocError>
    requires grid { IsGrid grid.now }
    requires early { grid.now.end ≤ latest_end }
    ensures { IfOk result (λ summary. summary
        ≡ summary_on gather call.now.function.now call.now.tail.now series.now grid.now) }
{
    let name = call_text(alloc, call.function, series.name(), call.tail)?;
    let path = String::from_str(alloc, series.path())?;
    let values = summary_values(alloc, gather, series, *grid)?;
    Ok(Series::from_legal(name, path, grid.start, grid.step, values))
}

// What the buckets of a grid have.
fn summary_values(
    alloc: Global,
    gather: Gather,
    series: &Series,
    grid: Grid,
) -> Result<Vec<Reading>, AllocError>
    requires grid { IsGrid grid }
    requires early { grid.end ≤ latest_end }
    ensures { IfOk result (λ values. values.items
        ≡ map (summary_at gather series.now grid) (range_with_len 0 (value_count grid))) }
{
    let count = grid.value_count();
    let mut known = Vec::new(alloc);
    let mut values = Vec::with_capacity(alloc, count as usize)?;
    let mut limit = grid.start;
    let mut from = series.place_of(limit);
    for _bucket in 0..count {
        limit += grid.step;
        let until = series.place_of(limit);
        put_run(series, from, until, &mut known)?;
        values.push(Reading::of(gathered(gather, &known)))?;
        from = until;
    }
    Ok(values)
}

// Puts the known values from a place on and before another in the place of what the list has.
fn put_run(
    series: &Series,
    from: usize,
    until: usize,
    gathered: &mut Vec<Milli>,
) -> Result<(), AllocError>
    requires order { from ≤ until }
    requires within { until ≤ length series.now.values }
    ensures ok { OnOk result (gathered.new.items
        ≡ known (take (until - from) (drop from series.now.values))) }
    ensures few { OnOk result (length gathered.new.items ≤ most_values) }
{
    put_known(&series.values()[from..until], gathered)
}

fn put_known(values: &[Reading], gathered: &mut Vec<Milli>) -> Result<(), AllocError>
    ensures { OnOk result (gathered.new.items ≡ known values.now) }
{
    gathered.clear();
    for value in values {
        let Some(value) = value.get() else { continue };
        gathered.push(value)?;
    }
    Ok(())
}

// What known values give.
fn gathered(gather: Gather, known: &[Milli]) -> Option<Milli>
    requires { length known.now ≤ most_values }
    ensures { result ≡ gathered (method_of gather) known.now }
{
    roll(method_of(gather), known, known.len() as u32)
}

fn method_of(gather: Gather) -> Method
    ensures { result ≡ method_of gather }
{
    match gather {
        Gather::Sum => Method::Sum,
        Gather::Average => Method::Average,
        Gather::Max => Method::Max,
        Gather::Min => Method::Min,
        Gather::Last => Method::Last,
    }
}
