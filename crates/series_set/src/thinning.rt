//! A series with fewer values.
ghost use Rattle.std.specs.Prelude.{◌≡◌, ◌*◌, ◌<◌, ◌≤◌, IfOk, length};
ghost use Rattle.std.specs.Fork.{slice_chunk};
ghost use Rattle.std.specs.Int.{div_ceil};
ghost use Rattle.series_set.specs.Series.{end_of, latest_end, most_values};
ghost use Rattle.series_set.specs.Thinned.{group_averages, grouped, thinned};

use crate::averaging::average_known;
use crate::reading::Reading;
use crate::series::Series;
use std::alloc::{AllocError, Global};

/// The series with at most so many values: groups of neighbouring values, from the first on and as small as that allows, each give the
/// average, rounded down, of their known ones. The step is as many times as long; the name, the path and the start stay. A series that
/// has no more values is as it was.
///
/// The last group may be short of values, so that the series ends later than before, but by less than its whole length: where the series
/// ends at half of [`crate::LATEST_END`] or before, the thinned one ends at that moment or before.
#[tactic(auto, unfolding(crate::specs::Thinned::thinned))]
pub fn thin(alloc: Global, series: Series, most: u64) -> Result<Series, AllocError>
    requires some { 1 ≤ most }
    requires early { 2 * end_of series ≤ latest_end }
    ensures value { IfOk result (λ thin. thin ≡ thinned most series) }
    ensures few { IfOk result (λ thin. length thin.values ≤ most) }
{
    let count = series.values().len() as u64;
    if count <= most {
        return Ok(series);
    }
    grouped(alloc, &series, count.div_ceil(most))
}

// The series of groups of this many values.
fn grouped(alloc: Global, series: &Series, size: u64) -> Result<Series, AllocError>
    requires some { 1 ≤ size }
    requires few { size ≤ length series.now.values }
    requires early { 2 * end_of series.now ≤ latest_end }
    ensures { IfOk result (λ thin. thin ≡ grouped size series.now) }
{
    let name = String::from_str(alloc, series.name())?;
    let path = String::from_str(alloc, series.path())?;
    let values = group_averages(alloc, series.values(), size as usize)?;
    Ok(Series::from_legal(name, path, series.start(), size * series.step(), values))
}

// The averages of groups of this many values.
#[tactic(auto, unfolding(crate::specs::Thinned::group_averages))]
fn group_averages(
    alloc: Global,
    values: &[Reading],
    size: usize,
) -> Result<Vec<Reading>, AllocError>
    requires some { 1 ≤ size }
    requires few { length values.now ≤ most_values }
    ensures { IfOk result (λ averages. averages.items ≡ group_averages size values.now) }
{
    let count = values.len().div_ceil(size);
    let mut averages = Vec::with_capacity(alloc, count)?;
    for n in 0..count {
        averages.push(Reading::of(average_known(group(values, size, n))))?;
    }
    Ok(averages)
}

// The group at a place, from 0 on.
fn group(values: &[Reading], size: usize, n: usize) -> &[Reading]
    requires some { 1 ≤ size }
    requires few { length values.now ≤ most_values }
    requires within { n < div_ceil (length values.now) size }
    ensures value { result.now ≡ slice_chunk values.now size n }
    ensures short { length result.now ≤ most_values }
{
    let from = n * size;
    let until = values.len().min(from + size);
    &values[from..until]
}
