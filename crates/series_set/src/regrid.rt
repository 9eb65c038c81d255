//! A series on a grid.
ghost use Rattle.std.specs.Prelude.{◌≡◌, ◌-◌, ◌<◌, ◌≤◌, IfOk, None, drop, length, map, take};
ghost use Rattle.std.specs.List.{range_with_len, slice_index_or};
ghost use Rattle.series_set.specs.Average.{average, known};
ghost use Rattle.series_set.specs.Series.{latest_end};
ghost use Rattle.series_set.specs.CommonGrid.{IsGrid, value_count};
ghost use Rattle.series_set.specs.OnGrid.{bucket_value, on_grid};

use crate::averaging::average_known;
use crate::grid::Grid;
use crate::reading::{Reading, flattened};
use crate::series::Series;
use fixed_num::Milli;
use std::alloc::{AllocError, Global};

/// The series on a grid, under its name and path: each bucket of the grid has the average, rounded down, of the known values whose
/// moments lie in it, and misses a value where there is none. A series on its own grid is as it was. The work grows with the values and
/// the buckets, one after the other.
///
/// The end may not be later than [`crate::LATEST_END`]: the end of a common grid is less than 31,536,000 seconds after that of its series.
#[tactic(auto, unfolding(crate::specs::OnGrid::on_grid))]
pub fn on_grid(alloc: Global, series: &Series, grid: &Grid) -> Result<Series, AllocError>
    requires grid { IsGrid grid.now }
    requires early { grid.now.end ≤ latest_end }
    ensures { IfOk result (λ moved. moved ≡ on_grid series.now grid.now) }
{
    // What most series are on: their own grid, where nothing is to be computed.
    if series.has_grid(*grid) {
        return series.copy();
    }
    let name = String::from_str(alloc, series.name())?;
    let path = String::from_str(alloc, series.path())?;
    let values = bucket_values(alloc, series, *grid)?;
    Ok(Series::from_legal(name, path, grid.start, grid.step, values))
}

// The averages of a grid's buckets.
fn bucket_values(alloc: Global, series: &Series, grid: Grid) -> Result<Vec<Reading>, AllocError>
    requires grid { IsGrid grid }
    requires early { grid.end ≤ latest_end }
    ensures { IfOk result (λ values. values.items ≡
        map (bucket_value series.now grid) (range_with_len 0 (value_count grid))) }
{
    let count = grid.value_count();
    let mut values = Vec::with_capacity(alloc, count as usize)?;
    let mut limit = grid.start;
    let mut from = series.place_of(limit);
    for _bucket in 0..count {
        limit += grid.step;
        let until = series.place_of(limit);
        values.push(Reading::of(average_of_run(series, from, until)))?;
        from = until;
    }
    Ok(values)
}

/// The value of a series in the bucket at a place of a grid, from 0 on: what [`on_grid`] has there. Takes no memory, and little time where
/// the series has no moment in the bucket.
pub fn bucket_value(series: &Series, grid: &Grid, place: usize) -> Option<Milli>
    requires grid { IsGrid grid.now }
    requires early { grid.now.end ≤ latest_end }
    requires within { place < value_count grid.now }
    ensures { result ≡ bucket_value series.now grid.now place }
{
    let from = grid.start + place as u64 * grid.step;
    let until = from + grid.step;
    let step = series.step();
    if series.end() <= from || until <= series.start() {
        return None;
    }
    // A bucket as long as a step has one moment at most, so that there is nothing to average.
    if step == grid.step {
        return value_at(series, series.place_of(from));
    }
    average_of_run(series, series.place_of(from), series.place_of(until))
}

// The value at a place; missing behind the last.
fn value_at(series: &Series, place: usize) -> Option<Milli>
    ensures { result ≡ slice_index_or series.now.values place None }
{
    flattened(series.values().get(place).copied())
}

// The average of the known values from a place on and before another.
fn average_of_run(series: &Series, from: usize, until: usize) -> Option<Milli>
    requires order { from ≤ until }
    requires within { until ≤ length series.now.values }
    ensures { result ≡ average (known (take (until - from) (drop from series.now.values))) }
{
    average_known(&series.values()[from..until])
}
