//! The functions that combine series to one.
ghost use Rattle.std.specs.Prelude.{◌≡◌, ◌≢◌, ◌<◌, ◌≤◌, [], ◌∷◌, ◌++◌, All, IfErr, IfOk, Ok, Err, OnOk, Some, ◌-ℤ◌, length, map, take};
ghost use Rattle.std.specs.List.{fold, list_all};
ghost use Rattle.series_set.specs.declared.grid.EvalFault.TheVariants.{NoMemory};
ghost use Rattle.series_set.specs.Series.{latest_end};
ghost use Rattle.series_set.specs.Average.{known};
ghost use Rattle.series_set.specs.CommonGrid.{IsGrid, has_grid, value_count};
ghost use Rattle.series_funcs.specs.Combined.{AreCombinable, IsSoonAfter, all_on, column, combine, combined_columns, combined_known, combined_on, combined_series, difference, most_series, product, spread, times_next, value_at};

use crate::kinds::Combine;
use crate::quotients::times;
use crate::work;
use fixed_num::{Milli, narrow, wide};
use ring_format::Method;
use rollup::roll;
use series_set::{
    Allowance, EvalFault, Grid, Reading, Series, SeriesSet, Size, bucket_value, common_grid,
    flattened,
};
use std::alloc::{AllocError, Global};

/// The series combined to one of this name and path, on their common grid; no series give none. At each moment it has what the values
/// of the series have together, in their order: see [`Combine`]. It may be combined again, and ends less than 31,536,000 seconds after
/// all of these series.
///
/// Errors: those of [`common_grid`], and want of memory, as where there is no room for the values or too much to be done.
#[tactic(auto, unfolding(crate::specs::Combined::combine))]
pub fn combine(
    alloc: Global,
    kind: Combine,
    set: &SeriesSet,
    name: &str,
    path: &str,
    room: &mut Allowance,
) -> Result<SeriesSet, EvalFault>
    requires { AreCombinable set.now }
    ensures ok { IfOk result (λ together. combine kind set.now name.now path.now ≡ Ok together) }
    ensures err { IfErr result (λ fault.
        fault ≢ NoMemory → combine kind set.now name.now path.now ≡ Err fault) }
    ensures bounds { IfOk result (All (IsSoonAfter set.now)) }
{
    let mut together = SeriesSet::new(alloc);
    if set.len() > 0 {
        together.push(combined_series(alloc, kind, set, name, path, room)?)?;
    }
    Ok(together)
}

/// What some series have together, for which room and work are taken.
#[tactic(auto, unfolding(crate::specs::Combined::combined_series))]
pub(crate) fn combined_series(
    alloc: Global,
    kind: Combine,
    set: &SeriesSet,
    name: &str,
    path: &str,
    room: &mut Allowance,
) -> Result<Series, EvalFault>
    requires some { 0 < length set.now }
    requires series { AreCombinable set.now }
    ensures ok { IfOk result (λ series.
        combined_series kind set.now name.now path.now ≡ Ok series) }
    ensures err { IfErr result (λ fault.
        fault ≢ NoMemory → combined_series kind set.now name.now path.now ≡ Err fault) }
    ensures bounds { IfOk result (IsSoonAfter set.now) }
{
    let grid = common_grid(set)?;
    room.bear(Size::of_values(grid.value_count()))?;
    room.spend(work::of_combining(kind, set.as_slice(), &grid, grid.value_count()))?;
    let series = combined_on(alloc, kind, set, name, path, &grid)?;
    room.take(series.size())?;
    Ok(series)
}

// What series have together on a grid.
#[tactic(auto, unfolding(crate::specs::Combined::combined_on))]
fn combined_on(
    alloc: Global,
    kind: Combine,
    set: &SeriesSet,
    name: &str,
    path: &str,
    grid: &Grid,
) -> Result<Series, AllocError>
    requires few { length set.now ≤ most_series }
    requires grid { IsGrid grid.now }
    requires early { grid.now.end ≤ latest_end }
    ensures { IfOk result (λ series.
        series ≡ combined_on kind set.now name.now path.now grid.now) }
{
    let name = String::from_str(alloc, name)?;
    let path = String::from_str(alloc, path)?;
    let values = combined_values(alloc, kind, set, grid)?;
    Ok(Series::from_legal(name, path, grid.start, grid.step, values))
}

// The values that series have together on a grid.
fn combined_values(
    alloc: Global,
    kind: Combine,
    set: &SeriesSet,
    grid: &Grid,
) -> Result<Vec<Reading>, AllocError>
    requires few { length set.now ≤ most_series }
    requires grid { IsGrid grid.now }
    requires early { grid.now.end ≤ latest_end }
    ensures { IfOk result (λ values.
        values.items ≡ combined_columns kind (all_on set.now grid.now) (value_count grid.now)) }
{
    // Where all series have the grid their values are taken as they stand.
    if all_have_grid(set.as_slice(), *grid) {
        return combined_columns(alloc, kind, set.as_slice(), grid.value_count() as usize);
    }
    combined_buckets(alloc, kind, set.as_slice(), grid)
}

// Whether all series have this start, end and step.
fn all_have_grid(series: &[Series], grid: Grid) -> bool
    ensures { result ≡ list_all (has_grid grid) series.now }
{
    series.iter().all(|one| one.has_grid(grid))
}

// What series have together at each of so many places.
#[tactic(auto, unfolding(crate::specs::Combined::combined_columns))]
fn combined_columns(
    alloc: Global,
    kind: Combine,
    series: &[Series],
    count: usize,
) -> Result<Vec<Reading>, AllocError>
    requires { length series.now ≤ most_series }
    ensures { IfOk result (λ values. values.items ≡ combined_columns kind series.now count) }
{
    let mut known = Vec::with_capacity(alloc, series.len())?;
    let mut values = Vec::with_capacity(alloc, count)?;
    for place in 0..count {
        gather_known(series, place, &mut known)?;
        values.push(Reading::of(combined_known(kind, &known, series.len())))?;
    }
    Ok(values)
}

// Puts the known values of series at one place in the place of what the list has.
fn gather_known(
    series: &[Series],
    place: usize,
    gathered: &mut Vec<Milli>,
) -> Result<(), AllocError>
    ensures { OnOk result (gathered.new.items ≡ known (column series.now place)) }
{
    gathered.clear();
    for one in series {
        let Some(value) = value_at(one, place) else {
            continue
        };
        gathered.push(value)?;
    }
    Ok(())
}

// What series have together in each bucket of a grid. They are never all held as they are on it: many short series may span a long grid.
#[tactic(auto, unfolding(crate::specs::Combined::combined_columns))]
fn combined_buckets(
    alloc: Global,
    kind: Combine,
    series: &[Series],
    grid: &Grid,
) -> Result<Vec<Reading>, AllocError>
    requires few { length series.now ≤ most_series }
    requires grid { IsGrid grid.now }
    requires early { grid.now.end ≤ latest_end }
    ensures { IfOk result (λ values.
        values.items ≡ combined_columns kind (all_on series.now grid.now) (value_count grid.now)) }
{
    let count = grid.value_count() as usize;
    let mut known = Vec::with_capacity(alloc, series.len())?;
    let mut values = Vec::with_capacity(alloc, count)?;
    for bucket in 0..count {
        gather_bucket(series, grid, bucket, &mut known)?;
        let value = combined_known(kind, &known, series.len());
        values.push(Reading::of(value))?;
    }
    Ok(values)
}

// Puts the known values of series in one bucket in the place of what the list has.
fn gather_bucket(
    series: &[Series],
    grid: &Grid,
    bucket: usize,
    gathered: &mut Vec<Milli>,
) -> Result<(), AllocError>
    requires grid { IsGrid grid.now }
    requires early { grid.now.end ≤ latest_end }
    requires within { bucket < value_count grid.now }
    ensures { OnOk result (
        gathered.new.items ≡ known (column (all_on series.now grid.now) bucket)) }
{
    gathered.clear();
    for one in series {
        let Some(value) = bucket_value(one, grid, bucket) else {
            continue
        };
        gathered.push(value)?;
    }
    Ok(())
}

/// The value of a series at a place; missing behind the last.
pub(crate) fn value_at(series: &Series, place: usize) -> Option<Milli>
    ensures { result ≡ value_at place series.now }
{
    flattened(series.values().get(place).copied())
}

// What values have together of which these are known.
#[tactic(auto, unfolding(crate::specs::Combined::combined_known))]
fn combined_known(kind: Combine, known: &[Milli], all: usize) -> Option<Milli>
    requires { length known.now ≤ most_series }
    ensures { result ≡ combined_known kind known.now all }
{
    match kind {
        Combine::Sum => roll(Method::Sum, known, known.len() as u32),
        Combine::Average => roll(Method::Average, known, known.len() as u32),
        Combine::Min => roll(Method::Min, known, known.len() as u32),
        Combine::Max => roll(Method::Max, known, known.len() as u32),
        Combine::Range => spread(known),
        Combine::Diff => difference(known),
        Combine::Multiply => {
            if known.len() != all {
                return None;
            }
            product(known)
        }
    }
}

// The greatest value less the least.
#[tactic(auto, unfolding(crate::specs::Combined::spread))]
fn spread(known: &[Milli]) -> Option<Milli>
    requires { length known.now ≤ most_series }
    ensures { result ≡ spread known.now }
{
    let count = known.len() as u32;
    let most = roll(Method::Max, known, count)?;
    let least = roll(Method::Min, known, count)?;
    narrow(wide(most) - wide(least))
}

// The first value less each other one.
#[tactic(auto, unfolding(crate::specs::Combined::difference))]
fn difference(known: &[Milli]) -> Option<Milli>
    requires { length known.now ≤ most_series }
    ensures { result ≡ difference known.now }
{
    let (first, others) = known.split_first()?;
    narrow(less_others(*first, others))
}

fn less_others(first: Milli, others: &[Milli]) -> i128
    requires { length others.now ≤ most_series }
    ensures { result ≡ fold ◌-ℤ◌ first others.now }
{
    let mut left = wide(first);
    for other in others {
        left -= wide(*other);
    }
    left
}

// The product of values from the first on.
#[tactic(auto, unfolding(crate::specs::Combined::product))]
fn product(known: &[Milli]) -> Option<Milli>
    ensures { result ≡ product known.now }
{
    let (first, others) = known.split_first()?;
    times_others(*first, others)
}

fn times_others(first: Milli, others: &[Milli]) -> Option<Milli>
    ensures { result ≡ fold times_next (Some first) others.now }
{
    let mut product = first;
    for factor in others {
        product = times(product, *factor)?;
    }
    Some(product)
}
