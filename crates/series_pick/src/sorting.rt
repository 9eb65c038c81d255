//! The functions that put series in order.
ghost use Rattle.std.specs.Prelude.{◌≡◌, ◌≤◌, IfOk};
ghost use Rattle.series_pick.specs.Chosen.{SelectsFirst, Sorts, by_name};
ghost use Rattle.series_pick.specs.Measures.{by_measure, measure_of};
ghost use Rattle.series_pick.specs.Places.{place_of};

use crate::filtering::first_of;
use crate::measures::{First, Measure, measure_of};
use series_set::{Series, SeriesSet};
use std::alloc::AllocError;

/// A place in an order: the numbers rise, and what has none stands behind them.
#[derive(Clone, Copy, PartialEq, Eq, PartialOrd, Ord)]
pub(crate) enum Place {
    Number(i128),
    Last,
}

/// The series in order of a measure: those that agree in it as they stood, and those without it last.
pub(crate) fn sorted(
    set: SeriesSet,
    measure: Measure,
    first: First,
) -> Result<SeriesSet, AllocError>
    ensures { IfOk result (Sorts (by_measure measure first) set) }
{
    let mut series = set.into_vec();
    series.sort_by_cached_key(|one| place_of(one, measure, first))?;
    Ok(SeriesSet::from_vec(series))
}

// What a series is sorted by.
fn place_of(series: &Series, measure: Measure, first: First) -> Place
    ensures { result ≡ place_of first (measure_of measure series.now) }
{
    let Some(number) = measure_of(measure, series) else {
        return Place::Last;
    };
    match first {
        First::Greatest => return Place::Number(-number),
        First::Least => return Place::Number(number),
    }
}

/// The first so many series in order of a measure.
pub(crate) fn first_sorted(
    set: SeriesSet,
    measure: Measure,
    first: First,
    most: u32,
) -> Result<SeriesSet, AllocError>
    ensures { IfOk result (SelectsFirst most (by_measure measure first) set) }
{
    let sorted = sorted(set, measure, first)?;
    Ok(first_of(sorted, most))
}

/// The series in order of the bytes of their names.
pub(crate) fn sorted_by_name(set: SeriesSet) -> Result<SeriesSet, AllocError>
    ensures { IfOk result (Sorts by_name set) }
{
    let mut series = set.into_vec();
    series.sort_by(|one, other| one.name().cmp(other.name()))?;
    Ok(SeriesSet::from_vec(series))
}
