//! The functions that leave series out.
ghost use Rattle.std.specs.Prelude.{◌≡◌, filter, take};
ghost use Rattle.series_pick.specs.Measures.{has_known, is_beside};

use crate::measures::{Measure, Side, measure_of};
use fixed_num::{Milli, wide};
use series_set::{Series, SeriesSet};

/// The first so many series.
pub(crate) fn first_of(set: SeriesSet, most: u32) -> SeriesSet
    ensures { result ≡ take most set }
{
    let mut series = set.into_vec();
    series.truncate(most as usize);
    SeriesSet::from_vec(series)
}

/// The series with a measure on this side of a bound.
pub(crate) fn beside(set: SeriesSet, measure: Measure, side: Side, bound: Milli) -> SeriesSet
    ensures { result ≡ filter (is_beside measure side bound) set }
{
    let mut series = set.into_vec();
    series.retain(|one| is_beside(one, measure, side, bound));
    SeriesSet::from_vec(series)
}

// A series without a measure is on neither side.
#[tactic(auto, unfolding(crate::specs::Measures::is_beside))]
fn is_beside(series: &Series, measure: Measure, side: Side, bound: Milli) -> bool
    ensures { result ≡ is_beside measure side bound series.now }
{
    let Some(number) = measure_of(measure, series) else {
        return false;
    };
    match side {
        Side::Above => return number > wide(bound),
        Side::Below => return number <= wide(bound),
    }
}

/// The series with a known value.
pub(crate) fn with_known(set: SeriesSet) -> SeriesSet
    ensures { result ≡ filter has_known set }
{
    let mut series = set.into_vec();
    series.retain(|one| has_known(one));
    SeriesSet::from_vec(series)
}

fn has_known(series: &Series) -> bool
    ensures { result ≡ has_known series.now }
{
    series.values().iter().any(|value| value.is_known())
}
