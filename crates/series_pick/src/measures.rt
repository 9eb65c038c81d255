//! Measures of series.
ghost use Rattle.std.specs.Prelude.{◌≡◌, ◌≤◌, ◌<◌, ◌^◌, IfSome, None, length, unsigned_abs};
ghost use Rattle.std.specs.Int.{int_max, int_min};
ghost use Rattle.std.specs.List.{last_or, reduce};
ghost use Rattle.series_set.specs.Series.{most_values};
ghost use Rattle.series_set.specs.Average.{known};
ghost use Rattle.series_pick.specs.Measures.{measure_of, total};

use fixed_num::{Milli, wide};
use series_set::{Reading, Series, average_known, flattened};

/// What is measured of a series' known values.
#[derive(Clone, Copy)]
pub(crate) enum Measure {
    /// The greatest.
    Max,
    /// The least.
    Min,
    /// The last.
    Current,
    /// The average, rounded down.
    Average,
    /// The exact sum.
    Total,
}

/// A side of a bound.
#[derive(Clone, Copy)]
pub(crate) enum Side {
    /// More than the bound.
    Above,
    /// At most the bound.
    Below,
}

/// Which measure comes first.
#[derive(Clone, Copy)]
pub(crate) enum First {
    Greatest,
    Least,
}

/// The measure of a series, in thousandths: `None` exactly where no value is known.
#[tactic(auto, unfolding(crate::specs::Measures::measure_of))]
pub(crate) fn measure_of(measure: Measure, series: &Series) -> Option<i128>
    ensures value { result ≡ measure_of measure series.now }
    ensures short { IfSome result (λ number. unsigned_abs number < 2 ^ 127) }
{
    let values = series.values();
    match measure {
        Measure::Max => Some(wide(greatest_known(values)?)),
        Measure::Min => Some(wide(least_known(values)?)),
        Measure::Current => Some(wide(last_known(values)?)),
        Measure::Average => Some(wide(average_known(values)?)),
        Measure::Total => total_known(values),
    }
}

fn greatest_known(values: &[Reading]) -> Option<Milli>
    ensures { result ≡ reduce int_max (known values.now) }
{
    values.iter().filter_map(|value| value.get()).max()
}

fn least_known(values: &[Reading]) -> Option<Milli>
    ensures { result ≡ reduce int_min (known values.now) }
{
    values.iter().filter_map(|value| value.get()).min()
}

fn last_known(values: &[Reading]) -> Option<Milli>
    ensures { result ≡ last_or None (known values.now) }
{
    flattened(values.iter().rev().find(|value| value.is_known()).copied())
}

// The exact sum of the known values.
#[tactic(auto, unfolding(series_set::specs::Average::sum_of))]
fn total_known(values: &[Reading]) -> Option<i128>
    requires { length values.now ≤ most_values }
    ensures value { result ≡ total (known values.now) }
    ensures short { IfSome result (λ number. unsigned_abs number < 2 ^ 127) }
{
    let mut sum = 0;
    let mut count: u32 = 0;
    for value in values {
        let Some(known) = value.get() else { continue };
        sum += wide(known);
        count += 1;
    }
    if count == 0 {
        return None;
    }
    Some(sum)
}
