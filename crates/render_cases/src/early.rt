//! Series that calls may be given: narrow steps, and no late ends.
ghost use Rattle.std.specs.Prelude.{◌≤◌, ◌-◌, All, IsTrue};
ghost use Rattle.series_set.specs.Series.{end_of, latest_end, widest_step};
ghost use Rattle.series_funcs.specs.Combined.{AreCombinable};

use series_set::{LATEST_END, Series, WIDEST_STEP};

/// The most series that are combined at once.
const MOST_SERIES: usize = 10_000;

/// Whether no step is wider than common grids allow.
pub fn are_narrow(series: &[Series]) -> bool
    ensures { IsTrue result → All (λ s. s.step ≤ widest_step) series.now }
{
    series.iter().all(|one| one.step() <= WIDEST_STEP)
}

fn are_early(series: &[Series]) -> bool
    ensures { IsTrue result → All (λ s. end_of s ≤ latest_end - widest_step) series.now }
{
    series
        .iter()
        .all(|one| one.end() <= LATEST_END - WIDEST_STEP)
}

/// Whether series may be combined.
pub fn are_combinable(series: &[Series]) -> bool
    ensures { IsTrue result → AreCombinable series.now }
{
    series.len() <= MOST_SERIES && are_narrow(series) && are_early(series)
}
