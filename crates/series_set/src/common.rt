//! The common grid of series.
ghost use Rattle.std.specs.Prelude.{◌≡◌, ◌<◌, ◌≤◌, [], ◌∷◌, All, IfErr, IfOk, None, Some, length, option_map};
ghost use Rattle.std.specs.List.{list_all};
ghost use Rattle.series_set.specs.declared.grid.EvalFault.TheVariants.{StepTooWide};
ghost use Rattle.series_set.specs.Series.{latest_end, widest_step};
ghost use Rattle.series_set.specs.CommonGrid.{EndsSoonAfter, IsCommonStep, IsGrid, IsWhole, common_grid, greatest_end, grid_of, has_grid, least_start, steps_of, wide_multiple};

use crate::grid::{EvalFault, Grid};
use crate::multiple::lcm;
use crate::series::{Series, WIDEST_STEP};
use crate::set::SeriesSet;

/// The grid to which series are brought so that they can be compared moment by moment.
///
/// Its step is the least common multiple of their steps, its start the least of their starts rounded down to a multiple of the step,
/// and its end the greatest of their ends rounded up. Where all series agree in start, end and step, that is the grid as it is.
/// Takes no memory.
///
/// Errors: `StepTooWide` exactly where the multiple is above 31,536,000, with the first such on the way from the first series to the last;
/// else `TooLong` exactly where the grid has more than 4,000,000 values, with their number.
#[tactic(auto, unfolding(crate::specs::CommonGrid::common_grid))]
pub fn common_grid(set: &SeriesSet) -> Result<Grid, EvalFault>
    requires some { 0 < length set.now }
    requires short { All (λ s. s.step ≤ widest_step) set.now }
    ensures value { result ≡ common_grid set.now }
    ensures grid { IfOk result IsGrid }
    ensures late { IfOk result (λ grid. EndsSoonAfter set.now grid.end) }
{
    let series = set.as_slice();
    let step = common_step(series)?;
    grid_of(series, step).short()
}

/// The least common multiple of the steps of series. Takes no memory.
///
/// Errors: `StepTooWide` exactly where a multiple on the way from the first series to the last is above 31,536,000, with the first such.
pub fn common_step(series: &[Series]) -> Result<u64, EvalFault>
    requires { All (λ s. s.step ≤ widest_step) series.now }
    ensures ok { IfOk result (IsCommonStep series.now) }
    ensures err { IfErr result (λ fault.
        option_map StepTooWide (wide_multiple (steps_of series.now)) ≡ Some fault) }
{
    let mut step = 1;
    for one in series {
        step = lcm(step, one.step());
        if step > WIDEST_STEP {
            return Err(EvalFault::StepTooWide(step));
        }
    }
    Ok(step)
}

/// Whether two series have a common step that is not too wide. Takes no memory.
///
/// Errors: `StepTooWide` exactly where the least common multiple of their steps is above 31,536,000, with the multiple.
#[tactic(auto, unfolding(crate::specs::CommonGrid::wide_multiple))]
pub fn check_pair(one: &Series, other: &Series) -> Result<(), EvalFault>
    requires one { one.now.step ≤ widest_step }
    requires other { other.now.step ≤ widest_step }
    ensures ok { IfOk result (λ _. wide_multiple (steps_of (one.now ∷ other.now ∷ [])) ≡ None) }
    ensures err { IfErr result (λ fault.
        option_map StepTooWide (wide_multiple (steps_of (one.now ∷ other.now ∷ []))) ≡ Some fault) }
{
    let step = lcm(one.step(), other.step());
    if step > WIDEST_STEP {
        return Err(EvalFault::StepTooWide(step));
    }
    Ok(())
}

// The grid of series in their common step.
#[tactic(auto, unfolding(crate::specs::CommonGrid::grid_of))]
fn grid_of(series: &[Series], step: u64) -> Grid
    requires some { 0 < length series.now }
    requires step { IsCommonStep series.now step }
    ensures value { result ≡ grid_of series.now }
    ensures whole { IsWhole result }
    ensures late { EndsSoonAfter series.now result.end }
{
    let hull = Grid {
        start: least_start(series),
        end: greatest_end(series),
        step,
    };
    if all_have_grid(series, hull) {
        return hull;
    }
    hull.widened()
}

fn least_start(series: &[Series]) -> u64
    ensures { result ≡ least_start series.now }
{
    series.iter().map(|one| one.start()).min().unwrap_or(0)
}

fn greatest_end(series: &[Series]) -> u64
    ensures value { result ≡ greatest_end series.now }
    ensures early { result ≤ latest_end }
{
    series.iter().map(|one| one.end()).max().unwrap_or(0)
}

// Whether all series have this start, end and step.
fn all_have_grid(series: &[Series], grid: Grid) -> bool
    ensures { result ≡ list_all (has_grid grid) series.now }
{
    series.iter().all(|one| one.has_grid(grid))
}
