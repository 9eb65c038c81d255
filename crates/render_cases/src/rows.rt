//! The series of a query's needs.
ghost use Rattle.std.specs.Prelude.{◌≤◌, All, IsTrue, length};
ghost use Rattle.render_plan.specs.Bounds.{AreRows, IsEarly, latest_row_end};

use crate::notation::set_at;
use case_lines::{Case, CaseFault, Told};
use metric_path::MetricPath;
use render_plan::Need;
use series_set::{Series, SeriesRows, SeriesSet, WIDEST_STEP};
use std::alloc::Global;

/// The latest end of series that are evaluated.
const LATEST_ROW_END: u64 = 5_000_000_000;

/// The sets that are the words from a place on.
pub fn rows_from(alloc: Global, case: &Case, at: usize, told: &mut Told) -> SeriesRows {
    let mut rows = SeriesRows::new(alloc);
    for place in at..case.len() {
        let set = set_at(alloc, case, place, told);
        told.keep(rows.push(set));
    }
    rows
}

/// For each need those series that it finds, in their order.
pub fn rows_found(
    alloc: Global,
    needs: &[Need],
    series: &SeriesSet,
    told: &mut Told,
) -> SeriesRows {
    let mut rows = SeriesRows::new(alloc);
    for need in needs {
        let set = found(alloc, need, series.as_slice(), told);
        told.keep(rows.push(set));
    }
    rows
}

fn found(alloc: Global, need: &Need, series: &[Series], told: &mut Told) -> SeriesSet {
    let mut set = SeriesSet::new(alloc);
    for one in series {
        if finds(alloc, need, one, told) {
            push_copy(&mut set, one, told);
        }
    }
    set
}

fn push_copy(set: &mut SeriesSet, series: &Series, told: &mut Told) {
    match series.copy() {
        Ok(copy) => told.keep(set.push(copy)),
        Err(_) => told.fail(CaseFault::NoMemory),
    }
}

fn finds(alloc: Global, need: &Need, series: &Series, told: &mut Told) -> bool {
    match MetricPath::new(alloc, series.path().as_bytes()) {
        Ok(path) => need.glob.matches(&path),
        Err(_) => {
            told.malformed();
            false
        }
    }
}

fn is_early(series: &Series) -> bool
    ensures { IsTrue result → IsEarly latest_row_end series.now }
{
    series.step() <= WIDEST_STEP && series.end() <= LATEST_ROW_END
}

fn are_early(set: &SeriesSet) -> bool
    ensures { IsTrue result → All (IsEarly latest_row_end) set.now }
{
    set.as_slice().iter().all(|series| is_early(series))
}

fn is_short(set: &SeriesSet) -> bool
    ensures { IsTrue result → (length set.now ≤ 100) × All (IsEarly latest_row_end) set.now }
{
    set.len() <= 100 && are_early(set)
}

fn are_short(sets: &[SeriesSet]) -> bool
    ensures { IsTrue result
        → All (λ set. (length set ≤ 100) × All (IsEarly latest_row_end) set) sets.now }
{
    sets.iter().all(|set| is_short(set))
}

/// Whether a query may be evaluated over rows: at most 100, each of at most 100 series.
#[tactic(auto, using(render_need::proofs::RowLemmas::short_rows))]
pub fn may_be_evaluated(rows: &SeriesRows) -> bool
    ensures { IsTrue result → AreRows rows.now }
{
    rows.len() <= 100 && are_short(rows.as_slice())
}
