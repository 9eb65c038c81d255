//! Queries that are evaluated over series that are given for each need.

use crate::notation::{write_named, write_names};
use crate::plans::read_plan;
use crate::room::plenty;
use crate::rows::{may_be_evaluated, rows_from};
use case_lines::{Case, Told};
use render_plan::RenderPlan;
use series_set::{EvalFault, SeriesSet};
use std::alloc::Global;

/// `value QUERY SET..`, `names QUERY SET..`: the series, or the names of the series, that the query makes of a set for each of its needs, or
/// why there are none.
pub fn tell(alloc: Global, told: &mut Told, case: &Case) {
    match read_plan(alloc, case.bytes_at(0, told), b"") {
        Ok(plan) => tell_by_plan(alloc, told, case, &plan),
        Err(_) => told.malformed(),
    }
}

fn tell_by_plan(alloc: Global, told: &mut Told, case: &Case, plan: &RenderPlan) {
    let rows = rows_from(alloc, case, 1, told);
    if rows.len() != plan.needs().len() || !may_be_evaluated(&rows) {
        return told.malformed();
    }
    write_value(told, case.verb(), plan.evaluate(alloc, rows, &mut plenty()));
}

fn write_value(told: &mut Told, verb: &str, found: Result<SeriesSet, EvalFault>) {
    match found {
        Ok(set) if verb == "names" => write_names(told, &set),
        Ok(set) => write_each(told, &set),
        Err(fault) => write!(told, "{fault}"),
    }
}

// Each series without its path.
fn write_each(told: &mut Told, set: &SeriesSet) {
    let mut between = "";
    for series in set.as_slice() {
        told.push_str(between);
        write_named(told, series);
        between = " ";
    }
}
