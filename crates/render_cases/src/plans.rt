//! Queries that are read at the moment 1,700,000,030.

use case_lines::{Case, Told};
use render_plan::{Format, Need, QueryFault, RenderPlan};
use std::alloc::Global;

/// The moment of every query.
const NOW: u64 = 1_700_000_030;

/// What a query and the form in its body are read as.
pub fn read_plan(alloc: Global, query: &[u8], body: &[u8]) -> Result<RenderPlan, QueryFault> {
    RenderPlan::read(alloc, query, body, NOW)
}

/// `check QUERY BODY`, `plan QUERY BODY`, `format QUERY BODY`: `well`, what the query needs, or the form of its answer; or why it is refused.
/// The body may be left out.
pub fn tell(alloc: Global, told: &mut Told, case: &Case) {
    match read_plan(alloc, case.bytes_at(0, told), body_of(case)) {
        Ok(plan) => tell_plan(told, case.verb(), &plan),
        Err(fault) => write!(told, "{fault}"),
    }
}

fn body_of(case: &Case) -> &[u8] {
    match case.rest(1) {
        [body, ..] => body.as_slice(),
        [] => b"",
    }
}

fn tell_plan(told: &mut Told, verb: &str, plan: &RenderPlan) {
    match verb {
        "check" => told.push_str("well"),
        "plan" => write_needs(told, plan.needs()),
        _ => told.push_str(format_word(plan.format())),
    }
}

// Each need: its glob, the first end and the second.
fn write_needs(told: &mut Told, needs: &[Need]) {
    let mut between = "";
    for need in needs {
        let glob = str::from_utf8(need.glob.text()).unwrap_or("?");
        write!(told, "{between}{glob} {} {}", need.from, need.until);
        between = "; ";
    }
}

fn format_word(format: Format) -> &'static str {
    match format {
        Format::Json => "json",
        Format::Raw => "raw",
        Format::Csv => "csv",
    }
}
