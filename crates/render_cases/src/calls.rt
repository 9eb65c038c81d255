//! The verbs of the cases.

use crate::{
    answers, choices, combining, grids, groups, pickles, plans, read_json, refusals, shapes,
    slow_json, texts, values,
};
use case_lines::{Calls, Case, CaseFault, Told};
use std::alloc::Global;

/// The calls that combine, shape, pick, plan and write series.
#[derive(Drop)]
pub struct RenderCalls;

impl Calls for RenderCalls {
    fn tell(&self, alloc: Global, case: &Case) -> Result<String, CaseFault> {
        let mut told = Told::new(alloc);
        tell_case(alloc, &mut told, case);
        told.finish()
    }
}

fn tell_case(alloc: Global, told: &mut Told, case: &Case) {
    match case.verb() {
        "ask" => answers::tell_answer(alloc, told, case),
        "within" => answers::tell_answer_within(alloc, told, case),
        "working" => answers::tell_answer_working(alloc, told, case),
        "value" | "names" => values::tell(alloc, told, case),
        "check" | "plan" | "format" => plans::tell(alloc, told, case),
        "fault" | "refusal" => refusals::tell(alloc, told, case),
        "end" | "place" | "exchange" | "grid" | "regrid" | "thin" => {
            grids::tell(alloc, told, case)
        }
        "combine" | "divide" => combining::tell(alloc, told, case),
        "shape" => shapes::tell_shape(alloc, told, case),
        "regroup" => groups::tell_groups(alloc, told, case),
        "choose" => choices::tell_choice(alloc, told, case),
        "json" | "raw" | "csv" => texts::tell(alloc, told, case),
        "pickle" => pickles::tell_pickle(alloc, told, case),
        "found" => pickles::tell_found(alloc, told, case),
        "double" => pickles::tell_double(told, case),
        "slow-json" => slow_json::tell_sweep(alloc, told, case),
        "read-json" => read_json::tell_read(alloc, told, case),
        _ => told.malformed(),
    }
}
