//! Queries that are answered over series.

use crate::notation::series_from;
use crate::plans::read_plan;
use crate::rows::{may_be_evaluated, rows_found};
use case_lines::{Case, CaseFault, Told};
use render_answer::{Answer, Refusal, answer_rows, answer_within};
use render_plan::RenderPlan;
use series_set::{Allowance, SeriesRows};
use std::alloc::{AllocError, Global};

/// `ask QUERY SERIES..`: the body of the query's answer, or `refused` and why there is none. Each path of its targets finds those of the
/// series that it fits, in their order.
pub fn tell_answer(alloc: Global, told: &mut Told, case: &Case) {
    match read_plan(alloc, case.bytes_at(0, told), b"") {
        Ok(plan) => tell_by_plan(alloc, told, case, &plan),
        Err(fault) => write_refusal(alloc, told, &Refusal::Query(fault)),
    }
}

fn tell_by_plan(alloc: Global, told: &mut Told, case: &Case, plan: &RenderPlan) {
    let series = series_from(alloc, case, 1, told);
    match answer_of(alloc, plan, rows_found(alloc, plan.needs(), &series, told)) {
        Ok(answer) => write_answer(alloc, told, &answer),
        Err(fault) => told.fail(fault),
    }
}

fn answer_of(alloc: Global, plan: &RenderPlan, rows: SeriesRows) -> Result<Answer, CaseFault> {
    if !may_be_evaluated(&rows) {
        return Err(CaseFault::Malformed);
    }
    Ok(answer_rows(alloc, plan, rows)?)
}

/// `within BYTES QUERY SERIES..`: the same where the answer may take so many bytes; `no memory` where it takes more.
pub fn tell_answer_within(alloc: Global, told: &mut Told, case: &Case) {
    let room = Allowance::new(case.number_at(0, told));
    tell_answer_in(alloc, told, case, room);
}

/// `working WORK QUERY SERIES..`: the same where so much may be done; `no memory` where it is more.
pub fn tell_answer_working(alloc: Global, told: &mut Told, case: &Case) {
    let room = Allowance::with_work(1 << 40, case.number_at(0, told));
    tell_answer_in(alloc, told, case, room);
}

fn tell_answer_in(alloc: Global, told: &mut Told, case: &Case, room: Allowance) {
    match read_plan(alloc, case.bytes_at(1, told), b"") {
        Ok(plan) => tell_in_room(alloc, told, case, &plan, room),
        Err(_) => told.malformed(),
    }
}

fn tell_in_room(alloc: Global, told: &mut Told, case: &Case, plan: &RenderPlan, room: Allowance) {
    let series = series_from(alloc, case, 2, told);
    let rows = rows_found(alloc, plan.needs(), &series, told);
    if !may_be_evaluated(&rows) {
        return told.malformed();
    }
    match answer_within(alloc, plan, rows, room) {
        Ok(answer) => write_answer(alloc, told, &answer),
        Err(_) => told.push_str("no memory"),
    }
}

fn write_answer(alloc: Global, told: &mut Told, answer: &Answer) {
    match answer {
        Answer::Body(_, text) => write_text(told, text.as_slice()),
        Answer::Refused(why) => write_refusal(alloc, told, why),
    }
}

fn write_refusal(alloc: Global, told: &mut Told, why: &Refusal) {
    told.push_str("refused ");
    write_made(told, why.text(alloc));
}

/// Writes a text that was made.
pub fn write_made(told: &mut Told, text: Result<Vec<u8>, AllocError>) {
    match text {
        Ok(text) => write_text(told, text.as_slice()),
        Err(_) => told.fail(CaseFault::NoMemory),
    }
}

/// Writes bytes that are a text.
pub fn write_text(told: &mut Told, bytes: &[u8]) {
    match str::from_utf8(bytes) {
        Ok(text) => told.push_str(text),
        Err(_) => told.malformed(),
    }
}
