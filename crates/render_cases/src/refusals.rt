//! The words of refusals.

use crate::answers::write_made;
use case_lines::{Case, Told};
use render_answer::Refusal;
use render_plan::{QueryFault, TargetCause};
use series_set::EvalFault;
use std::alloc::Global;

/// `refusal WHY NUMBER..`, `fault WHY NUMBER..`: the refusal, as an answer tells it; the fault of a query or of its values behind it, as it is
/// written. A `WHY` is a fault's words as they are told, with `-` for each blank and without numbers.
pub fn tell(alloc: Global, told: &mut Told, case: &Case) {
    let why = read_refusal(case, told);
    match case.verb() {
        "refusal" => write_made(told, why.text(alloc)),
        _ => write_fault(told, &why),
    }
}

fn write_fault(told: &mut Told, why: &Refusal) {
    match why {
        Refusal::Query(fault) => write!(told, "{fault}"),
        Refusal::StepTooWide(step) => write!(told, "{}", EvalFault::StepTooWide(*step)),
        Refusal::GridTooLong(count) => write!(told, "{}", EvalFault::TooLong(*count)),
        Refusal::TooManySeries(_) | Refusal::TooManyPoints(_) => {}
    }
}

fn read_refusal(case: &Case, told: &mut Told) -> Refusal {
    if case.len() == 1 {
        return Refusal::Query(read_plain(case.text_at(0, told), told));
    }
    let number = case.number_at(1, told);
    match case.text_at(0, told) {
        "too-many-series" => Refusal::TooManySeries(number),
        "too-many-points" => Refusal::TooManyPoints(number),
        "step-too-wide" => Refusal::StepTooWide(number),
        "grid-too-long" => Refusal::GridTooLong(number),
        _ => Refusal::Query(read_of_target(case, told)),
    }
}

// The faults of a target, whose number comes first.
fn read_of_target(case: &Case, told: &mut Told) -> QueryFault {
    let target = case.small_at(1, told);
    match case.text_at(0, told) {
        "unreadable" => {
            let place = case.number_at(2, told) as usize;
            QueryFault::Target(target, TargetCause::At(place))
        }
        "too-deep" => QueryFault::Target(target, TargetCause::TooDeep),
        "too-long" => QueryFault::Target(target, TargetCause::TooLong),
        "unknown-function" => QueryFault::UnknownFunction(target),
        "bad-argument" => QueryFault::BadArgument(target),
        _ => {
            told.malformed();
            QueryFault::NoTarget
        }
    }
}

// The faults without a number.
fn read_plain(word: &str, told: &mut Told) -> QueryFault {
    match word {
        "no-target" => QueryFault::NoTarget,
        "too-many-targets" => QueryFault::TooManyTargets,
        "bad-time" => QueryFault::BadTime,
        "from-after-until" => QueryFault::BadRange,
        "bad-format" => QueryFault::BadFormat,
        "bad-maxDataPoints" => QueryFault::BadPoints,
        "no-memory" => QueryFault::NoMemory,
        _ => {
            told.malformed();
            QueryFault::NoTarget
        }
    }
}
