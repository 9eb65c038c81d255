//! Metric lines.

use crate::given::joined;
use crate::{numbers, paths};
use case_lines::{Case, Told};
use fixed_num::{legal_moment, wide};
use metric_line::{Datum, LineFault, StampFault, read_line, read_line_over};
use metric_path::MetricPath;
use std::alloc::Global;

/// `line NOW LINE`: the path, the thousandths and the time of the line at the moment now, or why it is refused.
pub fn tell_line(alloc: Global, told: &mut Told, case: &Case) {
    let Some(now) = legal_moment(case.number_at(0, told)) else {
        return told.malformed();
    };
    match read_line(alloc, &joined(alloc, case, 1, told), now) {
        Ok(datum) => push_datum(told, &datum),
        Err(fault) => push_fault(told, fault),
    }
}

/// `lines-over NOW LINE..`: the same of several lines, each read in the memory of the path before it.
pub fn tell_lines_over(alloc: Global, told: &mut Told, case: &Case) {
    let now = case.number_at(0, told);
    let mut spare = None;
    for line in case.rest(1) {
        if !told.is_empty() {
            told.push_str(", ");
        }
        tell_over(alloc, told, now, &mut spare, line.as_slice());
    }
}

fn tell_over(
    alloc: Global,
    told: &mut Told,
    now: u64,
    spare: &mut Option<MetricPath>,
    line: &[u8],
) {
    let Some(now) = legal_moment(now) else {
        return told.malformed();
    };
    match read_line_over(alloc, spare, line, now) {
        Ok(datum) => {
            push_datum(told, &datum);
            *spare = Some(datum.path);
        }
        Err(fault) => push_fault(told, fault),
    }
}

fn push_datum(told: &mut Told, datum: &Datum) {
    let path = datum.path.as_str();
    write!(told, "{path} {} {}", wide(datum.value), datum.time);
}

// The words of a fault.
fn push_fault(told: &mut Told, fault: LineFault) {
    match fault {
        LineFault::Fields(count) => write!(told, "fields {count}"),
        LineFault::Path(fault) => {
            told.push_str("path ");
            paths::push_fault(told, fault);
        }
        LineFault::Value(fault) => {
            told.push_str("value ");
            numbers::push_fault(told, fault);
        }
        LineFault::Time(StampFault::NotNumber) => told.push_str("time no number"),
        LineFault::Time(StampFault::OutOfRange) => told.push_str("time out of range"),
        LineFault::NoMemory => told.push_str("no memory"),
    }
}
