//! Times and spans of a query.

use case_lines::{Case, Told};
use time_range::{TimeFault, read_span, read_time};

/// `time NOW TEXT`: the moment that the text says at the moment now, or its fault.
pub fn tell_time(told: &mut Told, case: &Case) {
    match read_time(case.text_at(1, told), case.number_at(0, told)) {
        Ok(moment) => write!(told, "{moment}"),
        Err(fault) => push_fault(told, fault),
    }
}

/// `span TEXT`: the seconds that the text says, with `+` where they lead into the future and else `-`, or its fault.
pub fn tell_span(told: &mut Told, case: &Case) {
    match read_span(case.text_at(0, told)) {
        Ok(span) => {
            told.push(if span.past { '-' } else { '+' });
            write!(told, "{}", span.seconds);
        }
        Err(fault) => push_fault(told, fault),
    }
}

// The words of a fault.
fn push_fault(told: &mut Told, fault: TimeFault) {
    told.push_str(match fault {
        TimeFault::NotTime => "no time",
        TimeFault::BeforeEpoch => "before the epoch",
        TimeFault::TooLate => "too late",
    });
}
