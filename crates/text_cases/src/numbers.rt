//! Numbers.

use crate::telling::push_bytes;
use case_lines::{Case, Told};
use fixed_num::{
    MILLI_TEXT, Milli, NumFault, legal_moment, milli_front, narrow, print_milli, read_milli,
    read_millionths, read_nano, read_whole, wide, zero,
};

/// `whole TEXT`: the whole number, or `none`.
pub fn tell_whole(told: &mut Told, case: &Case) {
    match read_whole(case.bytes_at(0, told)) {
        Some(number) => write!(told, "{number}"),
        None => told.push_str("none"),
    }
}

/// `milli TEXT`: the value in thousandths, or its fault.
pub fn tell_milli(told: &mut Told, case: &Case) {
    match read_milli(case.bytes_at(0, told)) {
        Ok(value) => write!(told, "{}", wide(value)),
        Err(fault) => push_fault(told, fault),
    }
}

/// `milli-front TEXT`: the value in thousandths at the front of the text and the bytes that it takes, or `none`.
pub fn tell_front(told: &mut Told, case: &Case) {
    match milli_front(case.bytes_at(0, told)) {
        Some(front) => write!(told, "{} of {}", wide(front.value), front.len),
        None => told.push_str("none"),
    }
}

/// `milli-text VALUE`: the text of a value in thousandths.
pub fn tell_text(told: &mut Told, case: &Case) {
    let mut text = [0; MILLI_TEXT];
    let length = print_milli(value_at(case, 0, told), &mut text);
    push_bytes(told, text.get(..length).unwrap_or(&[]));
}

/// `nano TEXT`: the number in billionths, or its fault.
pub fn tell_nano(told: &mut Told, case: &Case) {
    match read_nano(case.bytes_at(0, told)) {
        Ok(value) => write!(told, "{value}"),
        Err(fault) => push_fault(told, fault),
    }
}

/// `millionths TEXT`: the number from 0 to 1 in millionths, or its fault.
pub fn tell_millionths(told: &mut Told, case: &Case) {
    match read_millionths(case.bytes_at(0, told)) {
        Ok(value) => write!(told, "{value}"),
        Err(fault) => push_fault(told, fault),
    }
}

/// `narrow VALUE MORE`: the sum of both as a value, or `none` where it is none.
pub fn tell_narrow(told: &mut Told, case: &Case) {
    let value = wide(value_at(case, 0, told));
    let more = wide(value_at(case, 1, told));
    match narrow(value.saturating_add(more)) {
        Some(value) => write!(told, "{}", wide(value)),
        None => told.push_str("none"),
    }
}

// A value in thousandths.
fn value_at(case: &Case, at: usize, told: &mut Told) -> Milli {
    match case.text_at(at, told).parse::<i128>() {
        Ok(number) => known(narrow(number), told),
        Err(_) => known(None, told),
    }
}

fn known(value: Option<Milli>, told: &mut Told) -> Milli {
    let Some(value) = value else {
        told.malformed();
        return zero();
    };
    value
}

/// `moment NUMBER`: the number of seconds as a moment, or `none` where it is no legal one.
pub fn tell_moment(told: &mut Told, case: &Case) {
    match legal_moment(case.number_at(0, told)) {
        Some(moment) => write!(told, "{moment}"),
        None => told.push_str("none"),
    }
}

/// The words of a fault.
pub fn push_fault(told: &mut Told, fault: NumFault) {
    told.push_str(match fault {
        NumFault::OutOfRange => "out of range",
        NumFault::NotFinite => "not finite",
        NumFault::NotNumber => "no number",
    });
}
