//! Series that are combined and divided.

use crate::early::are_combinable;
use crate::notation::{series_from, set_at, write_found};
use crate::room::plenty;
use case_lines::{Case, Told};
use series_funcs::{Combine, combine, divide};
use std::alloc::Global;

/// Tells what the case of one of these verbs tells.
pub fn tell(alloc: Global, told: &mut Told, case: &Case) {
    match case.verb() {
        "combine" => tell_combined(alloc, told, case),
        _ => tell_quotients(alloc, told, case),
    }
}

/// `combine HOW NAME PATH SERIES..`: the series that they make, under the name and the path, or why there is none.
fn tell_combined(alloc: Global, told: &mut Told, case: &Case) {
    let kind = read_combine(case.text_at(0, told), told);
    let name = case.text_at(1, told);
    let path = case.text_at(2, told);
    let set = series_from(alloc, case, 3, told);
    if !are_combinable(set.as_slice()) {
        return told.malformed();
    }
    write_found(told, combine(alloc, kind, &set, name, path, &mut plenty()));
}

/// How a word says that series are combined.
pub fn read_combine(word: &str, told: &mut Told) -> Combine {
    match word {
        "sum" => Combine::Sum,
        "average" => Combine::Average,
        "min" => Combine::Min,
        "max" => Combine::Max,
        "range" => Combine::Range,
        "diff" => Combine::Diff,
        "multiply" => Combine::Multiply,
        _ => {
            told.malformed();
            Combine::Sum
        }
    }
}

/// `divide SET SET`: the series of the first over those of the second, or why there are none.
fn tell_quotients(alloc: Global, told: &mut Told, case: &Case) {
    let dividends = set_at(alloc, case, 0, told);
    let divisors = set_at(alloc, case, 1, told);
    if !are_combinable(dividends.as_slice()) || !are_combinable(divisors.as_slice()) {
        return told.malformed();
    }
    write_found(told, divide(alloc, &dividends, &divisors, &mut plenty()));
}
