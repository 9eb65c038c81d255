//! A slow writer of JSON, which prints each number whole and from the front, and series that are written by it too.

use crate::room::plenty;
use case_lines::{Case, CaseFault, Told, push_item, string_of};
use fixed_num::{Milli, narrow, wide};
use render_json::json_text;
use series_set::{LATEST_END, Reading, Series, SeriesSet};
use std::alloc::Global;

/// How many values a generated series has: of seven kinds, with three numbers round each of 19 powers of ten.
const PLACES: u32 = 399;

/// `slow-json STEP`: how many series of this step were generated, and whether the slow writer has the same text.
pub fn tell_sweep(alloc: Global, told: &mut Told, case: &Case) {
    let step = case.number_at(0, told);
    let set = generated_set(alloc, step, told);
    match slow_json(alloc, &set) {
        Ok(slow) => tell_beside(alloc, told, set, slow.as_bytes()),
        Err(fault) => told.fail(fault),
    }
}

fn tell_beside(alloc: Global, told: &mut Told, set: SeriesSet, slow: &[u8]) {
    write!(told, "{} ", set.len());
    match json_text(alloc, set, &plenty()) {
        Ok(text) => told.push_str(same_or_another(text.as_slice() == slow)),
        Err(_) => told.fail(CaseFault::NoMemory),
    }
}

fn same_or_another(is_same: bool) -> &'static str {
    if is_same { "the same" } else { "another text" }
}

// The whole part, a point, and of three decimals those up to the last that is not 0, but one at least.
fn push_slow_size(text: &mut Told, size: u128) {
    let (whole, rest) = (size / 1000, size % 1000);
    if rest % 100 == 0 {
        return write!(text, "{whole}.{}", rest / 100);
    }
    if rest % 10 == 0 {
        return write!(text, "{whole}.{:02}", rest / 10);
    }
    write!(text, "{whole}.{rest:03}");
}

fn push_slow_value(text: &mut Told, value: Option<Milli>) {
    let Some(value) = value else {
        return text.push_str("null");
    };
    let number = wide(value);
    if number < 0 {
        text.push('-');
    }
    push_slow_size(text, number.unsigned_abs());
}

fn push_slow_points(text: &mut Told, series: &Series) {
    let mut time = series.start();
    let mut between = "";
    for value in series.values() {
        write!(text, "{between}[");
        push_slow_value(text, value.get());
        write!(text, ", {time}]");
        between = ", ";
        time = time.saturating_add(series.step());
    }
}

// The JSON of series whose names need no escapes.
fn slow_json(alloc: Global, set: &SeriesSet) -> Result<String, CaseFault> {
    let mut text = Told::new(alloc);
    text.push('[');
    let mut between = "";
    for series in set.as_slice() {
        write!(text, "{between}{{\"target\": \"{}\", ", series.name());
        text.push_str("\"datapoints\": [");
        push_slow_points(&mut text, series);
        text.push_str("]}");
        between = ", ";
    }
    text.push(']');
    text.finish()
}

// The greatest value, in thousandths.
const GREATEST: i128 = 1_000_000_000_000_000_000_000_000_000_000;

// A value next to a power of ten, above 0 or below, none, the least, the greatest, or a small one.
fn value_at(place: u32) -> Option<Milli> {
    let power = 10i128.saturating_pow(place % 31);
    let near = power
        .saturating_add(i128::from(place % 3) - 1)
        .min(GREATEST);
    narrow(match place % 7 {
        0 => near,
        1 => 0i128.saturating_sub(near),
        2 => return None,
        3 => 0i128.saturating_sub(GREATEST),
        4 => GREATEST,
        _ => i128::from(place) * 13,
    })
}

fn generated_values(alloc: Global, told: &mut Told) -> Vec<Reading> {
    let mut values = Vec::new(alloc);
    for place in 0..PLACES {
        push_item(&mut values, Reading::of(value_at(place)), told);
    }
    values
}

fn push_generated(alloc: Global, set: &mut SeriesSet, start: u64, step: u64, told: &mut Told) {
    let name = string_of(alloc, "sum(a.*)", told);
    let path = string_of(alloc, "a.b", told);
    let values = generated_values(alloc, told);
    if let Some(series) = Series::new(name, path, start, step, values) {
        told.keep(set.push(series));
    }
}

// Series of a step that pass each power of ten up to 10^18, and one that ends as late as one may.
fn generated_set(alloc: Global, step: u64, told: &mut Told) -> SeriesSet {
    let length = step.saturating_mul(u64::from(PLACES));
    let mut set = SeriesSet::new(alloc);
    for exponent in 0..19 {
        let start = 10u64.saturating_pow(exponent).saturating_sub(length / 2);
        push_generated(alloc, &mut set, start, step, told);
    }
    let last = LATEST_END.saturating_sub(length);
    push_generated(alloc, &mut set, last, step, told);
    set
}
