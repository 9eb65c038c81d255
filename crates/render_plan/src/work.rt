//! How much work it is to evaluate a query, beside what the functions take. One is a nanosecond or two, at worst.
use series_set::{Series, SeriesSet};

/// What a call takes that has no series.
const CALL: u64 = 1_000;

/// What a series takes that goes through a call, beside its name and its values.
const SERIES: u64 = 500;

/// What it is to copy, compare or write a byte of a name.
const BYTE: u64 = 2;

/// What it is to have a value among those of which an average is taken.
const VALUE: u64 = 8;

/// How much a call over these series is, beside what it makes of their values and names.
pub(crate) fn of_call(sets: &[SeriesSet]) -> u64 {
    let mut all = CALL;
    for set in sets {
        all = all.saturating_add(of_names(set.as_slice()));
    }
    all
}

fn of_names(set: &[Series]) -> u64 {
    let mut all: u64 = 0;
    for series in set {
        let name = BYTE.saturating_mul(series.name().len() as u64);
        all = all.saturating_add(SERIES).saturating_add(name);
    }
    all
}

/// How much it is to thin the series, where that is asked.
pub(crate) fn of_thinning(most: Option<u64>, set: &SeriesSet) -> u64 {
    let mut all: u64 = 0;
    if most.is_none() {
        return all;
    }
    for series in set.as_slice() {
        all = all.saturating_add(VALUE.saturating_mul(series.values().len() as u64));
    }
    all
}
