//! Drain orders over many metrics.

use crate::orders::{Drains, strategy_in};
use case_lines::{Case, CaseFault, Told};
use drain_order::Strategy;
use metric_path::{MetricPath, PathFault};
use std::alloc::{AllocError, Global};

/// `order-many STRATEGY COUNT`: `in order` where so many metrics, put in falling order of their paths, are drained in the order in which
/// they came under `naive`, and else in the order of their paths.
pub fn tell_many(alloc: Global, told: &mut Told, case: &Case) {
    let strategy = strategy_in(case.text_at(0, told), told);
    let count = case.small_at(1, told);
    let mut drains = Drains::new(alloc, strategy);
    if put_numbers(&mut drains, alloc, count) {
        tell_drained(alloc, told, &mut drains, strategy, count);
    } else {
        told.fail(CaseFault::NoMemory);
    }
}

fn tell_drained(
    alloc: Global,
    told: &mut Told,
    drains: &mut Drains,
    strategy: Strategy,
    count: u32,
) {
    match drain_numbers(drains, alloc, count, strategy) {
        Ok(true) => told.push_str("in order"),
        Ok(false) => told.push_str("out of order"),
        Err(_) => told.fail(CaseFault::NoMemory),
    }
}

// The path of a number: `m.` and its six digits.
fn number_path(alloc: Global, number: u32) -> Result<MetricPath, PathFault> {
    let mut text = *b"m.000000";
    let mut rest = number;
    for place in 0..6 {
        text[7 - place] = b'0' + (rest % 10) as u8;
        rest /= 10;
    }
    MetricPath::new(alloc, &text)
}

// The number of the metric that is put after so many others: the greatest comes first.
fn falling(count: u32, index: u32) -> u32 {
    count.saturating_sub(index).saturating_sub(1)
}

// Puts a point of each of so many metrics.
fn put_numbers(drains: &mut Drains, alloc: Global, count: u32) -> bool {
    for index in 0..count {
        let Ok(path) = number_path(alloc, falling(count, index)) else {
            return false;
        };
        let _ = drains.put(&path, 1_700_000_100);
    }
    true
}

fn is_path(path: &Option<MetricPath>, text: &[u8]) -> bool {
    match path {
        Some(path) => path.text() == text,
        None => false,
    }
}

// Whether all are drained, in this order.
fn drain_numbers(
    drains: &mut Drains,
    alloc: Global,
    count: u32,
    strategy: Strategy,
) -> Result<bool, AllocError> {
    for index in 0..count {
        let number = match strategy {
            Strategy::Naive => falling(count, index),
            _ => index,
        };
        let Ok(path) = number_path(alloc, number) else {
            return Ok(false);
        };
        if !is_path(&drains.drain()?, path.text()) {
            return Ok(false);
        }
    }
    Ok(drains.look()?.is_none())
}
