//! Which metric is drained next.
ghost use Rattle.std.proofs.Props.{props};
ghost use Rattle.drain_order.specs.Picking.{Follows};

use crate::words::path_in;
use case_lines::{Case, CaseFault, Told, halves, read_small, read_text};
use drain_order::{Picker, Strategy};
use fixed_num::milli_of;
use metric_path::MetricPath;
use point_cache::{PointCache, Put};
use std::alloc::{AllocError, Global};

/// A cache, and the picker that drains it.
#[derive(Drop)]
pub struct Drains {
    cache: PointCache,
    picker: Picker,
    ghost follows: { Follows picker cache.metrics } by { Prim.hlevel props },
}

impl Drains {
    /// Nothing pending.
    pub fn new(alloc: Global, strategy: Strategy) -> Drains {
        Drains {
            cache: PointCache::new(alloc, 1_000_000),
            picker: Picker::new(alloc, strategy),
        }
    }

    /// Puts a point.
    pub fn put(&mut self, path: &MetricPath, time: u32) -> Put {
        self.cache.put(path, time, milli_of(7000))
    }

    /// The path that is picked, and not used.
    pub fn look(&mut self) -> Result<Option<MetricPath>, AllocError> {
        match self.picker.pick(&self.cache)? {
            Some(place) => Ok(Some(self.cache.path(place).copy()?)),
            None => Ok(None),
        }
    }

    /// The path that is picked and drained.
    pub fn drain(&mut self) -> Result<Option<MetricPath>, AllocError> {
        match self.picker.pick(&self.cache)? {
            Some(place) => {
                let (path, _) = self.cache.take(place);
                self.picker.settle();
                Ok(Some(path))
            }
            None => Ok(None),
        }
    }
}

/// A strategy by its name.
pub fn strategy_in(text: &str, told: &mut Told) -> Strategy {
    match text {
        "max" => Strategy::Max,
        "sorted" => Strategy::Sorted,
        "timesorted" => Strategy::TimeSorted,
        "naive" => Strategy::Naive,
        _ => {
            told.malformed();
            Strategy::Naive
        }
    }
}

/// `order STRATEGY WORD..`: `PATH@TIMExN` puts N points of a metric, one a minute from a time on; `look` tells the metric that is picked,
/// and `drain` the one that is picked and drained; `-` is none.
pub fn tell_order(alloc: Global, told: &mut Told, case: &Case) {
    let strategy = strategy_in(case.text_at(0, told), told);
    let mut drains = Drains::new(alloc, strategy);
    for word in case.rest(1) {
        let word = read_text(word, told);
        take_word(alloc, told, &mut drains, word);
    }
}

fn take_word(alloc: Global, told: &mut Told, drains: &mut Drains, word: &str) {
    match word {
        "look" => tell_path(told, drains.look()),
        "drain" => tell_path(told, drains.drain()),
        _ => put_points(alloc, told, drains, word),
    }
}

fn tell_path(told: &mut Told, path: Result<Option<MetricPath>, AllocError>) {
    told.push_blank();
    match path {
        Ok(Some(path)) => told.push_str(path.as_str()),
        Ok(None) => told.push('-'),
        Err(_) => told.fail(CaseFault::NoMemory),
    }
}

fn put_points(alloc: Global, told: &mut Told, drains: &mut Drains, word: &str) {
    let (path, points) = halves(word, '@', told);
    let (time, count) = halves(points, 'x', told);
    let first = read_small(time, told);
    let count = read_small(count, told);
    match path_in(alloc, path.as_bytes()) {
        Ok(path) => put_each(told, drains, &path, first, count),
        Err(fault) => told.fail(fault),
    }
}

fn put_each(told: &mut Told, drains: &mut Drains, path: &MetricPath, first: u32, count: u32) {
    for minute in 0..count {
        let time = minute.saturating_mul(60).saturating_add(first);
        if drains.put(path, time) == Put::NoMemory {
            told.fail(CaseFault::NoMemory);
        }
    }
}
