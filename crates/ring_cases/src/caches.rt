//! Pending points.

use crate::words::{path_in, point_in};
use case_lines::{Case, CaseFault, Told, read_text};
use fixed_num::{Milli, wide};
use metric_path::MetricPath;
use point_cache::{PointCache, Put};
use std::alloc::Global;

/// `cache LIMIT WORD..`: what each word tells of a cache with room for so many points. `PATH@TIME:VALUE` puts a point, and tells what
/// became of it; `points:PATH` tells the points of a metric, and `take:PATH` those that it takes; `count`, `full` and `arrivals` tell
/// how many points are pending, whether there is no room, and the metrics in the order in which they came.
pub fn tell_cache(alloc: Global, told: &mut Told, case: &Case) {
    let limit = case.number_at(0, told);
    if limit == 0 {
        return told.malformed();
    }
    let mut cache = PointCache::new(alloc, limit);
    for word in case.rest(1) {
        told.push_blank();
        let word = read_text(word, told);
        take_word(alloc, told, &mut cache, word);
    }
}

fn take_word(alloc: Global, told: &mut Told, cache: &mut PointCache, word: &str) {
    if let Some((path, point)) = word.split_once('@') {
        return put(alloc, told, cache, path, point);
    }
    match word.split_once(':') {
        Some((verb, path)) => tell_of_path(alloc, told, cache, verb, path),
        None => tell_state(alloc, told, cache, word),
    }
}

fn put(alloc: Global, told: &mut Told, cache: &mut PointCache, path: &str, point: &str) {
    let point = point_in(point, told);
    match path_in(alloc, path.as_bytes()) {
        Ok(path) => tell_put(told, cache.put(&path, point.time, point.value)),
        Err(fault) => told.fail(fault),
    }
}

fn tell_put(told: &mut Told, put: Put) {
    match put {
        Put::Stored => told.push_str("stored"),
        Put::Replaced => told.push_str("replaced"),
        Put::Full => told.push_str("full"),
        Put::NoMemory => told.fail(CaseFault::NoMemory),
    }
}

fn tell_of_path(alloc: Global, told: &mut Told, cache: &mut PointCache, verb: &str, path: &str) {
    match path_in(alloc, path.as_bytes()) {
        Ok(path) => tell_of(told, cache, verb, &path),
        Err(fault) => told.fail(fault),
    }
}

fn tell_of(told: &mut Told, cache: &mut PointCache, verb: &str, path: &MetricPath) {
    match verb {
        "points" => tell_points(told, cache.points_of(path)),
        "take" => take(told, cache, path),
        _ => told.malformed(),
    }
}

fn take(told: &mut Told, cache: &mut PointCache, path: &MetricPath) {
    let Some(place) = cache.place_of(path) else {
        return told.push('-');
    };
    let (_, points) = cache.take(place);
    tell_points(told, points.list());
}

fn tell_points(told: &mut Told, points: &[(u32, Milli)]) {
    if points.is_empty() {
        return told.push('-');
    }
    for (i, (time, value)) in points.iter().enumerate() {
        if i > 0 {
            told.push(',');
        }
        write!(told, "{time}:{}", wide(*value));
    }
}

fn tell_state(alloc: Global, told: &mut Told, cache: &PointCache, word: &str) {
    match word {
        "count" => write!(told, "{}", cache.count()),
        "full" => told.push_str(if cache.is_full() { "full" } else { "room" }),
        "arrivals" => tell_arrivals(alloc, told, cache),
        _ => told.malformed(),
    }
}

fn tell_arrivals(alloc: Global, told: &mut Told, cache: &PointCache) {
    let Ok(arrivals) = cache.in_arrival_order(alloc) else {
        return told.fail(CaseFault::NoMemory);
    };
    if arrivals.len() == 0 {
        told.push('-');
    }
    for index in 0..arrivals.len() {
        if index > 0 {
            told.push(',');
        }
        tell_path_at(told, cache, arrivals.place(index));
    }
}

fn tell_path_at(told: &mut Told, cache: &PointCache, place: usize) {
    if place >= cache.metrics() {
        return told.push('?');
    }
    told.push_str(cache.path(place).as_str());
}
