//! Rules of aggregation, and what they emit for the points of a link.

use crate::words::{Point, path_in, point_in};
use aggregate_front::{AggCause, AggFault, AggRules, Aggregator, LINK_LIMITS, Limits};
use case_lines::{Case, CaseFault, Told, halves, made, read_small, read_text};
use fixed_num::{legal_moment, wide};
use metric_line::Datum;
use metric_path::MetricPath;
use std::alloc::{AllocError, Global};

/// `agg-rules TEXT`: `read`, or why the file is refused.
pub fn tell_rules(alloc: Global, told: &mut Told, case: &Case) {
    match AggRules::read(alloc, case.bytes_at(0, told)) {
        Ok(_) => told.push_str("read"),
        Err(AggFault::Fault(cause)) => tell_cause(told, cause),
        Err(AggFault::NoMemory) => told.fail(CaseFault::NoMemory),
    }
}

fn tell_cause(told: &mut Told, cause: AggCause) {
    match cause {
        AggCause::TooLong => told.push_str("too long"),
        AggCause::Line(n) => write!(told, "line {n}"),
    }
}

/// `agg-limits`: how many outputs and points a link holds.
pub fn tell_limits(told: &mut Told) {
    write!(told, "{} {}", LINK_LIMITS.outputs, LINK_LIMITS.points);
}

/// `aggregate RULES POINTS..`: what these rules emit for the points of a link: behind `N>` what its Nth point emits, and behind `end`
/// what its end does. Points are `PATH@TIME:VALUE`; behind that, `*N` says N of them, and `?` in the path is the number of each of
/// these, from 0 on.
pub fn tell_emitted(alloc: Global, told: &mut Told, case: &Case) {
    let rules = case.bytes_at(0, told);
    tell_link(alloc, told, rules, LINK_LIMITS, case.rest(1));
}

/// `aggregate-within OUTPUTS POINTS RULES POINTS..`: the same with other limits of outputs and of points.
pub fn tell_within(alloc: Global, told: &mut Told, case: &Case) {
    let limits = Limits {
        outputs: case.small_at(0, told),
        points: case.small_at(1, told),
    };
    let rules = case.bytes_at(2, told);
    tell_link(alloc, told, rules, limits, case.rest(3));
}

fn tell_link(alloc: Global, told: &mut Told, rules: &[u8], limits: Limits, words: &[Vec<u8>]) {
    if let Some(rules) = rules_in(alloc, rules, told) {
        tell_by_rules(alloc, told, &rules, limits, words);
    }
}

fn tell_by_rules(
    alloc: Global,
    told: &mut Told,
    rules: &AggRules,
    limits: Limits,
    words: &[Vec<u8>],
) {
    if let Some(emitted) = emitted_within(alloc, told, rules, limits, words) {
        tell_last(told, &emitted);
    }
}

// What the end of a link emits behind these words, which are told one by one. What holds an
// aggregator has no way out before its end: each of them drops it.
fn emitted_within(
    alloc: Global,
    told: &mut Told,
    rules: &AggRules,
    limits: Limits,
    words: &[Vec<u8>],
) -> Option<Vec<Datum>> {
    if limits.points >= 31_536_000 {
        told.malformed();
        return None;
    }
    let mut aggregator = Aggregator::within(alloc, rules, limits);
    feed_words(alloc, told, &mut aggregator, words);
    room_for(aggregator.finish(), told)
}

fn room_for(emitted: Result<Vec<Datum>, AllocError>, told: &mut Told) -> Option<Vec<Datum>> {
    match emitted {
        Ok(emitted) => Some(emitted),
        Err(_) => {
            told.fail(CaseFault::NoMemory);
            None
        }
    }
}

fn tell_last(told: &mut Told, emitted: &[Datum]) {
    told.push_blank();
    told.push_str("end");
    tell_points(told, emitted);
}

/// `aggregate-end RULES POINTS..`: how many points the link's end emits, and the first and the last of them.
pub fn tell_end(alloc: Global, told: &mut Told, case: &Case) {
    if let Some(rules) = rules_in(alloc, case.bytes_at(0, told), told) {
        tell_end_by(alloc, told, &rules, case.rest(1));
    }
}

fn tell_end_by(alloc: Global, told: &mut Told, rules: &AggRules, words: &[Vec<u8>]) {
    if let Some(emitted) = emitted_at_end(alloc, told, rules, words) {
        tell_count(told, &emitted);
    }
}

fn emitted_at_end(
    alloc: Global,
    told: &mut Told,
    rules: &AggRules,
    words: &[Vec<u8>],
) -> Option<Vec<Datum>> {
    let Ok(mut aggregator) = Aggregator::new(alloc, rules) else {
        told.fail(CaseFault::NoMemory);
        return None;
    };
    feed_words(alloc, told, &mut aggregator, words);
    room_for(aggregator.finish(), told)
}

fn tell_count(told: &mut Told, emitted: &[Datum]) {
    told.push_blank();
    write!(told, "{}", emitted.len());
    tell_ends(told, emitted);
}

fn tell_ends(told: &mut Told, points: &[Datum]) {
    if let Some(first) = points.first() {
        tell_point(told, first);
    }
    if let Some(last) = points.last() {
        tell_point(told, last);
    }
}

fn rules_in(alloc: Global, text: &[u8], told: &mut Told) -> Option<AggRules> {
    match AggRules::read(alloc, text) {
        Ok(rules) => Some(rules),
        Err(_) => {
            told.malformed();
            None
        }
    }
}

fn feed_words(alloc: Global, told: &mut Told, aggregator: &mut Aggregator<'_>, words: &[Vec<u8>]) {
    let mut fed = 0;
    for word in words {
        let word = read_text(word, told);
        feed_word(alloc, told, aggregator, &mut fed, word);
    }
}

fn feed_word(
    alloc: Global,
    told: &mut Told,
    aggregator: &mut Aggregator<'_>,
    fed: &mut u64,
    word: &str,
) {
    let (point, count) = word.split_once('*').unwrap_or((word, "1"));
    let (path, point) = halves(point, '@', told);
    let point = point_in(point, told);
    for number in 0..read_small(count, told) {
        *fed = fed.saturating_add(1);
        if let Some(datum) = made(datum_of(alloc, path, number, &point), told) {
            feed(told, aggregator, *fed, &datum);
        }
    }
}

// A point of the path with a number in the place of its `?`.
fn datum_of(alloc: Global, path: &str, number: u32, point: &Point) -> Result<Datum, CaseFault> {
    let path = numbered(alloc, path, number)?;
    let _ = wide(point.value);
    match legal_moment(u64::from(point.time)) {
        Some(time) => Ok(Datum {
            path,
            time,
            value: point.value,
        }),
        None => Err(CaseFault::Malformed),
    }
}

// The path, with a number in the place of its `?`, if it has one.
fn numbered(alloc: Global, path: &str, number: u32) -> Result<MetricPath, CaseFault> {
    let Some((front, rest)) = path.split_once('?') else {
        return path_in(alloc, path.as_bytes());
    };
    let mut text = String::new(alloc);
    write!(text, "{front}{number}{rest}")?;
    path_in(alloc, text.as_bytes())
}

fn feed(told: &mut Told, aggregator: &mut Aggregator<'_>, fed: u64, datum: &Datum) {
    match aggregator.feed(datum) {
        Ok(emitted) => tell_fed(told, fed, &emitted),
        Err(_) => told.fail(CaseFault::NoMemory),
    }
}

fn tell_fed(told: &mut Told, fed: u64, emitted: &[Datum]) {
    if !emitted.is_empty() {
        told.push_blank();
        write!(told, "{fed}>");
        tell_points(told, emitted);
    }
}

fn tell_points(told: &mut Told, points: &[Datum]) {
    for point in points {
        tell_point(told, point);
    }
}

fn tell_point(told: &mut Told, point: &Datum) {
    write!(
        told,
        " {}@{}:{}",
        point.path.as_str(),
        point.time,
        wide(point.value)
    );
}
