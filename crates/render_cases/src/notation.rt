//! Series as words.
//!
//! A series is `NAME@PATH=START/STEP:VALUES`. Its values are in thousandths, with commas between; `_` is a missing one, and `V*N` stands for
//! N times V. Without `@PATH` the path is the name; without `NAME=` the name is `x` and the path `a.b`. A set of series is one word too, with
//! `;` between them, or `-` where there is none.

use case_lines::{Case, Told, halves, read_number, string_of};
use fixed_num::{Milli, narrow, wide, zero};
use series_set::{EvalFault, Reading, Series, SeriesSet};
use std::alloc::Global;

/// The series that a word says, where its numbers make one.
pub fn read_series(alloc: Global, word: &str, told: &mut Told) -> Option<Series> {
    let (head, rest) = word.rsplit_once('=').unwrap_or(("x@a.b", word));
    let (name, path) = head.rsplit_once('@').unwrap_or((head, head));
    let (start, rest) = halves(rest, '/', told);
    let (step, values) = halves(rest, ':', told);
    let start = read_number(start, told);
    let step = read_number(step, told);
    let values = read_values(alloc, values, told);
    let name = string_of(alloc, name, told);
    let path = string_of(alloc, path, told);
    Series::new(name, path, start, step, values)
}

fn read_values(alloc: Global, text: &str, told: &mut Told) -> Vec<Reading> {
    let mut values = Vec::new(alloc);
    if text.is_empty() {
        return values;
    }
    for run in text.split(',') {
        push_run(&mut values, run, told);
    }
    values
}

// One value, or some that are the same.
fn push_run(values: &mut Vec<Reading>, text: &str, told: &mut Told) {
    let (value, count) = text.split_once('*').unwrap_or((text, "1"));
    let value = read_value(value, told);
    let count = read_number(count, told) as usize;
    told.keep(values.resize(values.len().saturating_add(count), value));
}

fn read_value(text: &str, told: &mut Told) -> Reading {
    if text == "_" {
        return Reading::missing();
    }
    Reading::known(known_value(text, told))
}

/// A value in thousandths.
pub fn known_value(text: &str, told: &mut Told) -> Milli {
    match text.parse::<i128>() {
        Ok(number) => held(narrow(number), told),
        Err(_) => held(None, told),
    }
}

fn held(value: Option<Milli>, told: &mut Told) -> Milli {
    let Some(value) = value else {
        told.malformed();
        return zero();
    };
    value
}

fn known_series(alloc: Global, word: &str, told: &mut Told) -> Option<Series> {
    let series = read_series(alloc, word, told);
    if series.is_none() {
        told.malformed();
    }
    series
}

/// The series that is the word at a place.
pub fn series_at(alloc: Global, case: &Case, at: usize, told: &mut Told) -> Option<Series> {
    known_series(alloc, case.text_at(at, told), told)
}

/// The set of series that is the word at a place.
pub fn set_at(alloc: Global, case: &Case, at: usize, told: &mut Told) -> SeriesSet {
    let mut set = SeriesSet::new(alloc);
    let word = case.text_at(at, told);
    if word == "-" {
        return set;
    }
    for part in word.split(';') {
        push_known(&mut set, known_series(alloc, part, told), told);
    }
    set
}

fn push_known(set: &mut SeriesSet, series: Option<Series>, told: &mut Told) {
    if let Some(series) = series {
        told.keep(set.push(series));
    }
}

/// The series that are the words from a place on.
pub fn series_from(alloc: Global, case: &Case, at: usize, told: &mut Told) -> SeriesSet {
    let mut set = SeriesSet::new(alloc);
    for place in at..case.len() {
        push_known(&mut set, series_at(alloc, case, place, told), told);
    }
    set
}

/// Writes values with commas between.
pub fn write_values(told: &mut Told, values: &[Reading]) {
    let mut between = "";
    for value in values {
        told.push_str(between);
        write_value(told, value.get());
        between = ",";
    }
}

fn write_value(told: &mut Told, value: Option<Milli>) {
    match value {
        Some(value) => write!(told, "{}", wide(value)),
        None => told.push('_'),
    }
}

/// Writes a series as the word that says it.
pub fn write_series(told: &mut Told, series: &Series) {
    told.push_str(series.name());
    if series.path() != series.name() {
        write!(told, "@{}", series.path());
    }
    write_points(told, series);
}

/// Writes a series as a word, without its path.
pub fn write_named(told: &mut Told, series: &Series) {
    told.push_str(series.name());
    write_points(told, series);
}

fn write_points(told: &mut Told, series: &Series) {
    write!(told, "={}/{}:", series.start(), series.step());
    write_values(told, series.values());
}

/// Writes the series that were found, with a blank between, or why there are none.
pub fn write_found(told: &mut Told, found: Result<SeriesSet, EvalFault>) {
    match found {
        Ok(set) => write_set(told, &set),
        Err(fault) => write!(told, "{fault}"),
    }
}

fn write_set(told: &mut Told, set: &SeriesSet) {
    let mut between = "";
    for series in set.as_slice() {
        told.push_str(between);
        write_series(told, series);
        between = " ";
    }
}

/// Writes the names of series, with `|` between.
pub fn write_names(told: &mut Told, set: &SeriesSet) {
    let mut between = "";
    for series in set.as_slice() {
        told.push_str(between);
        told.push_str(series.name());
        between = "|";
    }
}
