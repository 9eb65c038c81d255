//! Series as JSON, raw text and comma-separated values.
ghost use Rattle.std.specs.Prelude.{◌≤◌, All, IsTrue};
ghost use Rattle.render_json.specs.Csv.{latest_csv_end};
ghost use Rattle.series_set.specs.Series.{end_of};

use crate::answers::{write_made, write_text};
use crate::notation::series_from;
use crate::room::plenty;
use case_lines::{Case, CaseFault, Told};
use render_json::{LATEST_CSV_END, csv_text, json_text, raw_text};
use serde_json::Value;
use series_set::{Series, SeriesSet};
use std::alloc::Global;

/// Tells what the case of one of these verbs tells.
pub fn tell(alloc: Global, told: &mut Told, case: &Case) {
    let set = series_from(alloc, case, 0, told);
    match case.verb() {
        "json" => tell_json(alloc, told, case, set),
        "raw" => write_made(told, raw_text(alloc, set, &plenty())),
        _ => tell_csv(alloc, told, set),
    }
}

/// `json SERIES..`: their JSON; behind it ` misread` where a reader of JSON finds other names in it, or other numbers of points.
fn tell_json(alloc: Global, told: &mut Told, case: &Case, set: SeriesSet) {
    match json_text(alloc, set, &plenty()) {
        Ok(text) => tell_text(alloc, told, case, text.as_slice()),
        Err(_) => told.fail(CaseFault::NoMemory),
    }
}

fn tell_text(alloc: Global, told: &mut Told, case: &Case, text: &[u8]) {
    write_text(told, text);
    let set = series_from(alloc, case, 0, told);
    if !reads_back(alloc, text, set.as_slice()) {
        told.push_str(" misread");
    }
}

// Whether a text reads as a list of objects with these names and as many points.
fn reads_back(alloc: Global, text: &[u8], set: &[Series]) -> bool {
    let Ok(read) = Value::from_slice(alloc, text) else {
        return false;
    };
    let Some(list) = read.as_array() else {
        return false;
    };
    list.len() == set.len()
        && list
            .iter()
            .zip(set)
            .all(|(object, series)| is_read(object, series))
}

fn is_read(object: &Value, series: &Series) -> bool {
    let points = object.get("datapoints").and_then(Value::as_array);
    object.get("target").and_then(Value::as_str) == Some(series.name())
        && points.map(|points| points.len()) == Some(series.values().len())
}

/// `csv SERIES..`: their comma-separated values.
fn tell_csv(alloc: Global, told: &mut Told, set: SeriesSet) {
    if !have_dates(&set) {
        return told.malformed();
    }
    write_made(told, csv_text(alloc, set, &plenty()));
}

fn have_dates(set: &SeriesSet) -> bool
    ensures { IsTrue result → All (λ s. end_of s ≤ latest_csv_end) set.now }
{
    set.as_slice()
        .iter()
        .all(|series| series.end() <= LATEST_CSV_END)
}
