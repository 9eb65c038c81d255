//! The JSON of series as a reader of JSON has it.

use crate::notation::series_from;
use crate::room::plenty;
use case_lines::{Case, CaseFault, Told};
use render_json::json_text;
use serde_json::Value;
use std::alloc::Global;

/// `read-json SERIES..`: what a reader of JSON has of their text: of each series its name and its points, `[VALUE MOMENT]` as they are read.
/// `unread` stands for what is not of that form.
pub fn tell_read(alloc: Global, told: &mut Told, case: &Case) {
    match json_text(alloc, series_from(alloc, case, 0, told), &plenty()) {
        Ok(text) => write_read(alloc, told, text.as_slice()),
        Err(_) => told.fail(CaseFault::NoMemory),
    }
}

fn write_read(alloc: Global, told: &mut Told, text: &[u8]) {
    match Value::from_slice(alloc, text) {
        Ok(read) => write_list(told, &read),
        Err(_) => told.push_str("unread"),
    }
}

fn write_list(told: &mut Told, read: &Value) {
    let Some(list) = read.as_array() else {
        return told.push_str("unread");
    };
    let mut between = "";
    for object in list.iter() {
        told.push_str(between);
        write_object(told, object);
        between = " ";
    }
}

// A name and a list of points, and nothing else.
fn write_object(told: &mut Told, object: &Value) {
    if object.as_object().map(|members| members.len()) != Some(2) {
        return told.push_str("unread");
    }
    let name = object.get("target").and_then(Value::as_str);
    told.push_str(name.unwrap_or("unread"));
    told.push('=');
    let Some(points) = object.get("datapoints").and_then(Value::as_array) else {
        return told.push_str("unread");
    };
    for point in points.as_slice() {
        write_point(told, point);
    }
}

// A value, or null, and a moment.
fn write_point(told: &mut Told, point: &Value) {
    let Some(pair) = point.as_array() else {
        return told.push_str("[unread]");
    };
    match pair.as_slice() {
        [value, moment] => write!(told, "[{value} {moment}]"),
        _ => told.push_str("[unread]"),
    }
}
