//! Series and nodes as pickles, and the doubles in them.

use crate::notation::{known_value, series_from};
use crate::room::plenty;
use case_lines::{Case, CaseFault, Told, halves, push_item, read_number};
use fixed_num::wide;
use metric_path::MetricPath;
use pickle_form::nearest_double;
use render_pickle::{FoundNode, Interval, find_pickle, render_pickle};
use std::alloc::{AllocError, Global};

/// `pickle SERIES..`: their pickle, two figures for each byte.
pub fn tell_pickle(alloc: Global, told: &mut Told, case: &Case) {
    let set = series_from(alloc, case, 0, told);
    write_pickle(told, render_pickle(alloc, set, &plenty()));
}

/// `found NODE..`: the pickle of these nodes, two figures for each byte. A branch is its path, and a leaf `PATH=FROM/UNTIL`.
pub fn tell_found(alloc: Global, told: &mut Told, case: &Case) {
    let nodes = nodes_of(alloc, case, told);
    write_pickle(told, find_pickle(alloc, nodes.as_slice()));
}

fn nodes_of(alloc: Global, case: &Case, told: &mut Told) -> Vec<FoundNode> {
    let mut nodes = Vec::new(alloc);
    for place in 0..case.len() {
        push_node(alloc, &mut nodes, case.text_at(place, told), told);
    }
    nodes
}

fn push_node(alloc: Global, nodes: &mut Vec<FoundNode>, word: &str, told: &mut Told) {
    let (path, times) = word.split_once('=').unwrap_or((word, ""));
    let interval = read_interval(times, told);
    match MetricPath::new(alloc, path.as_bytes()) {
        Ok(path) => push_item(nodes, FoundNode { path, interval }, told),
        Err(_) => told.malformed(),
    }
}

fn read_interval(text: &str, told: &mut Told) -> Option<Interval> {
    if text.is_empty() {
        return None;
    }
    let (from, until) = halves(text, '/', told);
    let from = read_number(from, told);
    let until = read_number(until, told);
    Some(Interval { from, until })
}

/// `double NUMBER`: the bits of the double nearest to so many thousandths.
pub fn tell_double(told: &mut Told, case: &Case) {
    let number = wide(known_value(case.text_at(0, told), told));
    write!(told, "{:016x}", nearest_double(number));
}

fn write_pickle(told: &mut Told, bytes: Result<Vec<u8>, AllocError>) {
    match bytes {
        Ok(bytes) => write_bytes(told, bytes.as_slice()),
        Err(_) => told.fail(CaseFault::NoMemory),
    }
}

/// Writes bytes that are no text.
pub fn write_bytes(told: &mut Told, bytes: &[u8]) {
    for byte in bytes {
        write!(told, "{byte:02x}");
    }
}
