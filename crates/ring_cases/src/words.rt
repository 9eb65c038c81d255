//! What the words of a case say. Where one says nothing, what is told remembers it, and a word goes on as 0, the first or none.
ghost use Rattle.ring_format.specs.Cell.{IsVersion};

use case_lines::{Case, CaseFault, Told, halves, push_item, read_small};
use fixed_num::{Milli, narrow, zero};
use metric_path::MetricPath;
use point_cache::{Points, Put};
use ring_format::{Archive, CellWrite, Layout, LayoutFault, Method, OLD_VERSION, VERSION};
use std::alloc::Global;

/// An archive, and a slot or a bucket of it: `ARCHIVE/SLOT`.
#[derive(Clone, Copy)]
pub struct Place {
    pub archive: u32,
    pub at: u32,
}

/// A time or a bucket, and a value: `TIME:VALUE`.
#[derive(Clone, Copy)]
pub struct Point {
    pub time: u32,
    pub value: Milli,
}

/// A value in thousandths.
pub fn value_in(text: &str, told: &mut Told) -> Milli {
    match text.parse::<i128>() {
        Ok(number) => held(narrow(number), told),
        Err(_) => held(None, told),
    }
}

fn held(value: Option<Milli>, told: &mut Told) -> Milli {
    let Some(value) = value else {
        told.malformed();
        return zero();
    };
    value
}

/// The version of a file.
pub fn version_in(case: &Case, at: usize, told: &mut Told) -> u32
    ensures { IsVersion result }
{
    let version = case.small_at(at, told);
    if version != OLD_VERSION && version != VERSION {
        told.malformed();
        return VERSION;
    }
    version
}

/// Values, with commas between.
pub fn values_in(alloc: Global, text: &str, told: &mut Told) -> Vec<Milli> {
    let mut values = Vec::new(alloc);
    if text.is_empty() {
        return values;
    }
    for part in text.split(',') {
        push_item(&mut values, value_in(part, told), told);
    }
    values
}

/// A place.
pub fn place_in(text: &str, told: &mut Told) -> Place {
    let (archive, at) = halves(text, '/', told);
    Place {
        archive: read_small(archive, told),
        at: read_small(at, told),
    }
}

/// A point.
pub fn point_in(text: &str, told: &mut Told) -> Point {
    let (time, value) = halves(text, ':', told);
    Point {
        time: read_small(time, told),
        value: value_in(value, told),
    }
}

/// An archive: `STEPxPOINTS`.
pub fn archive_in(text: &str, told: &mut Told) -> Archive {
    let (step, points) = halves(text, 'x', told);
    Archive {
        step: read_small(step, told),
        points: read_small(points, told),
    }
}

fn archives_in(alloc: Global, text: &str, told: &mut Told) -> Vec<Archive> {
    let mut archives = Vec::new(alloc);
    if text.is_empty() {
        return archives;
    }
    for part in text.split(',') {
        push_item(&mut archives, archive_in(part, told), told);
    }
    archives
}

/// A method by its name.
pub fn method_in(text: &str, told: &mut Told) -> Method {
    match text {
        "average" => Method::Average,
        "sum" => Method::Sum,
        "last" => Method::Last,
        "max" => Method::Max,
        "min" => Method::Min,
        "avg_zero" => Method::AvgZero,
        "absmax" => Method::AbsMax,
        "absmin" => Method::AbsMin,
        _ => {
            told.malformed();
            Method::Average
        }
    }
}

/// The layout that the first three words of a case say, or the rule that it breaks.
pub fn layout_or_fault(alloc: Global, case: &Case, told: &mut Told) -> Result<Layout, LayoutFault> {
    let archives = archives_in(alloc, case.text_at(0, told), told);
    let method = method_in(case.text_at(1, told), told);
    let factor = case.small_at(2, told);
    Layout::new(&archives, method, factor)
}

/// The lawful layout that the first three words of a case say.
pub fn layout_of(alloc: Global, case: &Case, told: &mut Told) -> Option<Layout> {
    match layout_or_fault(alloc, case, told) {
        Ok(layout) => Some(layout),
        Err(_) => {
            told.malformed();
            None
        }
    }
}

/// Whether a word says `new` or `old`.
pub fn is_new(text: &str, told: &mut Told) -> bool {
    match text {
        "new" => true,
        "old" => false,
        _ => {
            told.malformed();
            false
        }
    }
}

/// Cells that a layout has.
pub fn cells_in(alloc: Global, layout: &Layout, text: &str, told: &mut Told) -> Vec<CellWrite> {
    let mut cells = Vec::new(alloc);
    if text.is_empty() {
        return cells;
    }
    for part in text.split(',') {
        push_cell(layout, &mut cells, part, told);
    }
    cells
}

fn push_cell(layout: &Layout, cells: &mut Vec<CellWrite>, text: &str, told: &mut Told) {
    let (place, held) = halves(text, ':', told);
    let place = place_in(place, told);
    let held = point_in(held, told);
    if !layout.has_slot(place.archive, place.at) {
        return told.malformed();
    }
    let cell = CellWrite {
        archive: place.archive,
        slot: place.at,
        bucket: held.time,
        value: held.value,
    };
    push_item(cells, cell, told);
}

/// Points in the order of their times: of those of one time the last is kept.
pub fn points_in(alloc: Global, text: &str, told: &mut Told) -> Points {
    let mut points = Points::new(alloc);
    if text.is_empty() {
        return points;
    }
    for part in text.split(',') {
        put_points(&mut points, part, told);
    }
    points
}

fn put_points(points: &mut Points, text: &str, told: &mut Told) {
    let (point, count) = text.split_once('*').unwrap_or((text, "1"));
    let first = point_in(point, told);
    let count = read_small(count, told);
    for minute in 0..count {
        let time = minute.saturating_mul(60).saturating_add(first.time);
        put_point(points, time, first.value, told);
    }
}

fn put_point(points: &mut Points, time: u32, value: Milli, told: &mut Told) {
    if points.put(time, value) == Put::NoMemory {
        told.fail(CaseFault::NoMemory);
    }
}

/// The path that a text is.
pub fn path_in(alloc: Global, text: &[u8]) -> Result<MetricPath, CaseFault> {
    match MetricPath::new(alloc, text) {
        Ok(path) => Ok(path),
        Err(_) => Err(CaseFault::Malformed),
    }
}
