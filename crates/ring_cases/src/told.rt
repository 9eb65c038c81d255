//! What a case tells, as text.

use case_lines::Told;
use fixed_num::{Milli, wide};
use ring_format::{Archive, Layout, Method};

/// `yes` or `no`.
pub fn tell_whether(told: &mut Told, holds: bool) {
    told.push_str(if holds { "yes" } else { "no" });
}

/// A value, or `-` where it is missing.
pub fn tell_value(told: &mut Told, value: Option<Milli>) {
    match value {
        Some(value) => write!(told, "{}", wide(value)),
        None => told.push('-'),
    }
}

/// Values, with commas between.
pub fn tell_values(told: &mut Told, values: &[Option<Milli>]) {
    for (i, value) in values.iter().enumerate() {
        if i > 0 {
            told.push(',');
        }
        tell_value(told, *value);
    }
}

/// Bytes as hexadecimal digits, four bytes a word.
pub fn tell_bytes(told: &mut Told, bytes: &[u8]) {
    for (i, byte) in bytes.iter().enumerate() {
        if i > 0 && i % 4 == 0 {
            told.push(' ');
        }
        write!(told, "{byte:02x}");
    }
}

/// A cell: `ARCHIVE/SLOT:BUCKET:VALUE`.
pub fn tell_cell(told: &mut Told, place: (u32, u32), held: (u32, Milli)) {
    write!(told, "{}/{}:{}:{}", place.0, place.1, held.0, wide(held.1));
}

/// Archives, with commas between.
pub fn tell_archives(told: &mut Told, archives: &[Archive]) {
    for (i, archive) in archives.iter().enumerate() {
        if i > 0 {
            told.push(',');
        }
        write!(told, "{}x{}", archive.step, archive.points);
    }
}

/// A layout: `ARCHIVES METHOD FACTOR`.
pub fn tell_layout(told: &mut Told, layout: &Layout) {
    tell_archives(told, layout.archives());
    write!(told, " {} {}", name_of(layout.method()), layout.factor());
}

/// The name of a method.
pub fn name_of(method: Method) -> &'static str {
    match method {
        Method::Average => "average",
        Method::Sum => "sum",
        Method::Last => "last",
        Method::Max => "max",
        Method::Min => "min",
        Method::AvgZero => "avg_zero",
        Method::AbsMax => "absmax",
        Method::AbsMin => "absmin",
    }
}
