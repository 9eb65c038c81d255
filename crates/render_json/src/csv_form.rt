//! The comma-separated values of series.
ghost use Rattle.std.specs.Prelude.{◌≡◌, ◌+◌, ◌*◌, ◌/◌, ◌++◌, ◌≤◌, ◌<◌, All, IfOk, OnOk, drop, flat_map, length};
ghost use Rattle.render_json.specs.Csv.{clock_text, csv_of, date_number, date_text, doubled, field_text, in_quotes, latest_csv_end, line_text, point_fields, series_csv};
ghost use Rattle.std.specs.List.{list_any};
ghost use Rattle.render_json.specs.Csv.{needs_quotes};
ghost use Rattle.render_json.specs.Values.{points_of};
ghost use Rattle.series_set.specs.Series.{end_of};

use crate::backward::{put, put_pair};
use crate::parts::{put_value_or, values_room};
use fixed_num::Milli;
use jiff_core::civil::Date;
use series_set::{Allowance, Series, SeriesSet, Size};
use std::alloc::{AllocError, Global};

/// The latest end of series that have a text of comma-separated values, in seconds since the Unix epoch.
pub const LATEST_CSV_END: u64 = 253_402_207_200;

// The most bytes of a line behind the name.
const FIELDS_ROOM: usize = 56;

/// Series as comma-separated values: for each value a line `name,YYYY-MM-DD HH:MM:SS,value`, ended by CR and LF,
/// with the time at UTC and nothing for a missing value. A name with a comma, a double quote, a CR
/// or an LF stands in double quotes, each double quote in it twice. Without values the text is empty. A text for which there is no room is
/// want of memory. Each series goes as soon as its text stands.
pub fn csv_text(alloc: Global, set: SeriesSet, room: &Allowance) -> Result<Vec<u8>, AllocError>
    requires { All (λ s. end_of s ≤ latest_csv_end) set }
    ensures { IfOk result (λ text. text.items ≡ csv_of set) }
{
    let most = room_of(set.as_slice());
    room.bear(Size::of_text(most))?;
    let mut out = Vec::with_capacity(alloc, most)?;
    for series in set.into_vec() {
        push_series(alloc, &mut out, &series)?;
    }
    Ok(out)
}

// The most bytes that the text of these series takes.
fn room_of(set: &[Series]) -> usize {
    let mut room: usize = 0;
    for series in set {
        room = room.saturating_add(series_room(series));
    }
    room
}

// What stands beside name and value takes 23 bytes.
fn series_room(series: &Series) -> usize {
    let line = field_room(series.name().as_bytes()).saturating_add(23);
    let lines = series.values().len().saturating_mul(line);
    values_room(series.values(), 0).saturating_add(lines)
}

// A byte of a name in quotes takes at most two.
fn field_room(name: &[u8]) -> usize {
    if any_needs_quotes(name) {
        return name.len().saturating_mul(2).saturating_add(2);
    }
    name.len()
}

fn push_series(alloc: Global, out: &mut Vec<u8>, series: &Series) -> Result<(), AllocError>
    requires { end_of series.now ≤ latest_csv_end }
    ensures { OnOk result (out.new.items ≡ out.old.items ++ series_csv series.now) }
{
    let field = field_text(alloc, series.name().as_bytes())?;
    push_lines(out, field.as_slice(), series)
}

// A name as a field.
#[tactic(auto, unfolding(crate::specs::Csv::field_text))]
fn field_text(alloc: Global, name: &[u8]) -> Result<Vec<u8>, AllocError>
    ensures { IfOk result (λ text. text.items ≡ field_text name.now) }
{
    let mut out = Vec::new(alloc);
    if any_needs_quotes(name) {
        push_in_quotes(&mut out, name)?;
        return Ok(out);
    }
    out.extend_from_slice(name)?;
    Ok(out)
}

fn any_needs_quotes(name: &[u8]) -> bool
    ensures { result ≡ list_any needs_quotes name.now }
{
    name.iter().any(|byte| needs_quotes(*byte))
}

fn needs_quotes(byte: u8) -> bool
    ensures { result ≡ needs_quotes byte }
{
    byte == b',' || byte == b'"' || byte == b'\r' || byte == b'\n'
}

fn push_in_quotes(out: &mut Vec<u8>, name: &[u8]) -> Result<(), AllocError>
    ensures { OnOk result (out.new.items ≡ out.old.items ++ in_quotes name.now) }
{
    out.push(b'"')?;
    push_doubled(out, name)?;
    out.push(b'"')?;
    Ok(())
}

// The bytes of a name, each double quote twice.
fn push_doubled(out: &mut Vec<u8>, name: &[u8]) -> Result<(), AllocError>
    ensures { OnOk result (out.new.items ≡ out.old.items ++ flat_map doubled name.now) }
{
    for byte in name {
        push_byte(out, *byte)?;
    }
    Ok(())
}

fn push_byte(out: &mut Vec<u8>, byte: u8) -> Result<(), AllocError>
    ensures { OnOk result (out.new.items ≡ out.old.items ++ doubled byte) }
{
    if byte == b'"' {
        return out.extend_from_slice(b"\"\"");
    }
    out.push(byte)?;
    Ok(())
}

// A line for each value.
fn push_lines(out: &mut Vec<u8>, field: &[u8], series: &Series) -> Result<(), AllocError>
    requires { end_of series.now ≤ latest_csv_end }
    ensures { OnOk result (out.new.items ≡ out.old.items
        ++ flat_map (line_text field.now) (points_of series.now)) }
{
    let mut text = [0; FIELDS_ROOM];
    let mut time = series.start();
    let mut date = DayDate {
        day: 0,
        number: date_number(0),
    };
    for value in series.values() {
        date = date_of(date, (time / 86_400) as u32);
        push_line(out, &mut text, field, date.number, time, value.get())?;
        time += series.step();
    }
    Ok(())
}

// Appends a line for a time whose date is this number.
fn push_line(
    out: &mut Vec<u8>,
    text: &mut [u8; FIELDS_ROOM],
    field: &[u8],
    date: u32,
    time: u64,
    value: Option<Milli>,
) -> Result<(), AllocError>
    requires date { date ≡ date_number (time / 86400) }
    requires short { date < 100000000 }
    ensures { OnOk result (out.new.items ≡ out.old.items ++ line_text field.now (time, value)) }
{
    let from = put_fields(text, date, time, value);
    out.extend_from_slice(field)?;
    out.extend_from_slice(&text[from..])
}

// Writes what a line has behind the name so that the text ends with it, and answers where it starts.
#[inline(always)]
#[tactic(auto, unfolding(crate::specs::Csv::point_fields, crate::specs::Csv::time_text))]
fn put_fields(text: &mut [u8; FIELDS_ROOM], date: u32, time: u64, value: Option<Milli>) -> usize
    requires date { date ≡ date_number (time / 86400) }
    requires short { date < 100000000 }
    ensures within { result ≤ FIELDS_ROOM }
    ensures written { drop result text.new ≡ point_fields (time, value) }
{
    let at = put(text, FIELDS_ROOM, b"\r\n");
    let at = put_value_or(text, at, b"", value);
    let at = put(text, at, b",");
    let at = put_clock(text, at, time % 86_400);
    let at = put(text, at, b" ");
    let at = put_date(text, at, date);
    put(text, at, b",")
}

// A day, counted from 1 January 1970 on, and its date as the number YYYYMMDD.
#[derive(Clone, Copy)]
struct DayDate {
    day: u32,
    number: u32,
}

// The date of a day, which mostly is that of the point before.
#[inline(always)]
fn date_of(known: DayDate, day: u32) -> DayDate
    requires known { known.number ≡ date_number known.day }
    requires early { (known.number < 100000000) × (day ≤ 2932896) }
    ensures known { result.number ≡ date_number result.day }
    ensures value { result.number ≡ date_number day }
    ensures short { result.number < 100000000 }
{
    if day == known.day {
        return known;
    }
    DayDate {
        day,
        number: date_number(day),
    }
}

// The date so many days behind 1 January 1970, as the number YYYYMMDD.
fn date_number(days: u32) -> u32
    requires { days ≤ 2932896 }
    ensures value { result ≡ date_number days }
    ensures short { result < 100000000 }
{
    let Ok(date) = Date::from_unix_epoch_day(i64::from(days)) else {
        unreachable!()
    };
    u32::from(date.year.unsigned_abs()) * 10_000 + u32::from(date.month) * 100 + u32::from(date.day)
}

// Writes a date so that it ends at `end`, and answers where it starts.
#[inline(always)]
fn put_date(text: &mut [u8], end: usize, number: u32) -> usize
    requires number { number < 100000000 }
    requires room { 10 ≤ end }
    requires within { end ≤ length text.old }
    ensures start { result + 10 ≡ end }
    ensures written { drop result text.new ≡ date_text number ++ drop end text.old }
{
    let at = put_pair(text, end, u64::from(number % 100));
    let at = put(text, at, b"-");
    let at = put_pair(text, at, u64::from(number / 100 % 100));
    let at = put(text, at, b"-");
    let at = put_pair(text, at, u64::from(number / 10_000 % 100));
    put_pair(text, at, u64::from(number / 1_000_000))
}

// Writes the time of a second of a day so that it ends at `end`, and answers where it starts.
#[inline(always)]
fn put_clock(text: &mut [u8], end: usize, second: u64) -> usize
    requires second { second < 86400 }
    requires room { 8 ≤ end }
    requires within { end ≤ length text.old }
    ensures start { result + 8 ≡ end }
    ensures written { drop result text.new ≡ clock_text second ++ drop end text.old }
{
    let at = put_pair(text, end, second % 60);
    let at = put(text, at, b":");
    let at = put_pair(text, at, second / 60 % 60);
    let at = put(text, at, b":");
    put_pair(text, at, second / 3_600)
}
