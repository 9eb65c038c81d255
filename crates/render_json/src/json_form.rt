//! The JSON of series.
ghost use Rattle.std.specs.Prelude.{◌≡◌, ◌+◌, ◌-◌, ◌*◌, ◌/◌, ◌%◌, ◌<◌, ◌≤◌, ◌∷◌, ◌++◌, IfOk, OnOk, codes, drop, length, map, take};
ghost use Rattle.json.specs.Print.{quoted};
ghost use Rattle.render_json.specs.Json.{datapoints_text, json_of, null_text, point_text, points_text, no_text, series_json, target_text, time_tail};
ghost use Rattle.render_json.specs.Values.{joined, separator, value_or};
ghost use Rattle.series_set.specs.OnGrid.{points_from};
ghost use Rattle.series_set.specs.Series.{latest_end};

use crate::backward::{put, put_number, set_pair};
use crate::parts::{number_room, push_separator, put_value_or, values_room};
use crate::remaining::Remaining;
use fixed_num::Milli;
use serde_json::Value;
use series_set::{Allowance, Series, SeriesSet, Size};
use std::alloc::{AllocError, Global};

// The most bytes of a point with the separator before it.
const POINT_ROOM: usize = 64;

// A point's text ends in the middle, so that as many bytes can be copied from wherever it starts.
const TEXT_ROOM: usize = 128;

/// Series as JSON: a list of objects with the `target`, which is the series' name, and the `datapoints`,
/// each `[value, time]` with `null` for a missing value and the time in seconds since the Unix epoch.
/// Where there are no series it is `[]`; a series without values has the datapoints `[]`. A text for which there is no room is want of memory.
/// Each series goes as soon as its text stands, and the values of a long one piece by piece.
pub fn json_text(alloc: Global, set: SeriesSet, room: &Allowance) -> Result<Vec<u8>, AllocError>
    ensures { IfOk result (λ text. text.items ≡ json_of set) }
{
    let most = room_of(set.as_slice());
    room.bear(Size::of_text(most))?;
    let mut out = Vec::with_capacity(alloc, most)?;
    out.push(b'[')?;
    push_list(alloc, &mut out, set)?;
    out.push(b']')?;
    Ok(out)
}

// The most bytes that the text of these series takes.
fn room_of(set: &[Series]) -> usize {
    let mut room: usize = 2;
    for series in set {
        room = room.saturating_add(series_room(series));
    }
    room
}

// A byte of a name takes at most six in a JSON text.
fn series_room(series: &Series) -> usize {
    let name = series.name().len().saturating_mul(6);
    let beside = number_room(u128::from(series.end())) + 6;
    let points = series.values().len().saturating_mul(beside);
    let values = values_room(series.values(), 4).saturating_add(points);
    name.saturating_add(values).saturating_add(33 + POINT_ROOM)
}

// The series with `, ` between each two.
fn push_list(alloc: Global, out: &mut Vec<u8>, set: SeriesSet) -> Result<(), AllocError>
    ensures { OnOk result
        (out.new.items ≡ out.old.items ++ joined (codes ", ") (map series_json set)) }
{
    let mut is_first = true;
    for series in set.into_vec() {
        push_separator(out, b", ", is_first)?;
        is_first = false;
        push_series(alloc, out, series)?;
    }
    Ok(())
}

fn push_series(alloc: Global, out: &mut Vec<u8>, series: Series) -> Result<(), AllocError>
    ensures { OnOk result (out.new.items ≡ out.old.items ++ series_json series) }
{
    push_head(alloc, out, series.name())?;
    push_points(out, series)?;
    out.extend_from_slice(b"]}")
}

// What stands before the points of a series with this name.
fn push_head(alloc: Global, out: &mut Vec<u8>, name: &str) -> Result<(), AllocError>
    ensures { OnOk result
        (out.new.items ≡ out.old.items ++ (target_text ++ (quoted name.now ++ datapoints_text))) }
{
    push_target(out)?;
    push_quoted(alloc, out, name)?;
    push_datapoints(out)
}

#[tactic(auto, unfolding(crate::specs::Json::target_text))]
fn push_target(out: &mut Vec<u8>) -> Result<(), AllocError>
    ensures { OnOk result (out.new.items ≡ out.old.items ++ target_text) }
{
    out.extend_from_slice(b"{\"target\": ")
}

// A text in quotes.
fn push_quoted(alloc: Global, out: &mut Vec<u8>, text: &str) -> Result<(), AllocError>
    ensures { OnOk result (out.new.items ≡ out.old.items ++ quoted text.now) }
{
    let text = Value::String(String::from_str(alloc, text)?).to_string(alloc)?;
    out.extend_from_slice(text.as_bytes())
}

#[tactic(auto, unfolding(crate::specs::Json::datapoints_text))]
fn push_datapoints(out: &mut Vec<u8>) -> Result<(), AllocError>
    ensures { OnOk result (out.new.items ≡ out.old.items ++ datapoints_text) }
{
    out.extend_from_slice(b", \"datapoints\": [")
}

// The points with `, ` between each two.
fn push_points(out: &mut Vec<u8>, series: Series) -> Result<(), AllocError>
    ensures { OnOk result (out.new.items ≡ out.old.items ++ points_text series) }
{
    let mut series = series;
    let (start, step) = (series.start(), series.step());
    let mut values = Remaining::new(series.take_values());
    push_remaining(out, start, step, &mut values)
}

// The points of these values, each a step behind the one before.
fn push_remaining(
    out: &mut Vec<u8>,
    start: u64,
    step: u64,
    values: &mut Remaining,
) -> Result<(), AllocError>
    requires early { start + length values.old * step ≤ latest_end }
    ensures { OnOk result (out.new.items
        ≡ out.old.items ++ joined (codes ", ") (map point_text (points_from start step values.old))) }
{
    let mut text = empty_text();
    let mut is_first = true;
    let mut time = start;
    let mut base = time - time % 10_000;
    let mut end = put_time(&mut text, time);
    while let Some(value) = values.next() {
        push_point(out, &mut text, end, time, value.get(), is_first)?;
        is_first = false;
        let next = time + step;
        let tail = put_next_time(&mut text, end, time, base, next);
        end = tail.end;
        base = tail.base;
        time = next;
    }
    Ok(())
}

// Appends a point whose time, and what stands round it, the text holds from `end` on.
#[inline(always)]
fn push_point(
    out: &mut Vec<u8>,
    text: &mut [u8; TEXT_ROOM],
    end: usize,
    time: u64,
    value: Option<Milli>,
    is_first: bool,
) -> Result<(), AllocError>
    requires room { (37 ≤ end) × (end ≤ POINT_ROOM) }
    requires is { drop end text.old ≡ time_tail time no_text }
    ensures pushed { OnOk result
        (out.new.items ≡ out.old.items ++ (separator (codes ", ") is_first ++ point_text (time, value))) }
    ensures kept { drop end text.new ≡ drop end text.old }
{
    // The time is an argument for the contract alone.
    let _ = time;
    let at = put_known(text, end, value);
    let from = put_opening(text, at, is_first);
    push_from(out, text, from)
}

// A text without a point.
#[inline(always)]
#[tactic(auto, unfolding(crate::specs::Json::no_text))]
fn empty_text() -> [u8; TEXT_ROOM]
    ensures { drop POINT_ROOM result ≡ no_text }
{
    [0; TEXT_ROOM]
}

// Appends what stands from a place on and before the middle. It is cheaper to copy always as many bytes and to take
// back those behind the middle.
#[inline(always)]
#[tactic(auto, using(crate::proofs::BackwardLemmas::cut_back))]
fn push_from(out: &mut Vec<u8>, text: &[u8; TEXT_ROOM], from: usize) -> Result<(), AllocError>
    requires { from ≤ POINT_ROOM }
    ensures { OnOk result (out.new.items
        ≡ out.old.items ++ take (POINT_ROOM - from) (drop from text.now)) }
{
    let end = out.len() + (POINT_ROOM - from);
    out.extend_from_slice(&text[from..from + POINT_ROOM])?;
    out.truncate(end);
    Ok(())
}

#[inline(always)]
#[tactic(auto, unfolding(crate::specs::Json::null_text))]
fn put_known(text: &mut [u8; TEXT_ROOM], end: usize, value: Option<Milli>) -> usize
    requires room { (37 ≤ end) × (end ≤ POINT_ROOM) }
    ensures start { result + length (value_or null_text value) ≡ end }
    ensures short { length (value_or null_text value) ≤ 33 }
    ensures written { drop result text.new ≡ value_or null_text value ++ drop end text.old }
{
    put_value_or(text, end, b"null", value)
}

// Writes the bracket that opens a point, and the separator before it, but not before the first point.
#[inline(always)]
fn put_opening(text: &mut [u8; TEXT_ROOM], end: usize, is_first: bool) -> usize
    requires room { (3 ≤ end) × (end ≤ POINT_ROOM) }
    ensures start { result + length (separator (codes ", ") is_first ++ codes "[") ≡ end }
    ensures written { drop result text.new
        ≡ (separator (codes ", ") is_first ++ codes "[") ++ drop end text.old }
{
    if is_first {
        return put(text, end, b"[");
    }
    put(text, end, b", [")
}

// Writes what a point has behind its value, and answers where it starts.
#[tactic(auto, using(crate::proofs::BackwardLemmas::number_short))]
fn put_time(text: &mut [u8; TEXT_ROOM], time: u64) -> usize
    requires { drop POINT_ROOM text.old ≡ no_text }
    ensures room { (37 ≤ result) × (result ≤ POINT_ROOM) }
    ensures written { drop result text.new ≡ time_tail time no_text }
{
    let at = put(text, POINT_ROOM, b"]");
    let at = put_number(text, at, time);
    put(text, at, b", ")
}

// Where a text has what stands behind a value, and the time there without its last four digits.
#[derive(Clone, Copy)]
struct TimeTail {
    end: usize,
    base: u64,
}

// The same where the text has it for another time, of which mostly the last four digits alone are other. `base` is that time without them.
#[inline(always)]
fn put_next_time(
    text: &mut [u8; TEXT_ROOM],
    end: usize,
    time: u64,
    base: u64,
    next: u64,
) -> TimeTail
    requires room { (37 ≤ end) × (end ≤ POINT_ROOM) }
    requires is { drop end text.old ≡ time_tail time no_text }
    requires base { (base ≡ time / 10000 * 10000) × (time ≤ next) }
    ensures room { (37 ≤ result.end) × (result.end ≤ POINT_ROOM) }
    ensures written { drop result.end text.new ≡ time_tail next no_text }
    ensures base { result.base ≡ next / 10000 * 10000 }
{
    // The time is an argument for the contract alone.
    let _ = time;
    if next < 10_000 {
        let end = put_time(text, next);
        return TimeTail { end, base: 0 };
    }
    if next - base >= 10_000 {
        let end = put_time(text, next);
        let base = next - next % 10_000;
        return TimeTail { end, base };
    }
    put_last_digits(text, next - base);
    TimeTail { end, base }
}

// Writes the last four digits of a time and what stands behind them.
#[inline(always)]
fn put_last_digits(text: &mut [u8; TEXT_ROOM], digits: u64)
    requires { digits < 10000 }
    ensures before { take 59 text.new ≡ take 59 text.old }
    ensures written { drop 59 text.new ≡ (48 + digits / 100 / 10) ∷ (48 + digits / 100 % 10)
        ∷ (48 + digits % 100 / 10) ∷ (48 + digits % 100 % 10) ∷ 93 ∷ drop POINT_ROOM text.old }
{
    text[63] = b']';
    set_pair(text, 61, digits % 100);
    set_pair(text, 59, digits / 100);
}
