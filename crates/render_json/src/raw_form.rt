//! The raw text of series.
ghost use Rattle.std.specs.Prelude.{◌≡◌, ◌+◌, ◌≤◌, ◌++◌, IfOk, OnOk, codes, drop, flat_map, length};
ghost use Rattle.render_json.specs.Values.{separator, value_or};
ghost use Rattle.render_json.specs.Raw.{head_text, none_text, number_text, raw_of, series_raw, values_text};

use crate::backward::put;
use crate::parts::{push_number, put_value_or, values_room};
use fixed_num::Milli;
use series_set::{Allowance, Series, SeriesSet, Size};
use std::alloc::{AllocError, Global};

// The most bytes of a value with the separator before it.
const ITEM_ROOM: usize = 34;

/// Series in the raw form: for each a line `name,start,end,step|value,value`, ended by LF, with `None`
/// for a missing value. The start and the end are seconds since the Unix epoch, the end a step behind
/// the last value's time. The name is not quoted, so that one with a `,`, a `|` or an LF gives a line
/// that cannot be cut again. Without series the text is empty. A text for which there is no room is want of memory. Each
/// series goes as soon as its text stands.
pub fn raw_text(alloc: Global, set: SeriesSet, room: &Allowance) -> Result<Vec<u8>, AllocError>
    ensures { IfOk result (λ text. text.items ≡ raw_of set) }
{
    let most = room_of(set.as_slice());
    room.bear(Size::of_text(most))?;
    let mut out = Vec::with_capacity(alloc, most)?;
    for series in set.into_vec() {
        push_series(&mut out, &series)?;
    }
    Ok(out)
}

// The most bytes that the text of these series takes.
fn room_of(set: &[Series]) -> usize {
    let mut room: usize = 0;
    for series in set {
        room = room.saturating_add(series_room(series));
    }
    room
}

// Three numbers of at most 20 digits and five signs stand beside the name and the values.
fn series_room(series: &Series) -> usize {
    let separators = series.values().len();
    let values = values_room(series.values(), 4).saturating_add(separators);
    series
        .name()
        .len()
        .saturating_add(values)
        .saturating_add(65)
}

fn push_series(out: &mut Vec<u8>, series: &Series) -> Result<(), AllocError>
    ensures { OnOk result (out.new.items ≡ out.old.items ++ series_raw series.now) }
{
    push_head(out, series)?;
    push_values(out, series)?;
    out.push(b'\n')?;
    Ok(())
}

fn push_head(out: &mut Vec<u8>, series: &Series) -> Result<(), AllocError>
    ensures { OnOk result (out.new.items ≡ out.old.items ++ head_text series.now) }
{
    out.extend_from_slice(series.name().as_bytes())?;
    push_next(out, series.start())?;
    push_next(out, series.end())?;
    push_next(out, series.step())?;
    out.push(b'|')?;
    Ok(())
}

// A number behind a comma.
fn push_next(out: &mut Vec<u8>, number: u64) -> Result<(), AllocError>
    ensures { OnOk result (out.new.items ≡ out.old.items ++ number_text number) }
{
    out.push(b',')?;
    push_number(out, number)
}

// The values with a comma between each two.
fn push_values(out: &mut Vec<u8>, series: &Series) -> Result<(), AllocError>
    ensures { OnOk result (out.new.items ≡ out.old.items ++ values_text series.now) }
{
    let mut text = [0; ITEM_ROOM];
    let mut is_first = true;
    for value in series.values() {
        push_item(out, &mut text, value.get(), is_first)?;
        is_first = false;
    }
    Ok(())
}

// Appends a value with the separator before it, but not before the first.
#[inline(always)]
fn push_item(
    out: &mut Vec<u8>,
    text: &mut [u8; ITEM_ROOM],
    value: Option<Milli>,
    is_first: bool,
) -> Result<(), AllocError>
    ensures { OnOk result (out.new.items ≡ out.old.items
        ++ (separator (codes ",") is_first ++ value_or none_text value)) }
{
    let at = put_known(text, value);
    let from = put_separator(text, at, is_first);
    out.extend_from_slice(&text[from..])
}

// Writes the separator, but not before the first value.
#[inline(always)]
fn put_separator(text: &mut [u8; ITEM_ROOM], end: usize, is_first: bool) -> usize
    requires room { (1 ≤ end) × (end ≤ ITEM_ROOM) }
    ensures start { result + length (separator (codes ",") is_first) ≡ end }
    ensures written { drop result text.new ≡ separator (codes ",") is_first ++ drop end text.old }
{
    if is_first {
        return end;
    }
    put(text, end, b",")
}

// Writes a value so that the text ends with it, and answers where it starts.
#[inline(always)]
#[tactic(auto, unfolding(crate::specs::Raw::none_text))]
fn put_known(text: &mut [u8; ITEM_ROOM], value: Option<Milli>) -> usize
    ensures start { result + length (value_or none_text value) ≡ ITEM_ROOM }
    ensures short { length (value_or none_text value) ≤ 33 }
    ensures written { drop result text.new ≡ value_or none_text value }
{
    put_value_or(text, ITEM_ROOM, b"None", value)
}
