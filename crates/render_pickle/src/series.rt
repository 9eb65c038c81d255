//! Series as a pickle.
ghost use Rattle.std.specs.Prelude.{◌≡◌, ◌++◌, IfOk, OnOk, map, pos};
ghost use Rattle.pickle_form.specs.Pickle.{items_code, members_code, pickled, text_code, value_code, whole_code};
ghost use Rattle.pickle_form.specs.Value.{row};
ghost use Rattle.render_pickle.specs.Reply.{end_key, expression_key, name_key, reading_value, render_value, series_value, start_key, step_key, times_and_values, values_member};

use fixed_num::{Milli, wide};
use pickle_form::{nearest_double, push_count, push_double, push_head, push_text};
use series_set::{Allowance, Reading, Series, SeriesSet, Size};
use std::alloc::{AllocError, Global};

/// Series as a pickle: a list of maps with `name`, the path of the series as `pathExpression`, `start`, `end`, `step` and
/// `values`, each the double nearest to a value, or none for a missing one. A text for which there is no room is want of memory, and
/// so is a text or a number that a pickle cannot hold. Each series goes as soon as it is written.
pub fn render_pickle(alloc: Global, set: SeriesSet, room: &Allowance) -> Result<Vec<u8>, AllocError>
    ensures { IfOk result (λ bytes. bytes.items ≡ pickled (render_value set)) }
{
    let most = room_of(set.as_slice());
    room.bear(Size::of_text(most))?;
    let mut out = Vec::with_capacity(alloc, most)?;
    push_head(&mut out)?;
    out.extend_from_slice(b"](")?;
    push_set(&mut out, set)?;
    out.extend_from_slice(b"e.")?;
    Ok(out)
}

// The most bytes that these series take.
fn room_of(set: &[Series]) -> usize {
    let mut room: usize = 6;
    for series in set {
        room = room.saturating_add(series_room(series));
    }
    room
}

// Beside the texts and the values, of nine bytes each at most, a series takes 112 bytes at most.
fn series_room(series: &Series) -> usize {
    let texts = series.path().len().saturating_add(series.name().len());
    let values = series.values().len().saturating_mul(9);
    values.saturating_add(texts).saturating_add(112)
}

fn push_set(out: &mut Vec<u8>, set: SeriesSet) -> Result<(), AllocError>
    ensures { OnOk result
        (out.new.items ≡ out.old.items ++ items_code (row (map series_value set))) }
{
    for series in set.into_vec() {
        push_series(out, &series)?;
    }
    Ok(())
}

fn push_series(out: &mut Vec<u8>, series: &Series) -> Result<(), AllocError>
    ensures { OnOk result (out.new.items ≡ out.old.items ++ value_code (series_value series.now)) }
{
    out.extend_from_slice(b"}(")?;
    push_name(out, series.name().as_bytes())?;
    push_expression(out, series.path().as_bytes())?;
    push_times_and_values(out, series)?;
    out.push(b'u')?;
    Ok(())
}

#[tactic(auto, unfolding(crate::specs::Reply::name_key))]
fn push_name(out: &mut Vec<u8>, name: &[u8]) -> Result<(), AllocError>
    ensures { OnOk result
        (out.new.items ≡ out.old.items ++ (text_code name_key ++ text_code name.now)) }
{
    push_text(out, b"name")?;
    push_text(out, name)
}

#[tactic(auto, unfolding(crate::specs::Reply::expression_key))]
fn push_expression(out: &mut Vec<u8>, target: &[u8]) -> Result<(), AllocError>
    ensures { OnOk result
        (out.new.items ≡ out.old.items ++ (text_code expression_key ++ text_code target.now)) }
{
    push_text(out, b"pathExpression")?;
    push_text(out, target)
}

#[tactic(auto, unfolding(crate::specs::Reply::times_and_values))]
fn push_times_and_values(out: &mut Vec<u8>, series: &Series) -> Result<(), AllocError>
    ensures { OnOk result
        (out.new.items ≡ out.old.items ++ members_code (times_and_values series.now)) }
{
    push_start(out, series.start())?;
    push_end(out, series.end())?;
    push_step(out, series.step())?;
    push_values(out, series.values())
}

#[tactic(auto, unfolding(crate::specs::Reply::start_key))]
fn push_start(out: &mut Vec<u8>, start: u64) -> Result<(), AllocError>
    ensures { OnOk result
        (out.new.items ≡ out.old.items ++ (text_code start_key ++ whole_code (pos start))) }
{
    push_count(out, b"start", start)
}

#[tactic(auto, unfolding(crate::specs::Reply::end_key))]
fn push_end(out: &mut Vec<u8>, end: u64) -> Result<(), AllocError>
    ensures { OnOk result
        (out.new.items ≡ out.old.items ++ (text_code end_key ++ whole_code (pos end))) }
{
    push_count(out, b"end", end)
}

#[tactic(auto, unfolding(crate::specs::Reply::step_key))]
fn push_step(out: &mut Vec<u8>, step: u64) -> Result<(), AllocError>
    ensures { OnOk result
        (out.new.items ≡ out.old.items ++ (text_code step_key ++ whole_code (pos step))) }
{
    push_count(out, b"step", step)
}

#[tactic(auto, unfolding(crate::specs::Reply::values_key))]
fn push_values(out: &mut Vec<u8>, values: &[Reading]) -> Result<(), AllocError>
    ensures { OnOk result (out.new.items ≡ out.old.items ++ members_code (values_member values.now)) }
{
    push_text(out, b"values")?;
    out.extend_from_slice(b"](")?;
    push_readings(out, values)?;
    out.push(b'e')?;
    Ok(())
}

fn push_readings(out: &mut Vec<u8>, values: &[Reading]) -> Result<(), AllocError>
    ensures { OnOk result
        (out.new.items ≡ out.old.items ++ items_code (row (map reading_value values.now))) }
{
    for value in values {
        push_reading(out, value.get())?;
    }
    Ok(())
}

#[inline(always)]
fn push_reading(out: &mut Vec<u8>, value: Option<Milli>) -> Result<(), AllocError>
    ensures { OnOk result (out.new.items ≡ out.old.items ++ value_code (reading_value value)) }
{
    let Some(value) = value else {
        out.push(b'N')?;
        return Ok(());
    };
    push_double(out, nearest_double(wide(value)))
}
