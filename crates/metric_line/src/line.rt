//! Reading a metric line.

ghost use Rattle.std.specs.Prelude.{◌≡◌, ◌≢◌, true, IfOk, IfErr, IsOk, None, Ok, Some};
ghost use Rattle.metric_path.specs.Path.{path_fault};
ghost use Rattle.metric_line.specs.LineDatum.{datum_of, point_result};
ghost use Rattle.fixed_num.specs.Milli.{IsMilli};
ghost use Rattle.fixed_num.specs.Moment.{is_moment};
ghost use Rattle.fixed_num.specs.Read.{milli_result};
ghost use Rattle.fixed_num.specs.Whole.{whole_number};
ghost use Rattle.metric_line.specs.Seen.{seen};

use crate::Datum;
use crate::fault::LineFault;
use crate::fields::{field_count, path_field, three_fields, two_fields};
use crate::plain::{PlainFields, plain_fields};
use crate::stamp::{moment, read_stamp};
use fixed_num::{Milli, read_milli};
use metric_path::{MetricPath, fault_of};
use std::alloc::{AllocError, Global};

/// Reads a metric line of Graphite's plaintext protocol, of any length: a path, a value and a time in
/// seconds since the Unix epoch.
///
/// Fields stand between blanks: tabs, vertical tabs, form feeds, carriage returns and spaces. The
/// time `-1` is `now`, and a fraction of a time is cut. Whether a line is refused does not depend on
/// `now`.
///
/// # Errors
///
/// The first fault in the order fields, path, value, time; `NoMemory` of a line without a fault. The
/// count of fields that `Fields` tells is at most `u32::MAX`, which stands for all greater ones.
pub fn read_line(alloc: Global, line: &[u8], now: u32) -> Result<Datum, LineFault>
    requires { is_moment now ≡ true }
    ensures datum { IfOk result (λ datum. datum_of line.now now ≡ Ok (seen datum)) }
    ensures fault { IfErr result
        (λ fault. fault ≢ LineFault.NoMemory → datum_of line.now now ≡ Err fault) }
    ensures memory { result ≡ Err LineFault.NoMemory → IsOk (datum_of line.now now) }
{
    read_line_over(alloc, &mut None, line, now)
}

/// Reads a metric line as [`read_line`] does. Where a path is spare, its memory becomes that of the datum's path.
pub fn read_line_over(
    alloc: Global,
    spare: &mut Option<MetricPath>,
    line: &[u8],
    now: u32,
) -> Result<Datum, LineFault>
    requires { is_moment now ≡ true }
    ensures datum { IfOk result (λ datum. datum_of line.now now ≡ Ok (seen datum)) }
    ensures fault { IfErr result
        (λ fault. fault ≢ LineFault.NoMemory → datum_of line.now now ≡ Err fault) }
    ensures memory { result ≡ Err LineFault.NoMemory → IsOk (datum_of line.now now) }
{
    let Some((path, others)) = path_field(line) else {
        return read_any(alloc, spare, line, now);
    };
    if let Some(plain) = plain_fields(others) {
        return read_plain(alloc, spare, path, plain, now);
    }
    match two_fields(others) {
        Some((value, time)) => read_behind(alloc, spare, path, value, time, now),
        None => Err(LineFault::Fields(field_count(line))),
    }
}

// Reads a line whose path was not looked at.
fn read_any(
    alloc: Global,
    spare: &mut Option<MetricPath>,
    line: &[u8],
    now: u32,
) -> Result<Datum, LineFault>
    requires { is_moment now ≡ true }
    ensures datum { IfOk result (λ datum. datum_of line.now now ≡ Ok (seen datum)) }
    ensures fault { IfErr result
        (λ fault. fault ≢ LineFault.NoMemory → datum_of line.now now ≡ Err fault) }
    ensures memory { result ≡ Err LineFault.NoMemory → IsOk (datum_of line.now now) }
{
    match three_fields(line) {
        Some(fields) => read_fields(alloc, spare, fields.path, fields.value, fields.time, now),
        None => Err(LineFault::Fields(field_count(line))),
    }
}

// Reads the fields of a line.
#[tactic(auto, unfolding(crate::specs::LineDatum::point_result))]
fn read_fields(
    alloc: Global,
    spare: &mut Option<MetricPath>,
    path: &[u8],
    value: &[u8],
    time: &[u8],
    now: u32,
) -> Result<Datum, LineFault>
    requires { is_moment now ≡ true }
    ensures datum { IfOk result
        (λ datum. point_result path.now value.now time.now now ≡ Ok (seen datum)) }
    ensures fault { IfErr result (λ fault. fault ≢ LineFault.NoMemory
        → point_result path.now value.now time.now now ≡ Err fault) }
    ensures memory { result ≡ Err LineFault.NoMemory
        → IsOk (point_result path.now value.now time.now now) }
{
    if let Some(fault) = fault_of(path) {
        return Err(LineFault::Path(fault));
    }
    read_behind(alloc, spare, path, value, time, now)
}

// Reads the fields behind a legal path, memory last.
#[tactic(auto, unfolding(crate::specs::LineDatum::point_result))]
fn read_behind(
    alloc: Global,
    spare: &mut Option<MetricPath>,
    path: &[u8],
    value: &[u8],
    time: &[u8],
    now: u32,
) -> Result<Datum, LineFault>
    requires moment { is_moment now ≡ true }
    requires legal { path_fault path.now ≡ None }
    ensures datum { IfOk result
        (λ datum. point_result path.now value.now time.now now ≡ Ok (seen datum)) }
    ensures fault { IfErr result (λ fault. fault ≢ LineFault.NoMemory
        → point_result path.now value.now time.now now ≡ Err fault) }
    ensures memory { result ≡ Err LineFault.NoMemory
        → IsOk (point_result path.now value.now time.now now) }
{
    let value = match read_milli(value) {
        Ok(value) => value,
        Err(fault) => return Err(LineFault::Value(fault)),
    };
    let time = match read_stamp(time, now) {
        Ok(time) => time,
        Err(fault) => return Err(LineFault::Time(fault)),
    };
    datum_over(alloc, spare, path, time, value)
}

// The datum of plain fields behind a legal path.
#[tactic(auto, unfolding(crate::specs::LineDatum::point_result))]
fn read_plain(
    alloc: Global,
    spare: &mut Option<MetricPath>,
    path: &[u8],
    plain: PlainFields<'_>,
    now: u32,
) -> Result<Datum, LineFault>
    requires legal { path_fault path.now ≡ None }
    requires value { milli_result plain.value_text.now ≡ Ok plain.value }
    requires seconds { whole_number plain.time_text.now ≡ Some plain.seconds }
    ensures datum { IfOk result (λ datum.
        point_result path.now plain.entry.value_text.now plain.entry.time_text.now now
        ≡ Ok (seen datum)) }
    ensures fault { IfErr result (λ fault. fault ≢ LineFault.NoMemory
        → point_result path.now plain.entry.value_text.now plain.entry.time_text.now now
        ≡ Err fault) }
    ensures memory { result ≡ Err LineFault.NoMemory → IsOk
        (point_result path.now plain.entry.value_text.now plain.entry.time_text.now now) }
{
    let time = match moment(plain.seconds) {
        Ok(time) => time,
        Err(fault) => return Err(LineFault::Time(fault)),
    };
    datum_over(alloc, spare, path, time, plain.value)
}

// The datum of a legal path, in the memory of the spare one.
fn datum_over(
    alloc: Global,
    spare: &mut Option<MetricPath>,
    path: &[u8],
    time: u32,
    value: Milli,
) -> Result<Datum, LineFault>
    requires legal { path_fault path.now ≡ None }
    requires moment { is_moment time ≡ true }
    requires fits { IsMilli value }
    ensures datum { IfOk result
        (λ datum. seen datum ≡ record { path = path.now; time = time; value = value }) }
    ensures memory { IfErr result (λ fault. fault ≡ LineFault.NoMemory) }
{
    match path_over(alloc, spare, path) {
        Ok(path) => Ok(Datum { path, time, value }),
        Err(_) => Err(LineFault::NoMemory),
    }
}

// A legal path, in the memory of the spare one.
fn path_over(
    alloc: Global,
    spare: &mut Option<MetricPath>,
    text: &[u8],
) -> Result<MetricPath, AllocError>
    requires { path_fault text.now ≡ None }
    ensures { IfOk result (λ path. path ≡ text.now) }
{
    match spare.take() {
        Some(path) => path.with_legal(text),
        None => MetricPath::from_legal(alloc, text),
    }
}
