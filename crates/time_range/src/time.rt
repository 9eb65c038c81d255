//! The moment that a text names.

ghost use Rattle.std.specs.Prelude.{◌≡◌, ◌≤◌, ◌<◌, ◌^◌, ◌+ℤ◌, ◌-ℤ◌, ◌*◌, ◌==◌, ◌&&◌, pos, true, false, length, position, IfSome, Some};
ghost use Rattle.std.specs.List.{list_all, position_or_len};
ghost use Rattle.std.specs.Char.{is_ascii_digit};
ghost use Rattle.std.specs.Str.Parse.{digits_value, starts_with_minus};
ghost use Rattle.jiff_core.specs.Calendar.{IsWithin};
ghost use Rattle.time_range.specs.TimeOf.{is_count, is_digits, is_now, is_sign, moment_of_parts, moved, named_second, time_of, time_result};

use crate::TimeFault;
use crate::date::{clock_second, date_second, is_meant_as_date};
use crate::difference::difference;
use crate::span::LATEST;
use crate::spans::{number_of, seconds_of};
use fixed_num::all_digits;

/// Reads a time, in seconds since the Unix epoch, at the moment `now`.
///
/// A time is a reference and an offset. The reference is `now`, a row of digits, or
/// `HH:MM_YYYYMMDD` at UTC. Eight digits of which the first four are above 1900, the next two below
/// 13 and the last two below 32 are a date, which stands for its first second at UTC; any other
/// digits are seconds since the epoch. The offset is a sign and one number with a unit or more, or
/// nothing. Such an offset with a minus may stand alone, and is counted from `now`.
///
/// The moment is exact, however long the numbers are.
///
/// # Errors
///
/// `NotTime` where the text has not this form or names a date or an hour that does not exist,
/// `BeforeEpoch` for a moment below 0, `TooLate` for one above 4,000,000,000.
pub fn read_time(text: &str, now: u64) -> Result<u64, TimeFault>
    ensures { result ≡ time_of text.now now }
{
    let text = text.as_bytes();
    let (reference, offset) = text.split_at(sign_place(text));
    moment_of_parts(reference, offset, now)
}

// Where the first sign of a text stands, or its length where there is none.
fn sign_place(text: &[u8]) -> usize
    ensures value { result ≡ position_or_len is_sign text.now }
    ensures within { result ≤ length text.now }
{
    sign_in(text).unwrap_or(text.len())
}

fn sign_in(text: &[u8]) -> Option<usize>
    ensures { result ≡ position is_sign text.now }
{
    text.iter().position(|b| *b == b'+' || *b == b'-')
}

#[tactic(auto, unfolding(crate::specs::TimeOf::moment_of_parts))]
fn moment_of_parts(reference: &[u8], offset: &[u8], now: u64) -> Result<u64, TimeFault>
    ensures { result ≡ time_result (moment_of_parts reference.now offset.now now) }
{
    if is_offset_alone(reference, offset) {
        return near(i128::from(now), offset);
    }
    if is_count(reference) {
        return counted(reference, offset);
    }
    match named_second(reference, now) {
        Some(from) => return near(from, offset),
        None => return Err(TimeFault::NotTime),
    }
}

fn is_offset_alone(reference: &[u8], offset: &[u8]) -> bool
    ensures { result ≡ (length reference.now == 0 && starts_with_minus offset.now) }
{
    reference.is_empty() && offset.first() == Some(&b'-')
}

// Whether a reference is a number of seconds, and no date.
#[tactic(auto, unfolding(crate::specs::TimeOf::is_count))]
fn is_count(text: &[u8]) -> bool
    ensures { result ≡ is_count text.now }
{
    is_digits(text) && !is_meant_as_date(text)
}

fn is_digits(text: &[u8]) -> bool
    ensures { result ≡ is_digits text.now }
{
    !text.is_empty() && all_digits(text)
}

// The second of a reference that is no number of seconds.
#[tactic(auto, unfolding(crate::specs::TimeOf::named_second))]
fn named_second(text: &[u8], now: u64) -> Option<i128>
    requires { is_count text.now ≡ false }
    ensures second { result ≡ named_second text.now now }
    ensures near { IfSome result (IsWithin (2 ^ 80)) }
{
    if is_now(text) {
        return Some(i128::from(now));
    }
    if is_digits(text) {
        return Some(i128::from(date_second(text)?));
    }
    clock_second(text)
}

fn is_now(text: &[u8]) -> bool
    ensures { result ≡ is_now text.now }
{
    text == b"now".as_slice()
}

// The moment at an offset from a second.
fn near(from: i128, offset: &[u8]) -> Result<u64, TimeFault>
    requires { IsWithin (2 ^ 80) from }
    ensures { result ≡ time_result (moved from offset.now) }
{
    let Some((sign, spans)) = offset.split_first() else {
        return time_result(from);
    };
    let Some(seconds) = seconds_of(spans) else {
        return Err(TimeFault::NotTime);
    };
    if *sign == b'-' {
        return before(from, seconds);
    }
    after(from, seconds)
}

fn before(from: i128, seconds: u128) -> Result<u64, TimeFault>
    requires from { IsWithin (2 ^ 80) from }
    requires seconds { seconds ≤ 2 ^ 100 }
    ensures { result ≡ time_result (Some (from -ℤ pos seconds)) }
{
    time_result(from - seconds as i128)
}

fn after(from: i128, seconds: u128) -> Result<u64, TimeFault>
    requires from { IsWithin (2 ^ 80) from }
    requires seconds { seconds ≤ 2 ^ 100 }
    ensures { result ≡ time_result (Some (from +ℤ pos seconds)) }
{
    time_result(from + seconds as i128)
}

// A moment as a time that is read.
fn time_result(moment: i128) -> Result<u64, TimeFault>
    ensures { result ≡ time_result (Some moment) }
{
    if moment < 0 {
        return Err(TimeFault::BeforeEpoch);
    }
    if moment > i128::from(LATEST) {
        return Err(TimeFault::TooLate);
    }
    Ok(moment as u64)
}

// The moment at an offset from a number of seconds.
fn counted(digits: &[u8], offset: &[u8]) -> Result<u64, TimeFault>
    requires { list_all is_ascii_digit digits.now ≡ true }
    ensures { result ≡ time_result (moved (pos (digits_value 10 digits.now)) offset.now) }
{
    let number = number_of(digits);
    if number <= 1 << 80 {
        return near(number as i128, offset);
    }
    far(digits, offset)
}

// The same of a number that is far off.
fn far(digits: &[u8], offset: &[u8]) -> Result<u64, TimeFault>
    requires digits { list_all is_ascii_digit digits.now ≡ true }
    requires far { 2 ^ 80 < digits_value 10 digits.now }
    ensures { result ≡ time_result (moved (pos (digits_value 10 digits.now)) offset.now) }
{
    let Some((sign, spans)) = offset.split_first() else {
        return Err(TimeFault::TooLate);
    };
    let Some(_) = seconds_of(spans) else {
        return Err(TimeFault::NotTime);
    };
    if *sign != b'-' {
        return Err(TimeFault::TooLate);
    }
    time_result(difference(digits, spans))
}
