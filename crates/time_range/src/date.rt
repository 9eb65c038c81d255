//! Dates and times of day at UTC.

ghost use Rattle.std.specs.Prelude.{◌≡◌, ◌≤◌, ◌<◌, ◌+◌, ◌*◌, ◌+ℤ◌, ◌^◌, pos, true, length, IfSome};
ghost use Rattle.std.specs.List.{list_all};
ghost use Rattle.std.specs.Char.{is_ascii_digit};
ghost use Rattle.std.specs.Str.Parse.{digits_value};
ghost use Rattle.jiff_core.specs.Calendar.{IsWithin};
ghost use Rattle.time_range.specs.Dates.{clock_second, date_in, date_second, day_second, has_marks, is_meant_as_date, number_below, time_of_day};

use fixed_num::{all_digits, capped_number};
use jiff::civil::Date;

/// Whether a row of digits is meant as a date: eight digits of which the first four are above 1900,
/// the next two below 13 and the last two below 32.
#[tactic(auto, unfolding(crate::specs::Dates::is_meant_as_date))]
pub(crate) fn is_meant_as_date(digits: &[u8]) -> bool
    requires { list_all is_ascii_digit digits.now ≡ true }
    ensures { result ≡ is_meant_as_date digits.now }
{
    digits.len() == 8
        && number(&digits[..4]) > 1900
        && number(&digits[4..6]) < 13
        && number(&digits[6..]) < 32
}

/// The first second of the day that `YYYYMMDD` names: `None` exactly where there is no such day.
#[tactic(auto, unfolding(crate::specs::Dates::date_second))]
pub(crate) fn date_second(digits: &[u8]) -> Option<i64>
    requires digits { list_all is_ascii_digit digits.now ≡ true }
    requires eight { length digits.now ≡ 8 }
    ensures { result ≡ date_second digits.now }
{
    day_second(
        number(&digits[..4]),
        number(&digits[4..6]),
        number(&digits[6..]),
    )
}

/// The second that `HH:MM_YYYYMMDD` names: `None` exactly where the text has not this form, or
/// there is no such day or time of day.
#[tactic(auto, unfolding(crate::specs::Dates::clock_second))]
pub(crate) fn clock_second(text: &[u8]) -> Option<i128>
    ensures value { result ≡ clock_second text.now }
    ensures near { IfSome result (IsWithin (2 ^ 80)) }
{
    if text.len() != 14 {
        return None;
    }
    if !has_marks(text) {
        return None;
    }
    time_of_day(&text[..2], &text[3..5], &text[6..])
}

fn has_marks(text: &[u8]) -> bool
    requires { length text.now ≡ 14 }
    ensures { result ≡ has_marks text.now }
{
    text[2] == b':' && text[5] == b'_'
}

// The second of a time of day, from 00:00 to 23:59, of a date.
#[tactic(auto, unfolding(crate::specs::Dates::time_of_day))]
fn time_of_day(hour: &[u8], minute: &[u8], date: &[u8]) -> Option<i128>
    requires hour { length hour.now ≡ 2 }
    requires minute { length minute.now ≡ 2 }
    requires date { length date.now ≡ 8 }
    ensures value { result ≡ time_of_day hour.now minute.now date.now }
    ensures near { IfSome result (IsWithin (2 ^ 80)) }
{
    let hour = number_below(24, hour)?;
    let minute = number_below(60, minute)?;
    let day = date_in(date)?;
    Some(after_midnight(day, hour, minute))
}

fn after_midnight(day: i64, hour: u16, minute: u16) -> i128
    ensures value { result ≡ day +ℤ pos (hour * 3600 + minute * 60) }
    ensures near { IsWithin (2 ^ 80) result }
{
    i128::from(day) + i128::from(u32::from(hour) * 3_600 + u32::from(minute) * 60)
}

#[tactic(auto, unfolding(crate::specs::Dates::number_below))]
fn number_below(bound: u16, text: &[u8]) -> Option<u16>
    requires { length text.now ≤ 4 }
    ensures { result ≡ number_below bound text.now }
{
    if !all_digits(text) {
        return None;
    }
    let number = number(text);
    if number >= bound {
        return None;
    }
    Some(number)
}

#[tactic(auto, unfolding(crate::specs::Dates::date_in))]
fn date_in(text: &[u8]) -> Option<i64>
    requires { length text.now ≡ 8 }
    ensures { result ≡ date_in text.now }
{
    if !all_digits(text) {
        return None;
    }
    date_second(text)
}

// The first second of a day, where the calendar has it.
fn day_second(year: u16, month: u16, day: u16) -> Option<i64>
    requires { year < 10000 }
    ensures { result ≡ day_second year month day }
{
    if month > 12 || day > 31 {
        return None;
    }
    match Date::new(year as i16, month as i8, day as i8) {
        Ok(date) => return Some(i64::from(date.to_plain().to_unix_epoch_day()) * 86_400),
        Err(_) => return None,
    }
}

// The number that a few digits write.
fn number(digits: &[u8]) -> u16
    requires digits { list_all is_ascii_digit digits.now ≡ true }
    requires few { length digits.now ≤ 4 }
    ensures value { result ≡ digits_value 10 digits.now }
    ensures below { result < 10000 }
{
    capped_number(digits) as u16
}
