//! What spans have at the places of their numbers. A place counts the digits behind it.

ghost use Rattle.std.specs.Prelude.{◌≡◌, ◌≤◌, ◌<◌, ◌+◌, ◌*◌, ◌^◌, ℕ, true, length, slice_index};
ghost use Rattle.std.specs.List.{list_all};
ghost use Rattle.std.specs.Char.{is_ascii_digit};
ghost use Rattle.time_range.specs.Columns.{column, digit_at, span_column};
ghost use Rattle.std.specs.Option.{unwrap_or};
ghost use Rattle.time_range.specs.Spans.{spans_of};
ghost use Rattle.time_range.specs.TimeUnits.{unit_seconds};

use crate::spans::{digit_count, first_length};
use crate::unit::unit_seconds;

/// The seconds of the digits at each place from `from` on, as many as there are sums.
pub(crate) fn sum_columns(sums: &mut [u128], spans: &[u8], from: usize)
    ensures length { length sums.new ≡ length sums.old }
    ensures each { (k : ℕ) → k < length sums.old
        → slice_index sums.new k ≡ column (from + k) (spans_of spans.now) }
{
    sums.fill(0);
    let mut rest = spans;
    while !rest.is_empty() {
        let (span, more) = rest.split_at(first_length(rest));
        add_span(sums, span, from);
        rest = more;
    }
}

// What one span has there, put to the sums.
#[tactic(auto, unfolding(crate::specs::Columns::span_column))]
fn add_span(sums: &mut [u128], span: &[u8], from: usize)
    requires { (k : ℕ) → k < length sums.old → slice_index sums.old k ≤ 2 ^ 95 }
    ensures length { length sums.new ≡ length sums.old }
    ensures each { (k : ℕ) → k < length sums.old
        → slice_index sums.new k ≡ slice_index sums.old k + span_column (from + k) span.now }
{
    let (digits, unit) = span.split_at(digit_count(span));
    if digits.len() > from {
        add_digits(sums, unit_or_none(unit), digits, from);
    }
}

fn add_digits(sums: &mut [u128], unit: u64, digits: &[u8], from: usize)
    requires sums { (k : ℕ) → k < length sums.old → slice_index sums.old k ≤ 2 ^ 95 }
    requires unit { unit ≤ 31536000 }
    requires digits { list_all is_ascii_digit digits.now ≡ true }
    requires some { from ≤ length digits.now }
    ensures length { length sums.new ≡ length sums.old }
    ensures each { (k : ℕ) → k < length sums.old
        → slice_index sums.new k ≡ slice_index sums.old k + unit * digit_at (from + k) digits.now }
{
    let count = (digits.len() - from).min(sums.len());
    for k in 0..count {
        sums[k] += product(unit, digit_at(digits, from + k));
    }
}

fn product(unit: u64, digit: u8) -> u128
    requires unit { unit ≤ 31536000 }
    requires digit { digit ≤ 9 }
    ensures value { result ≡ unit * digit }
    ensures most { result ≤ 283824000 }
{
    u128::from(unit) * u128::from(digit)
}

fn unit_or_none(unit: &[u8]) -> u64
    ensures value { result ≡ unwrap_or (unit_seconds unit.now) 0 }
    ensures most { result ≤ 31536000 }
{
    match unit_seconds(unit) {
        Some(seconds) => return seconds,
        None => return 0,
    }
}

/// The digit at a place; 0 in front of all.
#[tactic(auto, unfolding(crate::specs::Columns::digit_at))]
pub(crate) fn digit_at(digits: &[u8], place: usize) -> u8
    requires { list_all is_ascii_digit digits.now ≡ true }
    ensures value { result ≡ digit_at place digits.now }
    ensures most { result ≤ 9 }
{
    if place >= digits.len() {
        return 0;
    }
    digits[digits.len() - (place + 1)] - b'0'
}
