//! Differences of numbers that are longer than the machine's.

ghost use Rattle.std.specs.Prelude.{◌≡◌, ◌≤◌, ◌<◌, ◌+◌, ◌-◌, ◌*◌, ◌^◌, ◌-ℤ◌, ◌==◌, ◌||◌, ℕ, List, pos, min, true, length, slice_index};
ghost use Rattle.std.specs.List.{list_all};
ghost use Rattle.std.specs.Char.{is_ascii_digit};
ghost use Rattle.std.specs.Str.Parse.{digits_value};
ghost use Rattle.time_range.specs.Columns.{column, front, fronts, kept};
ghost use Rattle.time_range.specs.Spans.{spans_of};

use crate::columns::{digit_at, sum_columns};
use crate::spans::CUT;

// How many places are summed up in one pass over the spans: so many passes less are made.
const PLACES: usize = 4_096;

/// A number less the seconds of spans: exactly, or above or below all times where it is. It takes
/// one pass over both where their first digits tell that it is out of reach, and at most one for
/// each 4,096 places of the longer text.
pub(crate) fn difference(digits: &[u8], spans: &[u8]) -> i128
    requires { list_all is_ascii_digit digits.now ≡ true }
    ensures { result
        ≡ pos (kept (digits_value 10 digits.now) (fronts 0 (spans_of spans.now))) -ℤ pos (2 ^ 100) }
{
    let mut sums = [0; PLACES];
    signed(kept_difference(digits, spans, &mut sums))
}

fn signed(kept: u128) -> i128
    requires { kept ≤ 2 ^ 101 }
    ensures { result ≡ pos kept -ℤ pos (2 ^ 100) }
{
    kept as i128 - CUT as i128
}

// The numbers are read from their first digits on, as many places of each at a time as there are sums.
fn kept_difference(digits: &[u8], spans: &[u8], sums: &mut [u128]) -> u128
    requires digits { list_all is_ascii_digit digits.now ≡ true }
    requires some { 0 < length sums.old }
    ensures value { result ≡ kept (digits_value 10 digits.now) (fronts 0 (spans_of spans.now)) }
    ensures most { result ≤ 2 ^ 101 }
{
    let mut place = digits.len().max(spans.len());
    let mut kept = CUT;
    while place > 0 {
        if is_out_of_reach(kept) {
            return kept;
        }
        let from = place.saturating_sub(sums.len());
        sum_columns(sums, spans, from);
        kept = kept_down(kept, digits, sums, from, place);
        place = from;
    }
    kept
}

// Whether no further digit makes a difference.
fn is_out_of_reach(kept: u128) -> bool
    ensures { result ≡ (kept == 0 || kept == 2 ^ 101) }
{
    kept == 0 || kept == 2 * CUT
}

// One further digit of each number at a time, from the place `to` down to `from`.
fn kept_down(start: u128, digits: &[u8], sums: &[u128], from: usize, to: usize) -> u128
    requires digits { list_all is_ascii_digit digits.now ≡ true }
    requires start { start ≤ 2 ^ 101 }
    requires down { from ≤ to }
    requires summed { to ≤ from + length sums.now }
    requires small { (k : ℕ) → k < length sums.now → slice_index sums.now k ≤ 2 ^ 95 }
    ensures value { (spans : List (List ℕ)) → start ≡ kept (front to digits.now) (fronts to spans)
        → ((k : ℕ) → k < length sums.now → slice_index sums.now k ≡ column (from + k) spans)
        → result ≡ kept (front from digits.now) (fronts from spans) }
    ensures most { result ≤ 2 ^ 101 }
{
    let mut place = to;
    let mut kept = start;
    while place > from {
        place -= 1;
        kept = next_kept(kept, digit_at(digits, place), sums[place - from]);
    }
    kept
}

fn next_kept(kept: u128, digit: u8, column: u128) -> u128
    requires kept { kept ≤ 2 ^ 101 }
    requires digit { digit ≤ 9 }
    requires column { column ≤ 2 ^ 95 }
    ensures { result ≡ min (kept * 10 + digit - (column + 9 * 2 ^ 100)) (2 ^ 101) }
{
    (kept * 10 + u128::from(digit))
        .saturating_sub(column + 9 * CUT)
        .min(2 * CUT)
}
