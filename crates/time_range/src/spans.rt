//! Spans of time, one behind the other.

ghost use Rattle.std.specs.Prelude.{◌≡◌, ◌≤◌, ◌<◌, ◌&&◌, ◌^◌, min, true, length, option_map, position, IfSome};
ghost use Rattle.std.specs.List.{list_all, position_or_len};
ghost use Rattle.std.specs.Char.{is_ascii_digit};
ghost use Rattle.std.specs.Str.Parse.{digits_value};
ghost use Rattle.time_range.specs.Spans.{digits_of, first_length, is_no_digit, seconds_of, span_seconds, spans_of, total_of};

use crate::unit::unit_seconds;

/// Where numbers are cut: all greater ones count as this one.
pub(crate) const CUT: u128 = 1 << 100;

/// The seconds of a text of one span or more, cut at [`CUT`]: `None` exactly where it is none.
#[tactic(auto, unfolding(crate::specs::Spans::seconds_of))]
pub(crate) fn seconds_of(text: &[u8]) -> Option<u128>
    ensures { result ≡ option_map (λ seconds. min seconds (2 ^ 100)) (seconds_of text.now) }
{
    if text.is_empty() {
        return None;
    }
    total_of(text)
}

// The seconds of the spans of a text.
fn total_of(text: &[u8]) -> Option<u128>
    ensures { result ≡ option_map
        (λ seconds. min seconds (2 ^ 100)) (total_of (spans_of text.now)) }
{
    let mut total = 0;
    let mut rest = text;
    while !rest.is_empty() {
        let (span, more) = rest.split_at(first_length(rest));
        let seconds = span_seconds(span)?;
        total = cut(total + seconds);
        rest = more;
    }
    Some(total)
}

/// The length of the first span of a text.
pub(crate) fn first_length(text: &[u8]) -> usize
    requires { 0 < length text.now }
    ensures value { result ≡ first_length text.now }
    ensures some { 0 < result }
    ensures within { result ≤ length text.now }
{
    let mut at = 0;
    while at + 1 < text.len() {
        if is_seam(text[at], text[at + 1]) {
            return at + 1;
        }
        at += 1;
    }
    text.len()
}

// Whether a span ends between two bytes.
fn is_seam(last: u8, next: u8) -> bool
    ensures { result ≡ (is_no_digit last && is_ascii_digit next) }
{
    !last.is_ascii_digit() && next.is_ascii_digit()
}

// The seconds of a number with a unit.
#[tactic(auto, unfolding(crate::specs::Spans::span_seconds))]
fn span_seconds(span: &[u8]) -> Option<u128>
    ensures value { result ≡ option_map (λ seconds. min seconds (2 ^ 100)) (span_seconds span.now) }
    ensures most { IfSome result (λ seconds. seconds ≤ 2 ^ 100) }
{
    let (digits, unit) = span.split_at(digit_count(span));
    if digits.is_empty() {
        return None;
    }
    let unit = unit_seconds(unit)?;
    Some(cut(number_of(digits) * u128::from(unit)))
}

/// How many digits stand at the front of a text.
pub(crate) fn digit_count(text: &[u8]) -> usize
    ensures count { result ≡ position_or_len is_no_digit text.now }
    ensures within { result ≤ length text.now }
    ensures digits { list_all is_ascii_digit (digits_of text.now) ≡ true }
{
    no_digit_in(text).unwrap_or(text.len())
}

fn no_digit_in(text: &[u8]) -> Option<usize>
    ensures { result ≡ position is_no_digit text.now }
{
    text.iter().position(|b| !b.is_ascii_digit())
}

/// The number that digits write, cut at [`CUT`].
pub(crate) fn number_of(digits: &[u8]) -> u128
    requires { list_all is_ascii_digit digits.now ≡ true }
    ensures { result ≡ min (digits_value 10 digits.now) (2 ^ 100) }
{
    let mut number = 0;
    for digit in digits {
        number = cut(number * 10 + u128::from(digit - b'0'));
    }
    number
}

fn cut(number: u128) -> u128
    ensures { result ≡ min number (2 ^ 100) }
{
    number.min(CUT)
}
