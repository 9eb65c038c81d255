//! The time of a metric line.

ghost use Rattle.std.specs.Prelude.{◌≡◌, true, IfOk, IfSome, option_map};
ghost use Rattle.std.specs.List.{list_all};
ghost use Rattle.std.specs.Char.{is_ascii_digit};
ghost use Rattle.std.specs.Str.Parse.{digits_value};
ghost use Rattle.fixed_num.specs.Moment.{is_moment};
ghost use Rattle.metric_line.specs.Stamp.{is_cut_time, is_digits, is_now, moment_result, stamp_of, whole_digits};

use fixed_num::{all_digits, capped_number, first_point, legal_moment, read_whole};

/// Why a text is not read as a time.
#[derive(Clone, Copy, Debug, PartialEq, Eq)]
pub enum StampFault {
    /// The text is neither `-1` nor digits with an optional point and digits behind it.
    NotNumber,
    /// The text is a number of seconds that is no legal moment.
    OutOfRange,
}

/// Reads the time of a metric line in seconds since the Unix epoch: `-1` is `now`, and else the text is digits and optionally a
/// point and digits behind it, whose fraction is cut.
///
/// # Errors
///
/// `NotNumber` where the text has neither form, `OutOfRange` where its whole seconds are no legal moment.
#[tactic(auto, unfolding(crate::specs::Stamp::stamp_of))]
pub(crate) fn read_stamp(text: &[u8], now: u32) -> Result<u32, StampFault>
    requires { is_moment now ≡ true }
    ensures moment { result ≡ stamp_of text.now now }
    ensures legal { IfOk result (λ t. is_moment t ≡ true) }
{
    if let Some(seconds) = read_whole(text) {
        return moment(seconds);
    }
    if is_now(text) {
        return Ok(now);
    }
    match whole_digits(text) {
        Some(digits) => digits_moment(digits),
        None => Err(StampFault::NotNumber),
    }
}

fn is_now(text: &[u8]) -> bool
    ensures { result ≡ is_now text.now }
{
    text == b"-1".as_slice()
}

// The digits before the point of a time: `None` exactly where the text is no time.
fn whole_digits(text: &[u8]) -> Option<&[u8]>
    ensures whole { option_map (λ digits. digits.now) result ≡ whole_digits text.now }
    ensures digits { IfSome result (λ digits. list_all is_ascii_digit digits.now ≡ true) }
{
    let (whole, behind) = text.split_at(first_point(text));
    if !is_cut_time(whole, behind) {
        return None;
    }
    Some(whole)
}

// Whether a text that is cut at its first point is a time.
fn is_cut_time(whole: &[u8], behind: &[u8]) -> bool
    ensures { result ≡ is_cut_time whole.now behind.now }
{
    is_digits(whole) && (behind.is_empty() || is_digits(&behind[1..]))
}

fn is_digits(text: &[u8]) -> bool
    ensures { result ≡ is_digits text.now }
{
    !text.is_empty() && all_digits(text)
}

/// A number of seconds as a moment.
pub(crate) fn moment(seconds: u64) -> Result<u32, StampFault>
    ensures moment { result ≡ moment_result seconds }
    ensures legal { IfOk result (λ t. is_moment t ≡ true) }
{
    legal_moment(seconds).ok_or(StampFault::OutOfRange)
}

// The moment that digits write, however many there are.
fn digits_moment(digits: &[u8]) -> Result<u32, StampFault>
    requires { list_all is_ascii_digit digits.now ≡ true }
    ensures moment { result ≡ moment_result (digits_value 10 digits.now) }
    ensures legal { IfOk result (λ t. is_moment t ≡ true) }
{
    moment(capped_number(digits))
}
