//! A span of time, which a text writes.

ghost use Rattle.std.specs.Prelude.{◌≡◌, ◌≤◌, ◌-◌, ◌^◌, min, length, IfOk};
ghost use Rattle.std.specs.Str.Parse.{without_leading_sign};
ghost use Rattle.time_range.specs.SpanOf.{span_of, span_result, starts_with_plus};

use crate::TimeFault;
use crate::spans::seconds_of;

/// The latest moment, and the most seconds of a span.
pub const LATEST: u64 = 4_000_000_000;

/// A span of time.
#[derive(Clone, Copy, Debug, PartialEq, Eq)]
pub struct Span {
    /// Whether it leads into the past.
    pub past: bool,
    /// Its seconds, at most 4,000,000,000.
    pub seconds: u64,
}

/// Reads a span of time: an optional sign, and then one number with a unit or more, `-1h30min`. It
/// leads into the past unless the sign is a plus.
///
/// # Errors
///
/// `NotTime` where the text has not this form, `TooLate` where the seconds are above 4,000,000,000.
#[tactic(auto, unfolding(crate::specs::SpanOf::span_of))]
pub fn read_span(text: &str) -> Result<Span, TimeFault>
    ensures { result ≡ span_of text.now }
{
    let text = text.as_bytes();
    match seconds_of(without_sign(text)) {
        Some(seconds) => return span_result(!starts_with_plus(text), seconds),
        None => return Err(TimeFault::NotTime),
    }
}

fn span_result(past: bool, seconds: u128) -> Result<Span, TimeFault>
    ensures { result ≡ span_result past seconds }
{
    if seconds > u128::from(LATEST) {
        return Err(TimeFault::TooLate);
    }
    Ok(Span {
        past,
        seconds: seconds as u64,
    })
}

fn starts_with_plus(text: &[u8]) -> bool
    ensures { result ≡ starts_with_plus text.now }
{
    text.first() == Some(&b'+')
}

fn without_sign(text: &[u8]) -> &[u8]
    ensures { result.now ≡ without_leading_sign text.now }
{
    match text {
        [b'+' | b'-', rest @ ..] => rest,
        _ => text,
    }
}
