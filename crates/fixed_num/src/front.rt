//! A plain decimal at the front of a text, read in the walk that finds its end.

ghost use Rattle.std.specs.Prelude.{◌≡◌, ◌<◌, ◌≤◌, ◌^◌, All, IfSome, Ok, length, pos, take, true};
ghost use Rattle.std.specs.List.{list_all};
ghost use Rattle.std.specs.Char.{is_ascii_digit};
ghost use Rattle.std.specs.Str.Parse.{digits_value};
ghost use Rattle.fixed_num.specs.Milli.{IsMilli};
ghost use Rattle.fixed_num.specs.Read.{milli_result, reached_parts};

use crate::milli::{Milli, milli_of};
use crate::scaling::reached_parts;

/// A value that a text begins with, and how many bytes write it.
#[derive(Clone, Copy)]
pub struct MilliFront {
    /// The value in thousandths.
    pub value: Milli,
    /// The bytes of its text.
    pub len: usize,
    pub ghost fits: { IsMilli value },
}

/// Reads the plain decimal that a text begins with, in thousandths, rounded down: 1 to 15 digits, and optionally a point and up to 15
/// digits behind it. So the value of a line is read in the walk that finds its end. `None` says nothing of the text.
pub fn milli_front(text: &[u8]) -> Option<MilliFront>
    ensures within { IfSome result (λ front. front.len ≤ length text.now) }
    ensures some { IfSome result (λ front. 0 < front.len) }
    ensures value { IfSome result
        (λ front. milli_result (take front.len text.now) ≡ Ok front.value) }
    ensures clean { IfSome result (λ front. All (λ b. 32 < b) (take front.len text.now)) }
{
    let whole = digits_front(text);
    if whole.len == 0 {
        return None;
    }
    if whole.len == text.len() || text[whole.len] != b'.' {
        return Some(MilliFront {
            value: thousandths(whole.number, 0, 0),
            len: whole.len,
        });
    }
    let fraction = digits_front(&text[whole.len + 1..]);
    Some(MilliFront {
        value: thousandths(whole.number, fraction.number, fraction.len),
        len: whole.len + 1 + fraction.len,
    })
}

// The thousandths of a number before a point and of one behind it, which has so many digits.
fn thousandths(whole: u64, fraction: u64, digits: usize) -> Milli
    requires digits { digits ≤ 15 }
    requires whole { whole < 10 ^ 15 }
    requires fraction { fraction < 10 ^ 15 }
    ensures { result ≡ pos (reached_parts whole fraction digits 1000).whole }
{
    milli_of(reached_parts(whole, fraction, digits, 3).whole as i64)
}

// The digits that a text begins with.
#[derive(Clone, Copy)]
struct DigitsFront {
    // the number that they write
    number: u64,
    len: usize,
}

// As many digits are read at the front of a text at most.
const MOST_FRONT_DIGITS: usize = 15;

// The digits at the front of a text, up to as many as are read.
fn digits_front(text: &[u8]) -> DigitsFront
    ensures within { (result.len ≤ length text.now) × (result.len ≤ 15) }
    ensures digits { list_all is_ascii_digit (take result.len text.now) ≡ true }
    ensures value { result.number ≡ digits_value 10 (take result.len text.now) }
    ensures range { result.number < 10 ^ 15 }
{
    let most = text.len().min(MOST_FRONT_DIGITS);
    let mut number = 0;
    for len in 0..most {
        if !text[len].is_ascii_digit() {
            return DigitsFront { number, len };
        }
        number = number * 10 + u64::from(text[len] - b'0');
    }
    DigitsFront { number, len: most }
}
