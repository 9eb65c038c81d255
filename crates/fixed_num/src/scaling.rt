//! How many parts of a unit the decimal of a text reaches, by numbers of 128 bits however long
//! it is.

ghost use Rattle.std.specs.Prelude.{◌≡◌, ◌<◌, ◌≤◌, ◌+◌, ◌-◌, ◌*◌, ◌^◌, ◌==◌, ◌&&◌, ◌++◌, true, length, take, drop, IfSome, Some, None, position};
ghost use Rattle.std.specs.List.{list_all};
ghost use Rattle.std.specs.Char.{is_ascii_digit};
ghost use Rattle.std.specs.Str.Parse.{digits_value};
ghost use Rattle.fixed_num.specs.Decimal.{whole_of, fraction_of, is_exponent_mark, is_mantissa};
ghost use Rattle.fixed_num.specs.Read.{reached_in, reached_by, reached_parts, moved};

use crate::digits::{
    all_digits, all_zeros, capped_number_after, capped_tens, few_digits, power_of_ten,
};
use crate::grammar::{cut_at_point, exponent_in, moves_of, without_leading_sign};
use crate::reached::Reached;

/// How many parts of one `10 ^ places`th the decimal of a text reaches, its sign left out; `None`
/// where the text is no decimal.
pub(crate) fn reached_in(text: &[u8], places: usize) -> Option<Reached>
    requires { places ≤ 9 }
    ensures value { result ≡ reached_in (10 ^ places) text.now }
    ensures most { IfSome result (λ reached. reached.whole < 2 ^ 127) }
{
    let digits = without_leading_sign(text);
    if let Some(reached) = reached_shortly(digits, places) {
        return Some(reached);
    }
    let Some(letter) = exponent_in(digits) else {
        return moved(digits, places, 0);
    };
    let (up, down) = moves_of(&digits[letter + 1..])?;
    moved(&digits[..letter], up + places, down)
}

// The digits on one side of a point that two numbers of 64 bits are enough for.
const FEW_DIGITS: usize = 18;

// The same of few digits without an exponent, as most texts are. `None` says nothing of the text.
fn reached_shortly(mantissa: &[u8], places: usize) -> Option<Reached>
    requires { places ≤ 9 }
    ensures exponent { IfSome result (λ reached. position is_exponent_mark mantissa.now ≡ None) }
    ensures value { IfSome result (λ reached. moved places 0 mantissa.now ≡ Some reached) }
    ensures most { IfSome result (λ reached. reached.whole < 2 ^ 127) }
{
    let (whole, fraction) = cut_at_point(mantissa);
    let most = FEW_DIGITS - places;
    if whole.is_empty() || whole.len() > most || fraction.len() > most {
        return None;
    }
    let before = few_digits(whole)?;
    let behind = few_digits(fraction)?;
    Some(reached_parts(before, behind, fraction.len(), places))
}

/// What the number before a point and the one behind it reach, which has so many digits.
pub(crate) fn reached_parts(whole: u64, fraction: u64, digits: usize, places: usize) -> Reached
    requires places { places ≤ 9 }
    requires digits { digits ≤ 18 }
    requires whole { whole < 10 ^ (18 - places) }
    requires fraction { fraction < 10 ^ (18 - places) }
    ensures value { result ≡ reached_parts whole fraction digits (10 ^ places) }
    ensures most { result.whole < 2 ^ 64 }
{
    let factor = power_of_ten(places);
    let part = fraction * factor;
    let divisor = power_of_ten(digits);
    Reached {
        whole: u128::from(whole * factor + part / divisor),
        exact: part % divisor == 0,
    }
}

// What a mantissa reaches where its point moves up and down.
#[tactic(auto, unfolding(crate::specs::Read::moved))]
fn moved(mantissa: &[u8], up: usize, down: usize) -> Option<Reached>
    requires few { up < 2 ^ 31 }
    ensures value { result ≡ moved up down mantissa.now }
    ensures most { IfSome result (λ reached. reached.whole < 2 ^ 127) }
{
    let (whole, fraction) = cut_at_point(mantissa);
    if !is_mantissa(mantissa, whole, fraction) {
        return None;
    }
    Some(reached_by(whole, fraction, up, down))
}

// Whether a text is digits on both sides of a point, at least one in all, by its parts.
fn is_mantissa(mantissa: &[u8], whole: &[u8], fraction: &[u8]) -> bool
    requires whole { whole.now ≡ whole_of mantissa.now }
    requires fraction { fraction.now ≡ fraction_of mantissa.now }
    ensures { result ≡ is_mantissa mantissa.now }
{
    all_digits(whole) && all_digits(fraction) && !(whole.is_empty() && fraction.is_empty())
}

// The front of the digits is the quotient, with zeros behind it where they are too few, and the
// fraction is whole where only zeros are left. Numbers past 128 bits with a sign stay at the
// greatest.
fn reached_by(whole: &[u8], fraction: &[u8], up: usize, down: usize) -> Reached
    requires whole { list_all is_ascii_digit whole.now ≡ true }
    requires fraction { list_all is_ascii_digit fraction.now ≡ true }
    requires few { up < 2 ^ 31 }
    ensures value { result ≡ reached_by (digits_value 10 (whole.now ++ fraction.now) * 10 ^ up)
        (10 ^ (length fraction.now + down)) }
    ensures most { result.whole < 2 ^ 127 }
{
    let keep = (whole.len() + up).saturating_sub(down);
    let (front, rest) = cut_at(whole, keep);
    let (more, last) = cut_at(fraction, keep.saturating_sub(whole.len()));
    let zeros = keep.saturating_sub(whole.len() + fraction.len());
    let first = capped_number_after(0, front);
    let both = capped_number_after(first, more);
    let tens = capped_tens(both, zeros);
    Reached {
        whole: tens.min(MOST_WHOLE),
        exact: are_zeros(rest, last),
    }
}

// The greatest number of 128 bits with a sign.
const MOST_WHOLE: u128 = (1 << 127) - 1;

fn are_zeros(rest: &[u8], last: &[u8]) -> bool
    ensures { result ≡ (list_all (λ b. b == 48) rest.now && list_all (λ b. b == 48) last.now) }
{
    all_zeros(rest) && all_zeros(last)
}

// The first bytes of a text, and those behind them.
fn cut_at(text: &[u8], count: usize) -> (&[u8], &[u8])
    ensures front { result.0.now ≡ take count text.now }
    ensures rest { result.1.now ≡ drop count text.now }
{
    text.split_at(count.min(text.len()))
}
