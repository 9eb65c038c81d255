//! The parts of a decimal's text: its sign, its mantissa on both sides of the point, its exponent.

ghost use Rattle.std.specs.Prelude.{◌≡◌, ◌≤◌, ◌<◌, length, position, IfSome};
ghost use Rattle.std.specs.List.{position_or_len};
ghost use Rattle.std.specs.Str.Parse.{starts_with_minus, without_leading_sign};
ghost use Rattle.std.specs.Str.{str_eq_ignore_ascii_case};
ghost use Rattle.fixed_num.specs.Read.{moves_of};
ghost use Rattle.fixed_num.specs.Decimal.{is_point, is_exponent_mark, whole_of, fraction_of, is_not_finite};

use crate::digits::{is_numeral, number};

pub(crate) fn starts_with_minus(text: &[u8]) -> bool
    ensures { result ≡ starts_with_minus text.now }
{
    text.first() == Some(&b'-')
}

/// A text without a sign before it.
pub(crate) fn without_leading_sign(text: &[u8]) -> &[u8]
    ensures { result.now ≡ without_leading_sign text.now }
{
    match text.first() {
        Some(b'+' | b'-') => &text[1..],
        _ => text,
    }
}

/// What stands before the first point, and behind it.
pub(crate) fn cut_at_point(text: &[u8]) -> (&[u8], &[u8])
    ensures whole { result.0.now ≡ whole_of text.now }
    ensures fraction { result.1.now ≡ fraction_of text.now }
{
    let point = first_point(text);
    if point == text.len() {
        return (text, &text[point..]);
    }
    (&text[..point], &text[point + 1..])
}

/// The place of the first point, or the text's length.
pub fn first_point(text: &[u8]) -> usize
    ensures place { result ≡ position_or_len is_point text.now }
    ensures within { result ≤ length text.now }
{
    point_in(text).unwrap_or(text.len())
}

fn point_in(text: &[u8]) -> Option<usize>
    ensures { result ≡ position is_point text.now }
{
    text.iter().position(|b| *b == b'.')
}

/// The place of the letter before an exponent.
pub(crate) fn exponent_in(text: &[u8]) -> Option<usize>
    ensures { result ≡ position is_exponent_mark text.now }
{
    text.iter().position(|b| *b == b'e' || *b == b'E')
}

/// How many places an exponent moves the point up and down: an optional sign and one to three
/// digits, `None` for any other text.
#[tactic(auto, unfolding(crate::specs::Read::moves_of))]
pub(crate) fn moves_of(exponent: &[u8]) -> Option<(usize, usize)>
    ensures value { result ≡ moves_of exponent.now }
    ensures range { IfSome result (λ moves. (moves.0 < 1000) × (moves.1 < 1000)) }
{
    let digits = without_leading_sign(exponent);
    if !is_numeral(digits, 3) {
        return None;
    }
    let places = number(digits) as usize;
    if starts_with_minus(exponent) {
        return Some((0, places));
    }
    Some((places, 0))
}

/// Whether a text is a word of infinity or not-a-number, in any case and with an optional sign.
pub(crate) fn is_not_finite(text: &[u8]) -> bool
    ensures { result ≡ is_not_finite text.now }
{
    let word = without_leading_sign(text);
    is_word(word, b"nan") || is_word(word, b"inf") || is_word(word, b"infinity")
}

fn is_word(text: &[u8], word: &[u8]) -> bool
    ensures { result ≡ str_eq_ignore_ascii_case text.now word.now }
{
    text.eq_ignore_ascii_case(word)
}
