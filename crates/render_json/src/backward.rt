//! Texts that are written from their end to their front, as the length of a number shows last.
ghost use Rattle.std.specs.Prelude.{◌≡◌, ◌+◌, ◌/◌, ◌%◌, ◌^◌, ◌<◌, ◌≤◌, ◌∷◌, ◌++◌, length, take, drop, decimal, pos, IfSome};
ghost use Rattle.fixed_num.specs.Print.{milli_text, unsigned_milli_text, decimals_text};

use fixed_num::{Milli, wide};

static PAIRS: [u8; 200] =
    *b"00010203040506070809101112131415161718192021222324252627282930313233343536373839404142434445464748495051525354555657585960616263646566676869707172737475767778798081828384858687888990919293949596979899";

/// Writes a piece so that it ends at `end`, and answers where it starts.
#[inline(always)]
pub(crate) fn put(text: &mut [u8], end: usize, piece: &[u8]) -> usize
    requires room { length piece.now ≤ end }
    requires within { end ≤ length text.old }
    ensures start { result + length piece.now ≡ end }
    ensures written { drop result text.new ≡ piece.now ++ drop end text.old }
    ensures behind { drop end text.new ≡ drop end text.old }
{
    let start = end - piece.len();
    text[start..end].copy_from_slice(piece);
    start
}

/// Writes a value's text so that it ends at `end`, and answers where it starts.
#[inline(always)]
#[tactic(auto, using(fixed_num::proofs::PrintLemmas::milli_text_negative, fixed_num::proofs::PrintLemmas::milli_text_positive))]
pub(crate) fn put_value(text: &mut [u8], end: usize, value: Milli) -> usize
    requires room { 33 ≤ end }
    requires within { end ≤ length text.old }
    ensures start { result + length (milli_text value) ≡ end }
    ensures short { length (milli_text value) ≤ 33 }
    ensures written { drop result text.new ≡ milli_text value ++ drop end text.old }
{
    let number = wide(value);
    if let Some(few) = few_bits(number) {
        return put_few(text, end, few);
    }
    let start = put_unsigned(text, end, number.unsigned_abs());
    if number < 0 {
        return put(text, start, b"-");
    }
    start
}

// The same number, where it has no sign and 64 bits hold it, as they do those of most values.
#[inline(always)]
pub(crate) fn few_bits(number: i128) -> Option<u64>
    ensures { IfSome result (λ few. number ≡ pos few) }
{
    u64::try_from(number).ok()
}

// Writes the text of a number of thousandths without a sign.
#[tactic(auto, unfolding(fixed_num::specs::Print::unsigned_milli_text), using(fixed_num::proofs::PrintLemmas::whole_short, fixed_num::proofs::PrintLemmas::decimals_short))]
fn put_unsigned(text: &mut [u8], end: usize, thousandths: u128) -> usize
    requires room { 32 ≤ end }
    requires within { end ≤ length text.old }
    requires range { thousandths ≤ 10 ^ 30 }
    ensures start { result + length (unsigned_milli_text thousandths) ≡ end }
    ensures short { length (unsigned_milli_text thousandths) ≤ 32 }
    ensures written { drop result text.new ≡ unsigned_milli_text thousandths ++ drop end text.old }
{
    // Where 64 bits hold the number, their quotients are the faster ones.
    if thousandths <= u128::from(u64::MAX) {
        return put_few(text, end, thousandths as u64);
    }
    let decimals = put_decimals(text, end, (thousandths % 1000) as u64);
    let point = put(text, decimals, b".");
    put_wide_number(text, point, thousandths / 1000)
}

// The same of a number that 64 bits hold.
#[inline(always)]
#[tactic(auto, unfolding(fixed_num::specs::Print::unsigned_milli_text), using(fixed_num::proofs::PrintLemmas::whole_short, fixed_num::proofs::PrintLemmas::decimals_short))]
fn put_few(text: &mut [u8], end: usize, thousandths: u64) -> usize
    requires room { 32 ≤ end }
    requires within { end ≤ length text.old }
    ensures start { result + length (unsigned_milli_text thousandths) ≡ end }
    ensures short { length (unsigned_milli_text thousandths) ≤ 32 }
    ensures written { drop result text.new ≡ unsigned_milli_text thousandths ++ drop end text.old }
{
    let decimals = put_decimals(text, end, thousandths % 1000);
    let point = put(text, decimals, b".");
    put_number(text, point, thousandths / 1000)
}

// Writes the digits of a number that 64 bits may not hold.
fn put_wide_number(text: &mut [u8], end: usize, n: u128) -> usize
    requires room { length (decimal n) ≤ end }
    requires within { end ≤ length text.old }
    requires range { n ≤ 10 ^ 27 }
    ensures start { result + length (decimal n) ≡ end }
    ensures written { drop result text.new ≡ decimal n ++ drop end text.old }
{
    let mut left = n;
    let mut at = end;
    while left > u128::from(u64::MAX) {
        at = put_pair(text, at, (left % 100) as u64);
        left /= 100;
    }
    put_number(text, at, left as u64)
}

// Writes the decimals of a number of thousandths.
#[inline(always)]
#[tactic(auto, using(fixed_num::proofs::PrintLemmas::one_decimal, crate::proofs::BackwardLemmas::two_decimals, crate::proofs::BackwardLemmas::three_decimals))]
fn put_decimals(text: &mut [u8], end: usize, thousandths: u64) -> usize
    requires room { 3 ≤ end }
    requires within { end ≤ length text.old }
    requires part { thousandths < 1000 }
    ensures start { result + length (decimals_text thousandths) ≡ end }
    ensures written { drop result text.new ≡ decimals_text thousandths ++ drop end text.old }
{
    let last = thousandths % 10;
    if last != 0 {
        let start = put(text, end, &[b'0' + last as u8]);
        return put_pair(text, start, thousandths / 10);
    }
    if thousandths / 10 % 10 != 0 {
        return put_pair(text, end, thousandths / 10);
    }
    put(text, end, &[b'0' + (thousandths / 100) as u8])
}

/// Writes the digits of a number so that they end at `end`, and answers where they start.
#[inline(always)]
pub(crate) fn put_number(text: &mut [u8], end: usize, n: u64) -> usize
    requires room { length (decimal n) ≤ end }
    requires within { end ≤ length text.old }
    ensures start { result + length (decimal n) ≡ end }
    ensures written { drop result text.new ≡ decimal n ++ drop end text.old }
{
    let mut left = n;
    let mut at = end;
    while left >= 100 {
        at = put_pair(text, at, left % 100);
        left /= 100;
    }
    put_first(text, at, left)
}

// Writes the first one or two digits of a number.
#[inline(always)]
fn put_first(text: &mut [u8], end: usize, n: u64) -> usize
    requires short { n < 100 }
    requires room { length (decimal n) ≤ end }
    requires within { end ≤ length text.old }
    ensures start { result + length (decimal n) ≡ end }
    ensures written { drop result text.new ≡ decimal n ++ drop end text.old }
{
    if n < 10 {
        text[end - 1] = b'0' + n as u8;
        return end - 1;
    }
    put_pair(text, end, n)
}

/// Writes two digits so that they end at `end`, and answers where they start.
#[inline(always)]
pub(crate) fn put_pair(text: &mut [u8], end: usize, pair: u64) -> usize
    requires short { pair < 100 }
    requires room { 2 ≤ end }
    requires within { end ≤ length text.old }
    ensures start { result + 2 ≡ end }
    ensures written { drop result text.new ≡ (48 + pair / 10) ∷ (48 + pair % 10) ∷ drop end text.old }
{
    let at = end - 2;
    set_pair(text, at, pair);
    at
}

/// Writes two digits from a place on.
#[inline(always)]
pub(crate) fn set_pair(text: &mut [u8], at: usize, pair: u64)
    requires short { pair < 100 }
    requires within { at + 2 ≤ length text.old }
    ensures written { drop at text.new ≡ (48 + pair / 10) ∷ (48 + pair % 10) ∷ drop (at + 2) text.old }
    ensures before { take at text.new ≡ take at text.old }
{
    let from = pair as usize * 2;
    let (tens, ones) = (PAIRS[from], PAIRS[from + 1]);
    text[at] = tens;
    text[at + 1] = ones;
}
