//! The text of a value.

ghost use Rattle.std.specs.Prelude.{◌≡◌, ◌≤◌, ◌<◌, ◌+◌, ◌/◌, ◌%◌, ◌^◌, ◌++◌, length, take, drop};
ghost use Rattle.fixed_num.specs.Print.{milli_text, unsigned_milli_text, decimals_text};

use crate::milli::{MILLI_TEXT, Milli, wide};
use itoa::Buffer;

/// Writes a value's text to the front of `out`: `-` where it is negative, the whole part, a point,
/// and one to three decimals without trailing zeros past the first. Answers the text's length;
/// what stands behind it is left as it was.
#[tactic(auto, using(crate::proofs::PrintLemmas::milli_text_negative, crate::proofs::PrintLemmas::milli_text_positive))]
pub fn print_milli(value: Milli, out: &mut [u8; MILLI_TEXT]) -> usize
    ensures length { result ≡ length (milli_text value) }
    ensures written { take result out.new ≡ milli_text value }
    ensures behind { drop result out.new ≡ drop result out.old }
{
    let number = wide(value);
    let magnitude = number.unsigned_abs();
    if number < 0 {
        let sign = put(out, 0, b"-");
        return put_unsigned(out, sign, magnitude);
    }
    put_unsigned(out, 0, magnitude)
}

// Writes the text of a number of thousandths without a sign, and answers where it ends.
#[tactic(auto, unfolding(crate::specs::Print::unsigned_milli_text), using(crate::proofs::PrintLemmas::whole_short, crate::proofs::PrintLemmas::decimals_short, crate::proofs::PrintLemmas::drop_later))]
fn put_unsigned(out: &mut [u8; MILLI_TEXT], at: usize, thousandths: u128) -> usize
    requires room { at ≤ 1 }
    requires range { thousandths ≤ 10 ^ 30 }
    ensures end { result ≡ at + length (unsigned_milli_text thousandths) }
    ensures written { take result out.new ≡ take at out.old ++ unsigned_milli_text thousandths }
    ensures behind { drop result out.new ≡ drop result out.old }
{
    let parts = parted(thousandths);
    let mut buffer = Buffer::new();
    let whole = put(out, at, buffer.format(parts.0).as_bytes());
    let point = put(out, whole, b".");
    put_decimals(out, point, parts.1)
}

// The whole part of a number of thousandths, and the thousandths beside it. Most numbers have
// 64 bits, and their quotient is the faster one.
fn parted(thousandths: u128) -> (u128, u64)
    ensures whole { result.0 ≡ thousandths / 1000 }
    ensures rest { result.1 ≡ thousandths % 1000 }
{
    if thousandths <= u128::from(u64::MAX) {
        let few = thousandths as u64;
        return (u128::from(few / 1000), few % 1000);
    }
    (thousandths / 1000, (thousandths % 1000) as u64)
}

// Writes a piece at a place, and answers where it ends.
fn put(out: &mut [u8; MILLI_TEXT], at: usize, piece: &[u8]) -> usize
    requires { at + length piece.now ≤ MILLI_TEXT }
    ensures end { result ≡ at + length piece.now }
    ensures written { take result out.new ≡ take at out.old ++ piece.now }
    ensures behind { drop result out.new ≡ drop result out.old }
{
    let end = at + piece.len();
    out[at..end].copy_from_slice(piece);
    end
}

// Writes the decimals of a number of thousandths, and answers where they end.
#[tactic(auto, using(crate::proofs::PrintLemmas::three_decimals, crate::proofs::PrintLemmas::two_decimals, crate::proofs::PrintLemmas::one_decimal))]
fn put_decimals(out: &mut [u8; MILLI_TEXT], at: usize, thousandths: u64) -> usize
    requires room { at + 3 ≤ MILLI_TEXT }
    requires part { thousandths < 1000 }
    ensures end { result ≡ at + length (decimals_text thousandths) }
    ensures written { take result out.new ≡ take at out.old ++ decimals_text thousandths }
    ensures behind { drop result out.new ≡ drop result out.old }
{
    let tenths = b'0' + (thousandths / 100) as u8;
    let hundredths = b'0' + (thousandths / 10 % 10) as u8;
    let last = b'0' + (thousandths % 10) as u8;
    if last != b'0' {
        return put(out, at, &[tenths, hundredths, last]);
    }
    if hundredths != b'0' {
        return put(out, at, &[tenths, hundredths]);
    }
    put(out, at, &[tenths])
}
