//! The double nearest to a number of thousandths.
ghost use Rattle.std.specs.Prelude.{◌≡◌, ◌+◌, ◌*◌, ◌^◌, ◌<◌, ◌≤◌, unsigned_abs};
ghost use Rattle.pickle_form.specs.Double.{IsHalfEven, IsNearest, double_bits, magnitude_bits};

// The bit of the sign.
const SIGN: u64 = 1 << 63;

// So much the last place of a significand counts in the exponent.
const PLACE: u64 = 1 << 52;

// The upper half of a number is counted in so many.
const HALF: u128 = 18_446_744_073_709_551_616;

/// The bits of the double nearest to so many thousandths, ties to even; those of 0 have no sign.
pub fn nearest_double(thousandths: i128) -> u64
    requires { unsigned_abs thousandths ≤ 10 ^ 30 }
    ensures nearest { IsNearest thousandths result }
    ensures bits { result ≡ double_bits thousandths }
{
    let bits = magnitude_bits(thousandths.unsigned_abs());
    if thousandths < 0 {
        return SIGN + bits;
    }
    bits
}

// The bits of a value without its sign.
#[tactic(auto, unfolding(crate::specs::Double::magnitude_bits))]
fn magnitude_bits(thousandths: u128) -> u64
    requires { thousandths ≤ 10 ^ 30 }
    ensures bits { result ≡ magnitude_bits thousandths }
    ensures unsigned { result < 2 ^ 63 }
{
    if thousandths == 0 {
        return 0;
    }
    // The number is moved up so far that its upper half has all its bits. An eighth of a quotient by 125 is one by 1,000.
    let up = thousandths.leading_zeros();
    let top = thousandths << up;
    let high = (top / HALF) as u64;
    let low = (top % HALF) as u64;
    let rest = (high % 125).min(1).max(low.min(1));
    if high / 125 < 1 << 57 {
        return (1139 - u64::from(up)) * PLACE + rounded(high / 125, rest, 16);
    }
    (1140 - u64::from(up)) * PLACE + rounded(high / 125, rest, 32)
}

// The whole number nearest to a number by a unit, ties to even. A rest of 1 stands for a part of one that the number misses.
#[inline(always)]
#[tactic(auto, using(crate::proofs::HalfLemmas::rounds_down, crate::proofs::HalfLemmas::rounds_up, crate::proofs::HalfLemmas::rounds_even))]
fn rounded(number: u64, rest: u64, unit: u64) -> u64
    requires rest { rest ≤ 1 }
    requires unit { (16 ≤ unit) × (unit ≤ 32) }
    ensures half { IsHalfEven (2 * number + rest) (2 * unit) result }
    ensures short { result * unit ≤ number + unit }
{
    let whole = number / unit;
    let left = number % unit * 2 + rest;
    if left < unit {
        return whole;
    }
    if left > unit {
        return whole + 1;
    }
    whole + whole % 2
}
