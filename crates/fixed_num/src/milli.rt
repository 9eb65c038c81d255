//! Values: whole numbers of thousandths, from -10^30 to 10^30.
ghost use Rattle.std.specs.Prelude.{◌≡◌, ◌^◌, ◌≤◌, FitsSigned, SomeIff, pos, unsigned_abs};
ghost use Rattle.std.specs.Int.{w64};
ghost use Rattle.std.proofs.Common.{rules};
ghost use Rattle.std.specs.Cmp.{partial_order_from_own_ties};
ghost use Rattle.std.specs.Cmp.Rules.{comparing};
ghost use Rattle.std.specs.Ordering.{as_partial_cmp, int_cmp, int_eq};
ghost use Rattle.fixed_num.specs.Milli.{IsMilli, milli_bytes, milli_of_bytes, old_milli_of_bytes, value_of};

use std::cmp::Ordering;
use std::fmt;
use std::marker::Model;

/// A value: a whole number of thousandths, at least -10^30 and at most 10^30. Two values are
/// equal, or one is less, as their numbers are.
///
/// It is kept in two halves of 64 bits and not as one number of 128, so that a value and a
/// moment in a list take 24 bytes.
#[derive(Clone, Copy)]
pub struct Milli {
    high: u64,
    low: u64,
}

impl Model for Milli {
    ghost use Rattle.std.specs.Prelude.{◌<◌, ◌^◌, ℤ};

    ghost Value = { ℤ };

    ghost use Rattle.fixed_num.specs.Milli.{IsMilli};
    ghost use Rattle.fixed_num.specs.Halves.{halves_back, high_half, low_half, number_of_halves};

    ghost view = { λ a. number_of_halves a.high a.low };

    ghost invariant = { λ a. (a.high < 2 ^ 64) × (a.low < 2 ^ 64)
        × IsMilli (number_of_halves a.high a.low) };

    ghost inverse = { λ number. record { high = high_half number; low = low_half number } };

    ghost inverse_ok = { λ a h. halves_back (λ high low. record { high = high; low = low })
        a.high a.low h.0 h.1 };
}

/// The bytes of a value in a file.
pub const MILLI_BYTES: usize = 16;

/// The bytes of a value in a file of version 1.
pub const OLD_MILLI_BYTES: usize = 8;

/// The bytes that the text of any [`Milli`] fits in.
pub const MILLI_TEXT: usize = 40;

// How far from zero a value is at most.
const MOST: u128 = 1_000_000_000_000_000_000_000_000_000_000;

// A half is counted in so many.
const HALF: u128 = 18_446_744_073_709_551_616;

/// The number of thousandths, in a type that has room to compute in.
pub fn wide(value: Milli) -> i128
    ensures value { result ≡ value }
    ensures fits { IsMilli value }
{
    (u128::from(value.high) * HALF + u128::from(value.low)).cast_signed()
}

/// The value of a number of thousandths, `None` exactly where it does not fit.
#[tactic(auto, unfolding(crate::specs::Milli::value_of))]
pub fn narrow(number: i128) -> Option<Milli>
    ensures exactly { SomeIff result (IsMilli number) number }
    ensures value { result ≡ value_of number }
{
    // Most numbers have 64 bits, which is the faster test.
    if let Some(few) = few_bits(number) {
        return Some(milli_of(few));
    }
    if number.unsigned_abs() > MOST {
        return None;
    }
    Some(halved(number))
}

// The same number, where 64 bits hold it.
fn few_bits(number: i128) -> Option<i64>
    ensures { SomeIff result (FitsSigned w64 number) number }
{
    i64::try_from(number).ok()
}

/// The value of a number of thousandths that 64 bits hold, which fits.
pub fn milli_of(number: i64) -> Milli
    ensures { result ≡ number }
{
    halved(i128::from(number))
}

/// The value 0.
pub fn zero() -> Milli
    ensures { result ≡ pos 0 }
{
    Milli { high: 0, low: 0 }
}

// The value of a number of thousandths that fits.
fn halved(number: i128) -> Milli
    requires { IsMilli number }
    ensures { result ≡ number }
{
    let bits = number.cast_unsigned();
    Milli {
        high: (bits / HALF) as u64,
        low: (bits % HALF) as u64,
    }
}

/// The bytes of a value, big-endian in two's complement.
pub fn milli_bytes(value: Milli) -> [u8; MILLI_BYTES]
    ensures { result ≡ milli_bytes value }
{
    wide(value).to_be_bytes()
}

/// The value that these bytes hold, `None` exactly where their number does not fit.
pub fn milli_of_bytes(bytes: [u8; MILLI_BYTES]) -> Option<Milli>
    ensures { result ≡ milli_of_bytes bytes }
{
    narrow(i128::from_be_bytes(bytes))
}

/// The value that the bytes of one hold in a file of version 1, where each fits.
pub fn old_milli_of_bytes(bytes: [u8; OLD_MILLI_BYTES]) -> Milli
    ensures { result ≡ old_milli_of_bytes bytes }
{
    milli_of(i64::from_be_bytes(bytes))
}

impl PartialEq for Milli {
    ghost eq = { int_eq };

    ghost laws = { Prim.search (comparing, rules) };

    fn eq(&self, other: &Milli) -> bool {
        wide(*self) == wide(*other)
    }
}

impl Eq for Milli {
    ghost laws = { Prim.search (comparing, rules) };
}

impl Ord for Milli {
    ghost cmp = { int_cmp };

    ghost total = { Prim.search (comparing, rules) };

    ghost matches_partial_cmp = { Prim.search (comparing, rules) };

    ghost matches_eq = { Prim.search (comparing, rules) };

    fn cmp(&self, other: &Milli) -> Ordering {
        wide(*self).cmp(&wide(*other))
    }
}

impl PartialOrd for Milli {
    ghost partial_cmp = { as_partial_cmp int_cmp };

    ghost laws = { partial_order_from_own_ties (Prim.search (comparing, rules))
        (Prim.search (comparing, rules)) };

    fn partial_cmp(&self, other: &Milli) -> Option<Ordering> {
        Some(self.cmp(other))
    }
}

impl fmt::Debug for Milli {
    fn fmt<W: fmt::Write>(&self, f: &mut fmt::Formatter<W>) -> fmt::Result {
        fmt::Debug::fmt(&wide(*self), f)
    }
}
