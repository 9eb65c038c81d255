//! Quotients and products of values, exact and rounded down.
ghost use Rattle.std.specs.Prelude.{◌≡◌, ◌≢◌, ◌<◌, ◌*◌, ◌^◌, pos, unsigned_abs, ◌+ℤ◌, ◌*ℤ◌, ◌-ℤ◌, ◌<ℤ◌, FitsSigned, Some, SomeIff};
ghost use Rattle.std.specs.Int.{int_div_euclid, int_rem_euclid, w128};
ghost use Rattle.fixed_num.specs.Milli.{value_of};
ghost use Rattle.series_funcs.specs.Quotients.{floor_quotient, ratio, times};

use fixed_num::{Milli, milli_of, narrow, wide};

/// The product of two values, rounded down.
#[tactic(auto, unfolding(crate::specs::Quotients::times))]
pub(crate) fn times(a: Milli, b: Milli) -> Option<Milli>
    ensures { result ≡ times a b }
{
    product_over(a, wide(b), 1000)
}

/// The first value over the second, rounded down; `None` where that is 0.
#[tactic(auto, unfolding(crate::specs::Quotients::ratio))]
pub(crate) fn ratio(a: Milli, b: Milli) -> Option<Milli>
    ensures { result ≡ ratio a b }
{
    let divisor = wide(b);
    if divisor == 0 {
        return None;
    }
    quotient(wide(a) * 1000, divisor)
}

/// The difference of two values, where it fits.
pub(crate) fn fitting_difference(a: Milli, b: Milli) -> Option<Milli>
    ensures { result ≡ value_of (a -ℤ b) }
{
    narrow(wide(a) - wide(b))
}

/// A value times a number, over another one, rounded down, where that fits.
pub(crate) fn product_over(value: Milli, by: i128, divisor: u64) -> Option<Milli>
    requires some { 0 < divisor }
    requires room { divisor * unsigned_abs by < 2 ^ 127 }
    ensures { result ≡ value_of (floor_quotient (value *ℤ by) (pos divisor)) }
{
    // Mostly 128 bits hold the product.
    match wide(value).checked_mul(by) {
        Some(product) => over(product, divisor),
        None => split_product(wide(value), by, i128::from(divisor)),
    }
}

// The same where 128 bits do not hold the product: the value is split by the divisor. Where
// they do not hold the larger part either, the quotient is past all values.
fn split_product(number: i128, by: i128, divisor: i128) -> Option<Milli>
    requires some { pos 0 <ℤ divisor }
    requires room { unsigned_abs divisor * unsigned_abs by < 2 ^ 127 }
    ensures { result ≡ value_of (floor_quotient (number *ℤ by) divisor) }
{
    let Some(whole) = whole_product(number, by, divisor) else {
        return None;
    };
    narrow_sum(whole, rest_product(number, by, divisor))
}

// The product of the whole quotient, where 128 bits hold it.
fn whole_product(number: i128, by: i128, divisor: i128) -> Option<i128>
    requires { pos 0 <ℤ divisor }
    ensures { let whole = int_div_euclid number divisor *ℤ by in
        SomeIff result (FitsSigned w128 whole) whole }
{
    number.div_euclid(divisor).checked_mul(by)
}

// What the rest adds to it.
fn rest_product(number: i128, by: i128, divisor: i128) -> i128
    requires some { pos 0 <ℤ divisor }
    requires room { unsigned_abs divisor * unsigned_abs by < 2 ^ 127 }
    ensures { result ≡ int_div_euclid (int_rem_euclid number divisor *ℤ by) divisor }
{
    (number.rem_euclid(divisor) * by).div_euclid(divisor)
}

// The sum, where it fits.
fn narrow_sum(whole: i128, rest: i128) -> Option<Milli>
    ensures { result ≡ value_of (whole +ℤ rest) }
{
    let Some(sum) = whole.checked_add(rest) else {
        return None;
    };
    narrow(sum)
}

/// A number over another above 0, rounded down, where that fits.
fn over(number: i128, divisor: u64) -> Option<Milli>
    requires { 0 < divisor }
    ensures { result ≡ value_of (floor_quotient number (pos divisor)) }
{
    // Mostly both fit 64 bits, in which a division is one instruction.
    if let (Ok(short), Ok(by)) = (i64::try_from(number), i64::try_from(divisor)) {
        return Some(short_over(short, by));
    }
    narrow(number.div_euclid(i128::from(divisor)))
}

// The same of numbers of 64 bits, where it always fits.
fn short_over(number: i64, divisor: i64) -> Milli
    requires { pos 0 <ℤ divisor }
    ensures { Some result ≡ value_of (int_div_euclid number divisor) }
{
    milli_of(number.div_euclid(divisor))
}

/// The quotient rounded down, where it fits.
fn quotient(dividend: i128, divisor: i128) -> Option<Milli>
    requires some { divisor ≢ pos 0 }
    requires above { unsigned_abs dividend < 2 ^ 127 }
    requires near { unsigned_abs divisor < 2 ^ 127 }
    ensures { result ≡ value_of (floor_quotient dividend divisor) }
{
    if let Ok(by) = u64::try_from(divisor) {
        return over(dividend, by);
    }
    narrow(floor_quotient(dividend, divisor))
}

// The quotient rounded down, towards the lesser number.
fn floor_quotient(dividend: i128, divisor: i128) -> i128
    requires some { divisor ≢ pos 0 }
    requires above { unsigned_abs dividend < 2 ^ 127 }
    requires near { unsigned_abs divisor < 2 ^ 127 }
    ensures { result ≡ floor_quotient dividend divisor }
{
    if divisor < 0 {
        return (-dividend).div_euclid(-divisor);
    }
    dividend.div_euclid(divisor)
}
