//! The readers of the whole grammar of decimals.

ghost use Rattle.std.specs.Prelude.{◌≡◌, ◌<◌, ◌^◌, FitsSigned, IfOk, SomeIff};
ghost use Rattle.std.specs.Int.{w64};
ghost use Rattle.fixed_num.specs.Decimal.{fits, fits_i64};
ghost use Rattle.fixed_num.specs.Milli.{IsMilli};
ghost use Rattle.fixed_num.specs.Read.{fault_of, fitting, is_reached_within, milli_result, millionths_result, nano_result, rounded_down};

use crate::grammar::{is_not_finite, starts_with_minus};
use crate::reached::Reached;
use crate::scaling::reached_in;
use crate::{Milli, NumFault, narrow};

/// Reads a decimal in thousandths, rounded down: towards the lesser number.
///
/// A decimal is an optional sign, digits with at most one point among, before or behind them, and
/// optionally `e` or `E`, a sign or none and one to three digits. It is read exactly, however many
/// digits stand.
///
/// # Errors
///
/// `NotFinite` for `nan`, `inf` and `infinity` in any case and with an optional sign, `NotNumber`
/// for any other text that is no decimal, `OutOfRange` where the thousandths do not fit.
pub fn read_milli(text: &[u8]) -> Result<Milli, NumFault>
    ensures value { result ≡ milli_result text.now }
    ensures fits { IfOk result IsMilli }
{
    let Some(reached) = reached_in(text, 3) else {
        return Err(fault_of(text));
    };
    fitting(rounded_down(starts_with_minus(text), reached))
}

/// Reads a decimal in billionths that 64 bits hold, rounded down; in all else it is [`read_milli`].
pub fn read_nano(text: &[u8]) -> Result<i64, NumFault>
    ensures { result ≡ nano_result text.now }
{
    let Some(reached) = reached_in(text, 9) else {
        return Err(fault_of(text));
    };
    fitting_i64(rounded_down(starts_with_minus(text), reached))
}

/// Reads a decimal from 0 to 1 in millionths, rounded down.
///
/// # Errors
///
/// Those of [`read_milli`], with `OutOfRange` where the decimal is below 0 or above 1. `-0` is 0.
pub fn read_millionths(text: &[u8]) -> Result<u32, NumFault>
    ensures { result ≡ millionths_result text.now }
{
    let Some(reached) = reached_in(text, 6) else {
        return Err(fault_of(text));
    };
    if !is_within(1_000_000, starts_with_minus(text), reached) {
        return Err(NumFault::OutOfRange);
    }
    Ok(reached.whole as u32)
}

// Why a text that is no decimal has no value.
fn fault_of(text: &[u8]) -> NumFault
    ensures { result ≡ fault_of text.now }
{
    if is_not_finite(text) {
        return NumFault::NotFinite;
    }
    NumFault::NotNumber
}

fn rounded_down(negative: bool, reached: Reached) -> i128
    requires { reached.whole < 2 ^ 127 }
    ensures { result ≡ rounded_down negative reached }
{
    let whole = reached.whole as i128;
    if !negative {
        return whole;
    }
    if reached.exact {
        return -whole;
    }
    -whole - 1
}

fn fitting(number: i128) -> Result<Milli, NumFault>
    ensures value { result ≡ fitting fits number }
    ensures fits { IfOk result IsMilli }
{
    narrow(number).ok_or(NumFault::OutOfRange)
}

fn fitting_i64(number: i128) -> Result<i64, NumFault>
    ensures { result ≡ fitting fits_i64 number }
{
    narrow_i64(number).ok_or(NumFault::OutOfRange)
}

fn narrow_i64(number: i128) -> Option<i64>
    ensures { SomeIff result (FitsSigned w64 number) number }
{
    i64::try_from(number).ok()
}

fn is_within(most: u128, negative: bool, reached: Reached) -> bool
    ensures { result ≡ is_reached_within most negative reached }
{
    if negative {
        return reached.whole == 0 && reached.exact;
    }
    reached.whole < most || (reached.whole == most && reached.exact)
}
