//! A value that may be missing.
ghost use Rattle.std.specs.Prelude.{◌≡◌, IfOk, Some, None, is_none, is_some};
ghost use Rattle.std.specs.Option.{option_flatten};
ghost use Rattle.fixed_num.specs.Halves.{number_of_halves};
ghost use Rattle.series_set.specs.Readings.{AreHalves, reading_of};

use fixed_num::{Milli, narrow, wide};
use std::alloc::{AllocError, Global};
use std::marker::Model;

/// A value that may be missing: an `Option` of a [`Milli`] in no more bytes than the value takes.
///
/// It is kept in two halves of 64 bits, as the value is. A missing one has the high half of the
/// least number of 128 bits with a sign, which no value has.
#[derive(Clone, Copy)]
pub struct Reading {
    high: u64,
    low: u64,
}

impl Model for Reading {
    ghost use Rattle.std.specs.Prelude.{Option, ℤ};

    ghost Value = { Option ℤ };

    ghost use Rattle.series_set.specs.Readings.{AreHalves, reading_high, reading_low, reading_of, readings_back};

    ghost view = { λ r. reading_of r.high r.low };

    ghost invariant = { λ r. AreHalves r.high r.low };

    ghost inverse = { λ reading. record { high = reading_high reading; low = reading_low reading } };

    ghost inverse_ok = { λ r are. readings_back (λ high low. record { high = high; low = low })
        r.high r.low are };
}

// The high half of a missing one.
const MISSING: u64 = 1 << 63;

// How many values are taken before their memory is given back.
const PIECE: usize = 65_536;

// A half is counted in so many.
const HALF: u128 = 18_446_744_073_709_551_616;

impl Reading {
    /// A missing value.
    pub fn missing() -> Reading
        ensures { result ≡ None }
    {
        Reading {
            high: MISSING,
            low: 0,
        }
    }

    /// A known value.
    pub fn known(value: Milli) -> Reading
        ensures { result ≡ Some value }
    {
        let bits = wide(value).cast_unsigned();
        Reading {
            high: (bits / HALF) as u64,
            low: (bits % HALF) as u64,
        }
    }

    /// The value, or a missing one.
    pub fn of(value: Option<Milli>) -> Reading
        ensures { result ≡ value }
    {
        let Some(value) = value else {
            return Reading::missing();
        };
        Reading::known(value)
    }

    /// The value, `None` where it is missing.
    pub fn get(self) -> Option<Milli>
        ensures { result ≡ self }
    {
        value_in(self.high, self.low)
    }

    /// Whether the value is known.
    pub fn is_known(self) -> bool
        ensures { result ≡ is_some self }
    {
        self.high != MISSING
    }

    /// Whether the value is missing.
    pub fn is_missing(self) -> bool
        ensures { result ≡ is_none self }
    {
        self.high == MISSING
    }
}

/// The value that was found, `None` where none was or it is missing.
pub fn flattened(found: Option<Reading>) -> Option<Milli>
    ensures { result ≡ option_flatten found }
{
    let Some(value) = found else {
        return None;
    };
    value.get()
}

/// Values that may be missing, in the same order. Where they are many, those that were taken leave their memory in pieces.
pub fn readings(alloc: Global, values: Vec<Option<Milli>>) -> Result<Vec<Reading>, AllocError>
    ensures { IfOk result (λ readings. readings.items ≡ values.items) }
{
    let mut values = values;
    let mut readings = Vec::with_capacity(alloc, values.len())?;
    while let Some(value) = values.pop() {
        readings.push(Reading::of(value))?;
        if values.len() % PIECE == 0 {
            values.shrink_to_fit();
        }
    }
    readings.reverse();
    Ok(readings)
}

// The value in two halves.
fn value_in(high: u64, low: u64) -> Option<Milli>
    requires { AreHalves high low }
    ensures { result ≡ reading_of high low }
{
    if high == MISSING {
        return None;
    }
    narrow(number_of(high, low))
}

// The number in two halves.
fn number_of(high: u64, low: u64) -> i128
    ensures { result ≡ number_of_halves high low }
{
    (u128::from(high) * HALF + u128::from(low)).cast_signed()
}
