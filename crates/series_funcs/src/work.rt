//! How much work functions count as. One is a nanosecond or two, at worst.
use crate::kinds::{Combine, Shape};
use fixed_num::wide;
use series_set::{Grid, Reading, Series};

/// What it is to copy a value, or to make a missing one.
const COPY: u64 = 4;

/// What it is to go over a value, and to write what becomes of it.
const VALUE: u64 = 8;

/// What a product with a division is, in 128 bits where 64 do not hold it.
const QUOTIENT: u64 = 24;

/// What such a product is more where 128 bits do not hold it either: it is divided in parts.
const FAR_QUOTIENT: u64 = 56;

/// The most that 128 bits hold.
const MOST_PRODUCT: u128 = (1 << 127) - 1;

/// What it is to look whether a series has values in a bucket, and to find where it has them.
const LOOK: u64 = 4;

const PLACE: u64 = 24;

/// How much it is to copy so many values.
pub(crate) fn of_copies(count: u64) -> u64 {
    COPY.saturating_mul(count)
}

/// How much it is to shape these values.
pub(crate) fn of_shape(kind: &Shape, values: &[Reading]) -> u64 {
    let count = values.len() as u64;
    match *kind {
        Shape::Scale { billionths } => of_products(values, billionths.unsigned_abs()),
        Shape::ScaleToSeconds { .. } => QUOTIENT.saturating_mul(count),
        Shape::PerSecond => (VALUE + QUOTIENT).saturating_mul(count),
        Shape::OffsetToZero => (VALUE + VALUE).saturating_mul(count),
        _ => VALUE.saturating_mul(count),
    }
}

// How much it is to have the quotients of the products of values with a factor.
fn of_products(values: &[Reading], factor: u64) -> u64 {
    let most = MOST_PRODUCT
        .checked_div(u128::from(factor))
        .unwrap_or(MOST_PRODUCT);
    let far = values
        .iter()
        .filter_map(|value| value.get())
        .filter(|value| wide(*value).unsigned_abs() > most)
        .count();
    QUOTIENT
        .saturating_mul(values.len() as u64)
        .saturating_add(FAR_QUOTIENT.saturating_mul(far as u64))
}

/// How much it is to gather so many values in so many buckets, one after the other.
pub(crate) fn of_summary(values: u64, buckets: u64) -> u64 {
    VALUE
        .saturating_mul(values)
        .saturating_add(PLACE.saturating_mul(buckets))
}

/// How much it is to have the quotients of two series at so many places.
pub(crate) fn of_quotients(values: u64, places: u64) -> u64 {
    let quotients = QUOTIENT.saturating_mul(places);
    of_summary(values, places).saturating_add(quotients)
}

/// How much it is to combine series on a grid of so many buckets. Where they have it themselves they are gone over once; else each bucket is looked
/// for in each of them.
pub(crate) fn of_combining(kind: Combine, series: &[Series], grid: &Grid, buckets: u64) -> u64 {
    let bucket = LOOK.saturating_mul(series.len() as u64);
    let product = match kind {
        Combine::Multiply => QUOTIENT,
        _ => 0,
    };
    let mut all = bucket.saturating_mul(buckets);
    for one in series {
        let each = if one.has_grid(*grid) { VALUE } else { PLACE };
        all = all.saturating_add((each + product).saturating_mul(one.values().len() as u64));
    }
    all
}
