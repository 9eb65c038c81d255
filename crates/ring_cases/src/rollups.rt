//! Rollups of known values.

use crate::told::{tell_value, tell_whether};
use crate::words::{method_in, values_in};
use case_lines::{Case, Told};
use rollup::{enough, roll};
use std::alloc::Global;

// The most places that a rollup is of.
const MOST_PLACES: u32 = 31_536_000;

/// `roll METHOD VALUES PLACES`: what these values of so many places roll up to.
pub fn tell_roll(alloc: Global, told: &mut Told, case: &Case) {
    let method = method_in(case.text_at(0, told), told);
    let known = values_in(alloc, case.text_at(1, told), told);
    let places = case.small_at(2, told);
    if known.len() > places as usize || places > MOST_PLACES {
        told.malformed();
    } else {
        tell_value(told, roll(method, &known, places));
    }
}

/// `enough KNOWN PLACES FACTOR`: whether so many known places are enough.
pub fn tell_enough(told: &mut Told, case: &Case) {
    let known = case.small_at(0, told);
    let places = case.small_at(1, told);
    let factor = case.small_at(2, told);
    tell_whether(told, enough(known, places, factor));
}
