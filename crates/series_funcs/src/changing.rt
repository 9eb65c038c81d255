//! What is made of each value by itself.
ghost use Rattle.std.specs.Prelude.{◌≡◌, ◌≤◌, ◌<◌, ◌^◌, length, unsigned_abs};
ghost use Rattle.std.specs.Int.{int_min};
ghost use Rattle.std.specs.List.{reduce};
ghost use Rattle.series_set.specs.Average.{known};
ghost use Rattle.series_funcs.specs.Shaped.{above_least, changed_each, changed_value, MayChange, magnitude, not_above, not_below, one_where, plus, ratio_to};

use crate::quotients::product_over;
use fixed_num::{Milli, milli_of, narrow, wide, zero};
use series_set::Reading;

/// What is made of each value by itself. A missing one stays missing where nothing else is said.
#[derive(Clone, Copy)]
pub(crate) enum Change {
    /// Its magnitude.
    Magnitude,
    /// The value times a factor, over a divisor that is not 0, rounded down.
    Ratio { factor: i64, divisor: u64 },
    /// The value and a number that is a value, or would be with the other sign.
    Plus { other: i128 },
    /// The value, or this one for a missing one.
    KnownOr { other: Milli },
    /// 1, or 0 for a missing one.
    TellKnown,
    /// The value, where it is not above this one.
    NotAbove { most: Milli },
    /// The value, where it is not below this one.
    NotBelow { least: Milli },
}

/// The value 1, where a test holds, and else 0.
pub(crate) fn one_where(holds: bool) -> Milli
    ensures { result ≡ one_where holds }
{
    if holds { milli_of(1000) } else { zero() }
}

/// Changes each value.
#[tactic(auto, unfolding(crate::specs::Shaped::changed_each))]
pub(crate) fn change_each(values: &mut Vec<Reading>, change: &Change)
    requires { MayChange change.now }
    ensures { values.new.items ≡ changed_each change.now values.old.items }
{
    for place in 0..values.len() {
        let value = changed_value(change, values[place].get());
        values[place] = Reading::of(value);
    }
}

#[tactic(auto, unfolding(crate::specs::Shaped::changed_value))]
fn changed_value(change: &Change, value: Option<Milli>) -> Option<Milli>
    requires { MayChange change.now }
    ensures { result ≡ changed_value change.now value }
{
    match *change {
        Change::Magnitude => magnitude(value?),
        Change::Ratio { factor, divisor } => ratio_to(factor, divisor, value?),
        Change::Plus { other } => plus(other, value?),
        Change::KnownOr { other } => Some(value.unwrap_or(other)),
        Change::TellKnown => Some(one_where(value.is_some())),
        Change::NotAbove { most } => not_above(most, value?),
        Change::NotBelow { least } => not_below(least, value?),
    }
}

#[tactic(auto, unfolding(crate::specs::Shaped::magnitude))]
fn magnitude(value: Milli) -> Option<Milli>
    ensures { result ≡ magnitude value }
{
    narrow(wide(value).abs())
}

#[tactic(auto, unfolding(crate::specs::Shaped::ratio_to))]
fn ratio_to(factor: i64, divisor: u64, value: Milli) -> Option<Milli>
    requires { 0 < divisor }
    ensures { result ≡ ratio_to factor divisor value }
{
    product_over(value, i128::from(factor), divisor)
}

#[tactic(auto, unfolding(crate::specs::Shaped::plus))]
fn plus(other: i128, value: Milli) -> Option<Milli>
    requires { unsigned_abs other ≤ 10 ^ 30 }
    ensures { result ≡ plus other value }
{
    narrow(wide(value) + other)
}

fn not_above(most: Milli, value: Milli) -> Option<Milli>
    ensures { result ≡ not_above most value }
{
    if value > most {
        return None;
    }
    Some(value)
}

pub(crate) fn not_below(least: Milli, value: Milli) -> Option<Milli>
    ensures { result ≡ not_below least value }
{
    if value < least {
        return None;
    }
    Some(value)
}

/// Takes the least known value from each.
#[tactic(auto, unfolding(crate::specs::Shaped::above_least))]
pub(crate) fn take_least(values: &mut Vec<Reading>)
    ensures { values.new.items ≡ above_least values.old.items }
{
    let Some(least) = least_known(values.as_slice()) else {
        return
    };
    change_each(
        values,
        &Change::Plus {
            other: -wide(least),
        },
    );
}

fn least_known(values: &[Reading]) -> Option<Milli>
    ensures { result ≡ reduce int_min (known values.now) }
{
    values.iter().filter_map(|value| value.get()).min()
}
