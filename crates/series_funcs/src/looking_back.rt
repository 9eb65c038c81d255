//! What is made of each value and those before it.
ghost use Rattle.std.specs.Prelude.{◌≡◌, ◌≤◌, IfOk, None, if◌then◌else◌, is_none, length, pos};
ghost use Rattle.std.specs.List.{prefix_len};
ghost use Rattle.std.specs.Option.{option_or};
ghost use Rattle.series_set.specs.Series.{most_values};
ghost use Rattle.series_funcs.specs.Shaped.{at_places, change_at, changed_value, delayed_at, derivative_at, differs, integral_at, is_short, kept_at, minus, rises};
ghost use Rattle.series_funcs.specs.declared.changing.Change.TheVariants.{NotBelow};

use crate::changing::{not_below, one_where};
use crate::quotients::fitting_difference;
use fixed_num::{Milli, narrow, wide, zero};
use series_set::{Reading, flattened};
use std::alloc::{AllocError, Global};

/// Takes from each value the one before: the first, and each beside a missing one, becomes missing.
pub(crate) fn differ(values: &mut Vec<Reading>)
    ensures { values.new.items ≡ at_places derivative_at values.old.items }
{
    let mut before = Reading::missing();
    for place in 0..values.len() {
        let value = values[place];
        values[place] = Reading::of(minus(value, before));
        before = value;
    }
}

#[tactic(auto, unfolding(crate::specs::Shaped::minus))]
fn minus(value: Reading, other: Reading) -> Option<Milli>
    ensures { result ≡ minus value other }
{
    fitting_difference(value.get()?, other.get()?)
}

/// Makes of each value by how much it is above the one before, where it is not below it.
pub(crate) fn rise(values: &mut Vec<Reading>)
    ensures { values.new.items ≡ rises values.old.items }
{
    let mut before = Reading::missing();
    for place in 0..values.len() {
        let value = values[place];
        values[place] = Reading::of(risen(value, before));
        before = value;
    }
}

#[tactic(auto, unfolding(crate::specs::Shaped::changed_value))]
fn risen(value: Reading, other: Reading) -> Option<Milli>
    ensures { result ≡ changed_value (NotBelow (pos 0)) (minus value other) }
{
    not_below(zero(), minus(value, other)?)
}

/// Makes of each known value the sum of the known up to it.
#[tactic(auto, unfolding(crate::specs::Shaped::integral_at))]
pub(crate) fn add_up(values: &mut Vec<Reading>)
    requires { length values.old.items ≤ most_values }
    ensures { values.new.items ≡ at_places integral_at values.old.items }
{
    let mut sum = 0;
    for place in 0..values.len() {
        let Some(value) = values[place].get() else {
            continue
        };
        sum += wide(value);
        values[place] = Reading::of(narrow(sum));
    }
}

/// The values so many places later.
pub(crate) fn delayed(
    alloc: Global,
    values: &[Reading],
    places: usize,
) -> Result<Vec<Reading>, AllocError>
    ensures { IfOk result (λ later. later.items ≡ at_places (delayed_at places) values.now) }
{
    let mut later = Vec::with_capacity(alloc, values.len())?;
    for place in 0..values.len() {
        later.push(Reading::of(delayed_at(values, places, place)))?;
    }
    Ok(later)
}

fn delayed_at(values: &[Reading], places: usize, place: usize) -> Option<Milli>
    ensures { result ≡ delayed_at places values.now place }
{
    if place < places {
        return None;
    }
    flattened(values.get(place - places).copied())
}

/// Makes of each value 1 where it differs from the last known before, and else 0.
#[tactic(auto, unfolding(crate::specs::Shaped::change_at))]
pub(crate) fn tell_changes(values: &mut Vec<Reading>)
    ensures { values.new.items ≡ at_places change_at values.old.items }
{
    let mut last = Reading::missing();
    for place in 0..values.len() {
        let value = values[place];
        values[place] = Reading::known(one_where(differs(value, last)));
        last = latest(value, last);
    }
}

// The value, or the last known before where it is missing.
fn latest(value: Reading, last: Reading) -> Reading
    ensures { result ≡ option_or value last }
{
    if value.is_known() {
        return value;
    }
    last
}

fn differs(value: Reading, other: Reading) -> bool
    ensures { result ≡ differs value other }
{
    match (value.get(), other.get()) {
        (Some(value), Some(other)) => value != other,
        _ => false,
    }
}

/// Puts into each gap of at most so many values, or into any, the known value before it.
pub(crate) fn keep_last(values: &mut Vec<Reading>, most: Option<u32>)
    ensures { values.new.items ≡ at_places (kept_at most) values.old.items }
{
    let mut last = Reading::missing();
    let mut in_gap = false;
    let mut fill = Reading::missing();
    for place in 0..values.len() {
        if let Some(value) = values[place].get() {
            last = Reading::known(value);
            in_gap = false;
            continue;
        }
        // The whole gap is looked at once, at its first place.
        if !in_gap {
            fill = fill_for(last, most, &values[place..]);
            in_gap = true;
        }
        values[place] = fill;
    }
}

// What a gap takes with which the rest of the values begins.
fn fill_for(last: Reading, most: Option<u32>, rest: &[Reading]) -> Reading
    ensures { result ≡ (if is_short most (prefix_len is_none rest.now) then last else None) }
{
    if is_short(most, gap_length(rest)) {
        return last;
    }
    Reading::missing()
}

fn is_short(most: Option<u32>, gap: usize) -> bool
    ensures { result ≡ is_short most gap }
{
    most.is_none_or(|most| gap <= most as usize)
}

// How many missing values the rest begins with.
fn gap_length(rest: &[Reading]) -> usize
    ensures { result ≡ prefix_len is_none rest.now }
{
    rest.iter().take_while(|value| value.is_missing()).count()
}
