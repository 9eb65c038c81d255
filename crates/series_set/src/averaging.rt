//! The average of known values.
ghost use Rattle.std.specs.Prelude.{◌≡◌, ◌<◌, ◌≤◌, length, pos};
ghost use Rattle.std.specs.Int.{int_div_euclid};
ghost use Rattle.series_set.specs.Series.{most_values};
ghost use Rattle.series_set.specs.Average.{IsWithinSums, average, known, sum_of};

use crate::reading::Reading;
use fixed_num::{Milli, narrow, wide};

/// The average of those values that are not missing, rounded down, so that the average of -1 and 0 is -1: `None` exactly where all are
/// missing.
#[tactic(auto, unfolding(crate::specs::Average::average))]
pub fn average_known(values: &[Reading]) -> Option<Milli>
    requires { length values.now ≤ most_values }
    ensures { result ≡ average (known values.now) }
{
    let total = total_known(values);
    if total.count == 0 {
        return None;
    }
    narrow(quotient(total.sum, total.count))
}

// The quotient, rounded down.
fn quotient(sum: i128, count: u32) -> i128
    requires { 0 < count }
    ensures { result ≡ int_div_euclid sum (pos count) }
{
    sum.div_euclid(i128::from(count))
}

#[derive(Clone, Copy)]
struct Total {
    sum: i128,
    count: u32,
}

// The exact sum of the known values, and their number.
#[tactic(auto, unfolding(crate::specs::Average::sum_of))]
fn total_known(values: &[Reading]) -> Total
    requires { length values.now ≤ most_values }
    ensures sum { result.sum ≡ sum_of (known values.now) }
    ensures count { result.count ≡ length (known values.now) }
    ensures few { result.count ≤ length values.now }
    ensures within { IsWithinSums result.count result.sum }
{
    let mut sum = 0;
    let mut count = 0;
    for value in values {
        let Some(known) = value.get() else { continue };
        sum += wide(known);
        count += 1;
    }
    Total { sum, count }
}
