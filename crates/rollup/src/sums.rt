//! The methods that add up the known values, in 128 bits, where no sum of so few is out of range.

ghost use Rattle.std.specs.Prelude.{◌≡◌, ◌≤◌, length};
ghost use Rattle.rollup.specs.Rollup.{mean_over, result_from, sum_of};

use fixed_num::{Milli, narrow, wide};

/// The exact sum: `None` exactly where no value is known or it does not fit.
#[tactic(auto, unfolding(crate::specs::Rollup::result_from))]
pub(crate) fn total(known: &[Milli]) -> Option<Milli>
    requires few { length known.now ≤ 31_536_000 }
    ensures { result ≡ result_from known.now (sum_of known.now) }
{
    if known.is_empty() {
        return None;
    }
    narrow(sum_of(known))
}

/// The exact sum over the number of places, rounded down: `None` exactly where no value is known or it
/// does not fit.
#[tactic(auto, unfolding(crate::specs::Rollup::result_from, crate::specs::Rollup::mean_over))]
pub(crate) fn mean_over(count: u32, known: &[Milli]) -> Option<Milli>
    requires few { count ≤ 31_536_000 }
    requires counted { length known.now ≤ count }
    ensures { result ≡ result_from known.now (mean_over count known.now) }
{
    if known.is_empty() {
        return None;
    }
    narrow(sum_of(known).div_euclid(i128::from(count)))
}

// The exact sum.
#[tactic(auto, unfolding(crate::specs::Rollup::sum_of))]
fn sum_of(known: &[Milli]) -> i128
    requires { length known.now ≤ 31_536_000 }
    ensures { result ≡ sum_of known.now }
{
    let mut sum = 0;
    for value in known {
        sum += wide(*value);
    }
    sum
}
