//! The rollup of known values: how values of a finer archive become one value of a coarser, by
//! Graphite's aggregation methods, and whether enough of them are known. Nothing here takes memory.
#![tactic(auto)]

ghost use Rattle.std.specs.Prelude.{◌≡◌, ◌≤◌, ◌*◌, ◌↔◌, IsTrue, length};
ghost use Rattle.rollup.specs.Rollup.{is_enough, rolled};

use fixed_num::Milli;
use ring_format::Method;

mod laws;
mod picked;
mod sums;

pub use laws::{
    abs_max_is_the_earliest_farthest, abs_min_is_the_earliest_nearest, max_is_the_greatest,
    min_is_the_least,
};
use picked::{farthest, greatest, latest, least, nearest};
use sums::{mean_over, total};

/// One value of a coarser archive from the known values of a finer one, in thousandths, by a method of
/// Graphite's Whisper files.
///
/// The known values are in order of time. `all` counts the places that they are of, known or not: it is
/// at least the number of known values, and at most 31,536,000, the seconds of 365 days. Sums are exact
/// and quotients are rounded down, so that the average of -1 and 0 is -1. Of values of the same
/// magnitude `AbsMax` and `AbsMin` give the earliest. `None` exactly where no value is known, or the
/// exact result does not fit a [`Milli`].
#[tactic(auto, unfolding(crate::specs::Rollup::rolled))]
pub fn roll(method: Method, known: &[Milli], all: u32) -> Option<Milli>
    requires few { length known.now ≤ all }
    requires short { all ≤ 31_536_000 }
    ensures { result ≡ rolled method known.now all }
{
    match method {
        Method::Average => mean_over(known.len() as u32, known),
        Method::Sum => total(known),
        Method::Last => latest(known),
        Method::Max => greatest(known),
        Method::Min => least(known),
        Method::AvgZero => mean_over(all, known),
        Method::AbsMax => farthest(known),
        Method::AbsMin => nearest(known),
    }
}

/// Whether enough of `all` places are known for a coarser value: at least the part `factor`, in
/// millionths, which is Whisper's `xFilesFactor`.
pub fn enough(known: u32, all: u32, factor: u32) -> bool
    ensures exactly { IsTrue result ↔ factor * all ≤ known * 1_000_000 }
    ensures value { result ≡ is_enough known all factor }
{
    u64::from(known) * 1_000_000 >= u64::from(factor) * u64::from(all)
}
