//! The pending points of a stretch of time.
ghost use Rattle.std.specs.Prelude.{◌≡◌, ◌≤◌, ◌+◌, ◌<◌, ℕ, length, map, IfOk, All};
ghost use Rattle.std.specs.List.{AllWithin};
ghost use Rattle.point_cache.specs.Points.{IsRising};
ghost use Rattle.series_fetch.specs.Cut.{IsCut};
ghost use Rattle.series_fetch.specs.Shown.{values_in};

use fixed_num::Milli;
use std::alloc::{AllocError, Global};

/// The points from a moment on and before another.
pub(crate) fn between(points: &[(u32, Milli)], first: u32, end: u32) -> &[(u32, Milli)]
    requires rising { IsRising points.now }
    requires order { first ≤ end }
    ensures rising { IsRising result.now }
    ensures from { All (λ p. first ≤ p.0) result.now }
    ensures same { (step bucket : ℕ) → 0 < step → first ≤ bucket → bucket + step ≤ end
        → values_in step result.now bucket ≡ values_in step points.now bucket }
{
    let from = count_before(points, first);
    let until = count_before(points, end);
    &points[from..until]
}

/// How many points are before a moment, found in a few steps.
fn count_before(points: &[(u32, Milli)], time: u32) -> usize
    requires { IsRising points.now }
    ensures { IsCut points.now time result }
{
    points.partition_point(|point| point.0 < time)
}

/// How many points are before a moment, where so many are known to be: found by going on from there.
pub(crate) fn cut_from(points: &[(u32, Milli)], at: usize, time: u32) -> usize
    requires rising { IsRising points.now }
    requires within { at ≤ length points.now }
    requires before { AllWithin (λ p. p.0 < time) points.now 0 at }
    ensures cut { IsCut points.now time result }
    ensures onward { at ≤ result }
{
    for place in at..points.len() {
        if time <= points[place].0 {
            return place;
        }
    }
    points.len()
}

/// The values of points.
pub(crate) fn values_of(alloc: Global, points: &[(u32, Milli)]) -> Result<Vec<Milli>, AllocError>
    ensures { IfOk result (λ known. known.items ≡ map (λ p. p.1) points.now) }
{
    let mut known = Vec::with_capacity(alloc, points.len())?;
    for point in points {
        known.push(point.1)?;
    }
    Ok(known)
}
