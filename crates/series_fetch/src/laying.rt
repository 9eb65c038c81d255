//! Pending points laid over an archive's values.
ghost use Rattle.std.specs.Prelude.{◌≡◌, ◌≤◌, ◌+◌, ◌*◌, ◌^◌, ◌%◌, ◌<◌, ℕ, All, IfOk, None, length, map, slice_index_or};
ghost use Rattle.std.specs.List.{range_with_len};
ghost use Rattle.point_cache.specs.Points.{IsRising};
ghost use Rattle.series_fetch.specs.Shown.{shown_in, shown_of, shown_of_pending};

use crate::points::{between, cut_from, values_of};
use fixed_num::Milli;
use ring_format::Layout;
use rollup::roll;
use std::alloc::{AllocError, Global};

/// The values of an archive's buckets from `first` on, a step apart, with pending points in rising time over them. A
/// bucket with pending points shows what they give and else what the archive holds. The work grows with the buckets and
/// the points, one after the other; without points in these buckets there is none.
pub(crate) fn with_pending(
    alloc: Global,
    mut values: Vec<Option<Milli>>,
    layout: &Layout,
    archive: u32,
    first: u32,
    step: u32,
    cached: &[(u32, Milli)],
) -> Result<Vec<Option<Milli>>, AllocError>
    requires some { 0 < step }
    requires short { step ≤ 31_536_000 }
    requires whole { first % step ≡ 0 }
    requires fits { first + length values.items * step < 2 ^ 32 }
    requires rising { IsRising cached.now }
    ensures { IfOk result (λ shown. shown.items ≡
        map (λ k. shown_in layout.now (λ _ _. slice_index_or values.items k None) cached.now archive step (first + k * step)) (range_with_len 0 (length values.items))) }
{
    let end = first + values.len() as u32 * step;
    let points = between(cached, first, end);
    if points.is_empty() {
        return Ok(values);
    }
    if archive > 0 {
        let known = values_of(alloc, points)?;
        lay_points(&mut values, layout, archive, first, step, points, &known);
        return Ok(values);
    }
    lay_latest(&mut values, layout, first, step, points);
    Ok(values)
}

/// Lays points over the values of the buckets from `first` on, a step apart. `known` are the values of the points.
fn lay_points(
    values: &mut [Option<Milli>],
    layout: &Layout,
    archive: u32,
    first: u32,
    step: u32,
    points: &[(u32, Milli)],
    known: &[Milli],
)
    requires step { (0 < step) × (step ≤ 31_536_000) }
    requires whole { first % step ≡ 0 }
    requires fits { first + length values.old * step < 2 ^ 32 }
    requires rising { IsRising points.now }
    requires from { All (λ p. first ≤ p.0) points.now }
    requires known { known.now ≡ map (λ p. p.1) points.now }
    ensures all { length values.new ≡ length values.old }
    ensures each { (k : ℕ) → k < length values.old → slice_index_or values.new k None ≡
        shown_in layout.now (λ _ _. slice_index_or values.old k None) points.now archive step (first + k * step) }
{
    let mut at = 0;
    let mut limit = first;
    for k in 0..values.len() {
        limit += step;
        let end = cut_from(points, at, limit);
        let held = values[k];
        values[k] = shown_value(layout, archive, held, &known[at..end]);
        at = end;
    }
}

/// The same in the finest archive, whose buckets show the latest of their points, so that no list of the values is needed.
fn lay_latest(
    values: &mut [Option<Milli>],
    layout: &Layout,
    first: u32,
    step: u32,
    points: &[(u32, Milli)],
)
    requires step { (0 < step) × (step ≤ 31_536_000) }
    requires whole { first % step ≡ 0 }
    requires fits { first + length values.old * step < 2 ^ 32 }
    requires rising { IsRising points.now }
    requires from { All (λ p. first ≤ p.0) points.now }
    ensures all { length values.new ≡ length values.old }
    ensures each { (k : ℕ) → k < length values.old → slice_index_or values.new k None ≡
        shown_in layout.now (λ _ _. slice_index_or values.old k None) points.now 0 step (first + k * step) }
{
    let mut at = 0;
    let mut limit = first;
    for k in 0..values.len() {
        limit += step;
        let end = cut_from(points, at, limit);
        let held = values[k];
        values[k] = latest_or(layout, held, &points[at..end]);
        at = end;
    }
}

/// What a bucket of the finest archive shows: the value of its latest point comes before what is held of it.
fn latest_or(layout: &Layout, held: Option<Milli>, own: &[(u32, Milli)]) -> Option<Milli>
    ensures { result ≡ shown_of layout.now (λ _ _. held) 0 0 (map (λ p. p.1) own.now) }
{
    // The layout is an argument for the contract alone.
    let _ = layout;
    if !own.is_empty() {
        return Some(own[own.len() - 1].1);
    }
    held
}

/// What a bucket shows: its pending values, in order of time, come before what is held of it.
fn shown_value(
    layout: &Layout,
    archive: u32,
    held: Option<Milli>,
    pending: &[Milli],
) -> Option<Milli>
    requires few { length pending.now ≤ 31_536_000 }
    ensures { result ≡ shown_of layout.now (λ _ _. held) archive 0 pending.now }
{
    if pending.is_empty() {
        return held;
    }
    shown_of_pending(layout, archive, pending)
}

/// What pending values show: the latest in the finest archive, and else their rollup.
#[tactic(auto, unfolding(crate::specs::Shown::shown_of_pending))]
fn shown_of_pending(layout: &Layout, archive: u32, pending: &[Milli]) -> Option<Milli>
    requires few { length pending.now ≤ 31_536_000 }
    ensures { result ≡ shown_of_pending layout.now archive pending.now }
{
    if archive == 0 {
        return pending.last().copied();
    }
    roll(layout.method(), pending, pending.len() as u32)
}
