//! What points write into their own archive.
ghost use Rattle.std.specs.Prelude.{◌≡◌, ◌<◌, ◌≤◌, ◌-◌, true, All, IfOk, OnOk, length};
ghost use Rattle.fixed_num.specs.Moment.{is_moment};
ghost use Rattle.point_cache.specs.Points.{IsRising};
ghost use Rattle.archive_update.specs.Batch.{bucket_of, bucket_writes, step_of};
ghost use Rattle.archive_update.specs.Buckets.{IsOwn, with_latest};
ghost use Rattle.archive_update.specs.Spans.{IsOldestOf};
ghost use Rattle.ring_format.specs.Layout.{retention_of};

use fixed_num::Milli;
use ring_format::{Archive, Layout};
use std::alloc::{AllocError, Global};

/// What points in rising time write into the archive: of those that it is the home of, the latest in each
/// bucket.
#[tactic(auto, unfolding(crate::specs::Batch::bucket_writes))]
pub(crate) fn bucket_writes(
    alloc: Global,
    layout: &Layout,
    archive: u32,
    now: u32,
    points: &[(u32, Milli)],
) -> Result<Vec<(u32, Milli)>, AllocError>
    requires archive { archive < length layout.now.archives }
    requires rising { IsRising points.now }
    requires moments { All (λ p. is_moment p.0 ≡ true) points.now }
    ensures writes { IfOk result
        (λ writes. writes.items ≡ bucket_writes layout.now.archives now archive points.now) }
    ensures buckets { IfOk result
        (λ writes. All (λ write. IsOwn
        (step_of layout.now.archives archive) write.0) writes.items) }
{
    let step = layout.archive(archive).step;
    let span = HomeSpan::new(layout.archives(), archive as usize, now);
    if !span.meets(points) {
        return Ok(Vec::new(alloc));
    }
    let mut writes = Vec::with_capacity(alloc, points.len())?;
    for point in points {
        if span.holds(point.0) {
            put_latest(&mut writes, step, point)?;
        }
    }
    Ok(writes)
}

// Puts the value of a point behind those of buckets up to its own, in place of the last if that is of the
// same bucket.
fn put_latest(
    writes: &mut Vec<(u32, Milli)>,
    step: u32,
    point: &(u32, Milli),
) -> Result<(), AllocError>
    requires { 0 < step }
    ensures { OnOk result
        (writes.new.items ≡ with_latest writes.old.items
        (bucket_of step point.now.0, point.now.1)) }
{
    let (time, value) = *point;
    let bucket = time - time % step;
    let count = writes.len();
    if count > 0 && writes[count - 1].0 == bucket {
        writes[count - 1] = (bucket, value);
        return Ok(());
    }
    writes.push((bucket, value))?;
    Ok(())
}

// The times whose points go to an archive: from a first one up to another, which is not among them.
#[derive(Clone, Copy, Debug)]
struct HomeSpan {
    since: u64,
    until: u64,
}

impl HomeSpan {
    ghost use Rattle.std.specs.Prelude.{◌≡◌, ◌<◌, ◌^◌, ℕ, false, All, length};
    ghost use Rattle.point_cache.specs.Points.{IsRising};
    ghost use Rattle.archive_update.specs.Batch.{archive_for, is_home};
    ghost use Rattle.archive_update.specs.Spans.{is_within};

    // The times from the oldest that the archive reaches back to from `now`, to the oldest that a finer one does.
    fn new(archives: &[Archive], archive: usize, now: u32) -> HomeSpan
        requires { archive < length archives.now }
        ensures { (time : ℕ) → time < 2 ^ 32
            → is_within time result ≡ is_home archive (archive_for archives.now now time) }
    {
        HomeSpan {
            since: oldest_reached(archives[archive], now),
            until: oldest_of_finer(archives, archive, now),
        }
    }

    // Whether points in rising time may have one of its times: not where all are later, or all earlier.
    fn meets(self, points: &[(u32, Milli)]) -> bool
        requires { IsRising points.now }
        ensures { result ≡ false → All (λ p. is_within p.0 self ≡ false) points.now }
    {
        let count = points.len();
        count > 0
            && u64::from(points[0].0) < self.until
            && self.since <= u64::from(points[count - 1].0)
    }

    fn holds(self, time: u32) -> bool
        ensures { result ≡ is_within time self }
    {
        self.since <= u64::from(time) && u64::from(time) < self.until
    }
}

// The oldest time that an archive reaches back to.
fn oldest_reached(archive: Archive, now: u32) -> u64
    ensures { result ≡ now - retention_of archive }
{
    u64::from(now).saturating_sub(archive.retention())
}

// The oldest time that one of the archives before this one reaches back to: none is later where there is none.
fn oldest_of_finer(archives: &[Archive], archive: usize, now: u32) -> u64
    requires { archive ≤ length archives.now }
    ensures { IsOldestOf archives.now archive now result }
{
    let mut oldest = u64::MAX;
    for finer in &archives[..archive] {
        oldest = oldest.min(oldest_reached(*finer, now));
    }
    oldest
}
