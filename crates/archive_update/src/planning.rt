//! The plan of a drain.
ghost use Rattle.std.specs.Prelude.{◌≡◌, ◌↔◌, ◌<◌, ◌≤◌, [], None, true, All, IfOk, IsErrOf, MatchResult, OnOk, length, IsErrAnd};
ghost use Rattle.outside_io.specs.Frames.{ReadsOnly};
ghost use Rattle.fixed_num.specs.Moment.{is_moment};
ghost use Rattle.point_cache.specs.Points.{IsRising};
ghost use Rattle.ring_archive.specs.Ring.{ReadsAs, Rings};
ghost use Rattle.ring_archive.specs.View.{IsThere, OnRing};
ghost use Rattle.archive_update.specs.Batch.{batch, bucket_writes, HaveNoHome};
ghost use Rattle.archive_update.specs.Laid.{IsAlike};
ghost use Rattle.archive_update.specs.Rolled.{HasNoOwn, LaysIf, Plans, PlansFirst};

use crate::laying::write_values;
use crate::own::bucket_writes;
use crate::rolling::roll_up;
use fixed_num::Milli;
use outside_io::Disk;
use ring_archive::{BasedArchive, RingFault, RingView};
use ring_format::{OLD_VERSION, Patch};
use std::alloc::Global;

/// Plans a drain: lays the points of a metric into its archives, over a patch that lays nothing
/// yet, or one into which its file was carried ([`carry`](crate::carry)). Over a file of
/// version 1 the patch is fresh.
///
/// The points are in rising time, in seconds since 1970, with their values in thousandths; `now` is the moment
/// of the drain. A point goes to the first archive that reaches back to it from `now`: to the finest where it is
/// of the future, and to none where it is older than all retentions. Of the points of one bucket the latest
/// counts. From its archive on, each coarser one gets the rollup of what the one before it knows in the bucket,
/// as far as enough is known, which is Whisper's rule. A bucket that shares its slot with a new one is forgotten.
///
/// The disk is only read. For each archive that points go to, the base of it and of each coarser one that then
/// gets anything is read once, and all cells of one that is empty in a file that is there; and each stretch of
/// coarse buckets once, or twice where it goes round the ring's end. At an error the patch comes back with some
/// of its cells laid; it is of no use then, but for its path.
pub fn plan<D: Disk>(
    alloc: Global,
    view: &RingView<'_>,
    disk: &mut D,
    patch: Patch,
    points: &[(u32, Milli)],
    now: u32,
) -> Result<Patch, (Patch, RingFault)>
    requires layout { patch.layout ≡ view.now.layout }
    requires rewrites { view.now.version ≡ OLD_VERSION → patch.fresh ≡ true }
    requires rising { IsRising points.now }
    requires moments { All (λ p. is_moment p.0 ≡ true) points.now }
    requires file { IsThere view.now patch.fresh (D.image disk.old) }
    ensures batch { IfOk result
        (λ new. OnRing view.now patch.fresh (D.image disk.old)
        (λ file. (rings : Rings) → ReadsAs patch file rings
        → ReadsAs new file (batch view.now.layout now points.now rings))) }
    ensures alike { MatchResult result (IsAlike patch) (λ refusal. IsAlike patch refusal.0) }
    ensures cells { IfOk result
        (λ new. new.cells ≡ []
        ↔ (patch.cells ≡ []) × HaveNoHome view.now.layout.archives now points.now) }
    ensures frame { ReadsOnly D.Disk disk.old disk.new
        (IsErrAnd result (λ refusal. refusal.1 ≡ RingFault.DiskFault)) }
{
    let mut patch = patch;
    match plan_all(alloc, view, disk, &mut patch, points, now) {
        Ok(()) => Ok(patch),
        Err(fault) => Err((patch, fault)),
    }
}

// Plans the points of each archive, the finest first.
fn plan_all<D: Disk>(
    alloc: Global,
    view: &RingView<'_>,
    disk: &mut D,
    patch: &mut Patch,
    points: &[(u32, Milli)],
    now: u32,
) -> Result<(), RingFault>
    requires layout { patch.old.layout ≡ view.now.layout }
    requires rising { IsRising points.now }
    requires moments { All (λ p. is_moment p.0 ≡ true) points.now }
    requires file { IsThere view.now patch.old.fresh (D.image disk.old) }
    ensures plans { OnOk result
        (OnRing view.now patch.old.fresh (D.image disk.old)
        (PlansFirst view.now.layout now points.now patch.old patch.new
        (length view.now.layout.archives))) }
    ensures alike { IsAlike patch.old patch.new }
    ensures filled { OnOk result
        (patch.new.cells ≡ []
        → HasNoOwn view.now.layout now points.now (length view.now.layout.archives)) }
    ensures untouched { OnOk result
        (HasNoOwn view.now.layout now points.now (length view.now.layout.archives)
        → patch.new ≡ patch.old) }
    ensures frame { ReadsOnly D.Disk disk.old disk.new (IsErrOf result RingFault.DiskFault) }
{
    for archive in 0..view.layout.archive_count() {
        plan_archive(alloc, view, disk, patch, archive, points, now)?;
    }
    Ok(())
}

// Plans the points that an archive is the home of.
fn plan_archive<D: Disk>(
    alloc: Global,
    view: &RingView<'_>,
    disk: &mut D,
    patch: &mut Patch,
    archive: u32,
    points: &[(u32, Milli)],
    now: u32,
) -> Result<(), RingFault>
    requires layout { patch.old.layout ≡ view.now.layout }
    requires archive { archive < length view.now.layout.archives }
    requires rising { IsRising points.now }
    requires moments { All (λ p. is_moment p.0 ≡ true) points.now }
    requires file { IsThere view.now patch.old.fresh (D.image disk.old) }
    ensures plans { OnOk result
        (OnRing view.now patch.old.fresh (D.image disk.old)
        (Plans view.now.layout now points.now patch.old patch.new archive)) }
    ensures alike { IsAlike patch.old patch.new }
    ensures cells { OnOk result
        (LaysIf patch.old patch.new (bucket_writes view.now.layout.archives now archive points.now)) }
    ensures frame { ReadsOnly D.Disk disk.old disk.new (IsErrOf result RingFault.DiskFault) }
{
    let own = bucket_writes(alloc, &view.layout, archive, now, points)?;
    if own.is_empty() {
        return Ok(());
    }
    let base = write_values(alloc, view, disk, patch, archive, &own)?;
    let based = BasedArchive { archive, base };
    roll_up(alloc, view, disk, patch, based, &own)?;
    Ok(())
}
