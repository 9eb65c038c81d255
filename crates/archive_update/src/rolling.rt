//! Values of an archive rolled up into the coarser ones.
ghost use Rattle.std.specs.Prelude.{◌≡◌, ◌<◌, ◌≤◌, ◌↔◌, ◌+◌, ◌-◌, ◌*◌, ◌/◌, ◌%◌, ◌++◌, [], ◌∷◌, All, IfOk, IfSome, IsErrOf, IsTrue, OnOk, drop, is_some, length, max, slice_index, take};
ghost use Rattle.std.specs.List.{filter_map};
ghost use Rattle.outside_io.specs.Frames.{ReadsOnly};
ghost use Rattle.ring_archive.specs.Ring.{ReadsAs, Rings};
ghost use Rattle.ring_archive.specs.View.{IsBased, IsThere, OnRing};
ghost use Rattle.archive_update.specs.Batch.{bucket_of, buckets_of_writes, itself, level_writes, rolled_from, step_of, value_from_finer};
ghost use Rattle.archive_update.specs.Buckets.{AreShown, IsOwn, IsShown, with_bucket};
ghost use Rattle.archive_update.specs.Laid.{IsAlike};
ghost use Rattle.archive_update.specs.Rolled.{AreNear, HasCoarser, HoldsWindow, IsFiner, IsInWindow, IsRead, IsReached, Level, RollsUp, rolled_write, known_from, most_values, places_in};

use crate::laying::write_values;
use fixed_num::Milli;
use outside_io::Disk;
use ring_archive::{BasedArchive, RingFault, RingView};
use ring_format::{Layout, Patch};
use rollup::{enough, roll};
use std::alloc::{AllocError, Global};

// The most values that are read at once, but for those of one bucket.
const MOST_VALUES: u32 = 65_536;

// Values of an archive that were read at once: those of so many buckets of the archive behind it, from one on.
#[derive(Drop)]
struct FinerWindow {
    first: u32,
    count: u32,
    values: Vec<Option<Milli>>,
}

impl FinerWindow {
    // Whether it has the values of a bucket.
    fn has(&self, step: u32, bucket: u32) -> bool
        requires { 0 < step }
        ensures { IsTrue result ↔ IsInWindow step self.now.first self.now.count bucket }
    {
        self.first <= bucket && (bucket - self.first) / step < self.count
    }
}

/// From an archive on, whose base is known, gives each coarser archive what the one before it has in the
/// buckets that hold one of these writes; ends where nothing is known well enough.
pub(crate) fn roll_up<D: Disk>(
    alloc: Global,
    view: &RingView<'_>,
    disk: &mut D,
    patch: &mut Patch,
    from: BasedArchive,
    own: &[(u32, Milli)],
) -> Result<(), RingFault>
    requires layout { patch.old.layout ≡ view.now.layout }
    requires based { IsBased view.now patch.old (D.image disk.old) from.archive from.base }
    requires own { All (λ write. IsOwn
        (step_of view.now.layout.archives from.archive) write.0) own.now }
    requires file { IsThere view.now patch.old.fresh (D.image disk.old) }
    ensures rolls { OnOk result
        (OnRing view.now patch.old.fresh (D.image disk.old)
        (RollsUp view.now.layout own.now patch.old patch.new from.archive)) }
    ensures alike { IsAlike patch.old patch.new }
    ensures frame { ReadsOnly D.Disk disk.old disk.new (IsErrOf result RingFault.DiskFault) }
{
    let mut base = from.base;
    for archive in from.archive..view.layout.archive_count() - 1 {
        let finer = BasedArchive { archive, base };
        let Some(coarser) = roll_level(alloc, view, disk, patch, finer, own)? else {
            return Ok(());
        };
        base = coarser;
    }
    Ok(())
}

// Gives the archive behind `finer` what that has in the buckets that hold one of these writes, and answers the
// base that it has then; `None` where there is nothing to give.
fn roll_level<D: Disk>(
    alloc: Global,
    view: &RingView<'_>,
    disk: &mut D,
    patch: &mut Patch,
    finer: BasedArchive,
    own: &[(u32, Milli)],
) -> Result<Option<u32>, RingFault>
    requires layout { patch.old.layout ≡ view.now.layout }
    requires finer { IsFiner view.now patch.old (D.image disk.old) finer }
    requires own { All (λ write. IsReached
        (step_of view.now.layout.archives (finer.archive + 1)) write.0) own.now }
    requires file { IsThere view.now patch.old.fresh (D.image disk.old) }
    ensures level { IfOk result
        (λ coarser. OnRing view.now patch.old.fresh (D.image disk.old)
        (Level view.now.layout own.now patch.old patch.new finer.archive (is_some coarser))) }
    ensures based { IfOk result
        (λ coarser. IfSome coarser
        (λ base. IsBased view.now patch.new (D.image disk.old) (finer.archive + 1) base)) }
    ensures alike { IsAlike patch.old patch.new }
    ensures frame { ReadsOnly D.Disk disk.old disk.new (IsErrOf result RingFault.DiskFault) }
{
    let coarser = finer.archive + 1;
    let buckets = coarse_buckets(alloc, &view.layout, coarser, own)?;
    let writes = level_writes(alloc, view, disk, patch, finer, &buckets)?;
    if writes.is_empty() {
        return Ok(None);
    }
    let base = write_values(alloc, view, disk, patch, coarser, &writes)?;
    Ok(Some(base))
}

// The buckets of an archive that hold one of these writes.
fn coarse_buckets(
    alloc: Global,
    layout: &Layout,
    archive: u32,
    own: &[(u32, Milli)],
) -> Result<Vec<u32>, AllocError>
    requires archive { archive < length layout.now.archives }
    requires own { All (λ write. IsReached (step_of layout.now.archives archive) write.0) own.now }
    ensures value { IfOk result
        (λ buckets. buckets.items ≡ buckets_of_writes layout.now.archives archive own.now) }
    ensures shown { IfOk result
        (λ buckets. All (IsShown (step_of layout.now.archives archive)) buckets.items) }
{
    let step = layout.archive(archive).step;
    let mut buckets = Vec::with_capacity(alloc, own.len())?;
    for write in own {
        put_bucket(&mut buckets, step, write.0)?;
    }
    Ok(buckets)
}

// Puts the bucket of a time behind others, unless it is the last of them.
fn put_bucket(buckets: &mut Vec<u32>, step: u32, time: u32) -> Result<(), AllocError>
    requires step { 0 < step }
    requires whole { All (λ bucket. bucket % step ≡ 0) buckets.old.items }
    ensures { OnOk result (buckets.new.items ≡ with_bucket buckets.old.items (bucket_of step time)) }
{
    let count = buckets.len();
    if count > 0 && is_in_bucket(buckets[count - 1], step, time) {
        return Ok(());
    }
    buckets.push(time - time % step)?;
    Ok(())
}

// Whether a time is in a bucket: most are told without a division.
fn is_in_bucket(bucket: u32, step: u32, time: u32) -> bool
    requires step { 0 < step }
    requires whole { bucket % step ≡ 0 }
    ensures { IsTrue result ↔ bucket ≡ bucket_of step time }
{
    bucket <= time && time - bucket < step
}

// What these buckets of the archive behind `finer` get from it.
fn level_writes<D: Disk>(
    alloc: Global,
    view: &RingView<'_>,
    disk: &mut D,
    patch: &Patch,
    finer: BasedArchive,
    buckets: &[u32],
) -> Result<Vec<(u32, Milli)>, RingFault>
    requires layout { patch.now.layout ≡ view.now.layout }
    requires finer { IsFiner view.now patch.now (D.image disk.old) finer }
    requires shown { All (IsShown (step_of view.now.layout.archives (finer.archive + 1))) buckets.now }
    requires file { IsThere view.now patch.now.fresh (D.image disk.old) }
    ensures writes { IfOk result
        (λ writes. OnRing view.now patch.now.fresh (D.image disk.old)
        (λ file. (rings : Rings) → ReadsAs patch.now file rings
        → writes.items ≡ level_writes view.now.layout rings finer.archive buckets.now)) }
    ensures shown { IfOk result
        (λ writes. All (λ write. IsShown
        (step_of view.now.layout.archives (finer.archive + 1)) write.0) writes.items) }
    ensures frame { ReadsOnly D.Disk disk.old disk.new (IsErrOf result RingFault.DiskFault) }
{
    let places = points_per_bucket(&view.layout, finer.archive);
    let step = view.layout.archive(finer.archive + 1).step;
    let mut writes = Vec::with_capacity(alloc, buckets.len())?;
    let mut known = Vec::new(alloc);
    let mut window = FinerWindow {
        first: 0,
        count: 0,
        values: Vec::new(alloc),
    };
    for (k, bucket) in buckets.iter().enumerate() {
        window = window_for(alloc, view, disk, patch, finer, &buckets[k..], window)?;
        let value = value_in(&mut known, &view.layout, places, step, &window, *bucket)?;
        push_rolled(&mut writes, *bucket, value)?;
    }
    Ok(writes)
}

// Adds a bucket with its value, where it has one.
fn push_rolled(
    writes: &mut Vec<(u32, Milli)>,
    bucket: u32,
    value: Option<Milli>,
) -> Result<(), AllocError>
    ensures { OnOk result (writes.new.items ≡ writes.old.items ++ rolled_write bucket value) }
{
    if let Some(value) = value {
        writes.push((bucket, value))?;
    }
    Ok(())
}

// The window, where it has the first of these buckets, and else one that begins with it.
fn window_for<D: Disk>(
    alloc: Global,
    view: &RingView<'_>,
    disk: &mut D,
    patch: &Patch,
    finer: BasedArchive,
    buckets: &[u32],
    window: FinerWindow,
) -> Result<FinerWindow, RingFault>
    requires layout { patch.now.layout ≡ view.now.layout }
    requires finer { IsFiner view.now patch.now (D.image disk.old) finer }
    requires shown { AreShown (step_of view.now.layout.archives (finer.archive + 1)) buckets.now }
    requires file { IsThere view.now patch.now.fresh (D.image disk.old) }
    requires held { IsRead view.now patch.now
        (D.image disk.old) finer.archive window.first window.count window.values.items }
    ensures held { IfOk result (λ window.
        IsRead view.now patch.now (D.image disk.old) finer.archive window.first window.count window.values.items) }
    ensures has { IfOk result
        (λ window. IsInWindow
        (step_of view.now.layout.archives (finer.archive + 1)) window.first window.count
        (slice_index buckets.now 0)) }
    ensures frame { ReadsOnly D.Disk disk.old disk.new (IsErrOf result RingFault.DiskFault) }
{
    let step = view.layout.archive(finer.archive + 1).step;
    if window.has(step, buckets[0]) {
        return Ok(window);
    }
    read_window(alloc, view, disk, patch, finer, buckets)
}

// Reads a window that begins with the first of these buckets, up to the last of them that is near enough.
fn read_window<D: Disk>(
    alloc: Global,
    view: &RingView<'_>,
    disk: &mut D,
    patch: &Patch,
    finer: BasedArchive,
    buckets: &[u32],
) -> Result<FinerWindow, RingFault>
    requires layout { patch.now.layout ≡ view.now.layout }
    requires finer { IsFiner view.now patch.now (D.image disk.old) finer }
    requires shown { AreShown (step_of view.now.layout.archives (finer.archive + 1)) buckets.now }
    requires file { IsThere view.now patch.now.fresh (D.image disk.old) }
    ensures held { IfOk result (λ window.
        IsRead view.now patch.now (D.image disk.old) finer.archive window.first window.count window.values.items) }
    ensures has { IfOk result
        (λ window. IsInWindow
        (step_of view.now.layout.archives (finer.archive + 1)) window.first window.count
        (slice_index buckets.now 0)) }
    ensures near { IfOk result (λ window. AreNear view.now.layout finer.archive window.count) }
    ensures frame { ReadsOnly D.Disk disk.old disk.new (IsErrOf result RingFault.DiskFault) }
{
    let places = points_per_bucket(&view.layout, finer.archive);
    let step = view.layout.archive(finer.archive + 1).step;
    let most = most_near(view.layout.archive(finer.archive).points, places);
    let first = buckets[0];
    let count = buckets_near(step, most, buckets);
    let values = view.cells_from(alloc, disk, patch, finer, first, count * places)?;
    Ok(FinerWindow {
        first,
        count,
        values,
    })
}

// How many buckets, of so many places each, are read at once from an archive of so many points.
#[tactic(auto, using(crate::proofs::NearLemmas::fewer_near))]
fn most_near(points: u32, places: u32) -> u32
    requires { 1 ≤ places }
    ensures { result ≤ most_values / places }
{
    points.min(MOST_VALUES) / places
}

// How many buckets there are from the first of these up to the last that is less than `most` steps away.
fn buckets_near(step: u32, most: u32, buckets: &[u32]) -> u32
    requires some { 0 < length buckets.now }
    requires shown { All (IsShown step) buckets.now }
    requires step { (1 ≤ step) × (step ≤ 31536000) }
    ensures some { 1 ≤ result }
    ensures near { result ≤ max 1 most }
    ensures fits { slice_index buckets.now 0 + result * step ≤ 4031536000 }
{
    let first = buckets[0];
    let mut count = 1;
    for bucket in buckets {
        if *bucket < first || (*bucket - first) / step >= most {
            return count;
        }
        count = (*bucket - first) / step + 1;
    }
    count
}

// The value that a bucket of a coarser archive with this step gets from a window, of which it covers so many
// places. The known of them are gathered in `known`, whose room serves one bucket after another.
fn value_in(
    known: &mut Vec<Milli>,
    layout: &Layout,
    places: u32,
    step: u32,
    window: &FinerWindow,
    bucket: u32,
) -> Result<Option<Milli>, AllocError>
    requires step { 0 < step }
    requires short { places ≤ 31536000 }
    requires has { window.now.first ≤ bucket }
    ensures { IfOk result
        (λ value. value ≡ rolled_from layout.now
        (known_from window.now.values.items
        ((bucket - window.now.first) / step * places) places) places) }
{
    let at = ((bucket - window.first) / step) as usize * places as usize;
    gather_known(known, &window.values, at, places)?;
    Ok(rolled_from(layout, known, places))
}

// How many places of an archive one of the archive behind it covers.
fn points_per_bucket(layout: &Layout, finer: u32) -> u32
    requires finer { HasCoarser layout.now finer }
    ensures value { result ≡ places_in layout.now finer }
    ensures exact { result * step_of layout.now.archives finer
        ≡ step_of layout.now.archives (finer + 1) }
    ensures some { 1 ≤ result }
    ensures few { result ≤ step_of layout.now.archives (finer + 1) }
    ensures short { result ≤ 31536000 }
{
    let _ = layout.archives();
    layout.archive(finer + 1).step / layout.archive(finer).step
}

// Gathers the known of so many values from a place on, in place of what was gathered before.
#[tactic(auto, unfolding(crate::specs::Rolled::known_from))]
fn gather_known(
    known: &mut Vec<Milli>,
    values: &[Option<Milli>],
    at: usize,
    places: u32,
) -> Result<(), AllocError>
    ensures value { OnOk result (known.new.items ≡ known_from values.now at places) }
    ensures few { OnOk result (length known.new.items ≤ places) }
{
    known.clear();
    let part = part_of(values, at, places as usize);
    for value in part {
        push_known(known, *value)?;
    }
    Ok(())
}

// Adds a value, where it is known.
fn push_known(known: &mut Vec<Milli>, value: Option<Milli>) -> Result<(), AllocError>
    ensures { OnOk result
        (known.new.items ≡ known.old.items ++ filter_map itself (value ∷ [])) }
{
    if let Some(value) = value {
        known.push(value)?;
    }
    Ok(())
}

// So many values from a place on, or as many as there are.
fn part_of(values: &[Option<Milli>], at: usize, places: usize) -> &[Option<Milli>]
    ensures { result.now ≡ take places (drop at values.now) }
{
    let rest = rest_of(values, at);
    if rest.len() <= places {
        return rest;
    }
    &rest[..places]
}

// The values from a place on.
fn rest_of(values: &[Option<Milli>], at: usize) -> &[Option<Milli>]
    ensures { result.now ≡ drop at values.now }
{
    if at >= values.len() {
        return &values[..0];
    }
    &values[at..]
}

// The value of known places among so many, where enough are known.
#[tactic(auto, unfolding(crate::specs::Batch::rolled_from))]
fn rolled_from(layout: &Layout, known: &[Milli], places: u32) -> Option<Milli>
    requires few { length known.now ≤ places }
    requires short { places ≤ 31536000 }
    ensures { result ≡ rolled_from layout.now known.now places }
{
    if !enough(known.len() as u32, places, layout.factor()) {
        return None;
    }
    roll(layout.method(), known, places)
}
