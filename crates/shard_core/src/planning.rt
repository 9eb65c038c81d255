//! Plans of drains.
ghost use Rattle.std.specs.Prelude.{◌≡◌, ◌≢◌, false, IfOk, IsErrOf, Ok, Some, string_bytes};
ghost use Rattle.outside_io.specs.Frames.{ReadsOnly};
ghost use Rattle.metric_path.specs.FileName.{file_name_of};
ghost use Rattle.ring_archive.specs.Ring.{OnFile};
ghost use Rattle.ring_archive.specs.View.{IsThere};
ghost use Rattle.archive_update.specs.Carried.{Carries, IsBlank};
ghost use Rattle.archive_update.specs.Laid.{IsAlike};
ghost use Rattle.shard_core.specs.Plans.{MayPlan, PlansFor};
ghost use Rattle.shard_core.specs.Props.{shelf_props};

use crate::desk::Desk;
use crate::files::Files;
use crate::planned::Planned;
use archive_update::{carry, plan};
use fixed_num::Milli;
use metric_path::MetricPath;
use metric_table::Known;
use outside_io::Disk;
use ring_archive::{RingFault, RingView};
use ring_format::{OLD_VERSION, Patch, VERSION};
use std::alloc::{AllocError, Global};

/// A drain that is to begin: the name of the file, the patch, and the moment of the drain.
#[derive(Drop)]
pub struct NextDrain {
    pub(crate) name: String,
    pub(crate) patch: Patch,
    pub(crate) now: u32,
    ghost named: { string_bytes name ≡ file_name_of patch.path } by { Prim.hlevel shelf_props },
}

impl Desk {
    ghost use Rattle.std.specs.Prelude.{◌≡◌, ◌≢◌, [], IfOk};
    ghost use Rattle.drain_order.specs.Picking.{Picks};
    ghost use Rattle.point_cache.specs.Pending.{points_of};
    ghost use Rattle.shard_core.specs.Halves.{desk_of};
    ghost use Rattle.shard_core.specs.Plans.{IsDrainable, OnlyPicks};

    // The place of the metric that goes next, `None` where nothing is pending.
    pub(crate) fn pick(&mut self) -> Result<Option<usize>, AllocError>
        ensures picks { IfOk result (Picks self.old.picker self.new.picker self.old.cache) }
        ensures only { OnlyPicks (desk_of self.old) (desk_of self.new) }
    {
        self.picker.pick(&self.cache)
    }

    // What is known of a pending metric. One that was drained 2^64 - 1 times is want of memory.
    pub(crate) fn known_of(&self, path: &MetricPath) -> Result<Known, AllocError>
        requires { points_of self.now.cache.metrics path.now ≢ [] }
        ensures { IfOk result (IsDrainable self.now.table path.now) }
    {
        let Some(known) = self.table.get(path) else {
            unreachable!()
        };
        if known.drains == u64::MAX {
            return Err(AllocError);
        }
        Ok(known)
    }
}

impl<D: Disk> Files<D> {
    ghost use Rattle.std.specs.Prelude.{◌≡◌, ◌<◌, ℕ, List, None, Some, IfOk, IsErrOf, OnErr, length, slice_get};
    ghost use Rattle.outside_io.specs.Frames.{ReadsOnly};
    ghost use Rattle.shard_core.specs.Halves.{AreHalves, KeepsHalves, desk_of, files_of, held_by};
    ghost use Rattle.shard_core.specs.Plans.{Begins, IsPicked, MakesBatch, MayPlan, PlansFor, PlansTo};

    /// Begins the drain of the metric of their desk that goes next, at the moment `now`, unless one
    /// is being written: its points leave the desk, and are to be written from then on. The disk is
    /// only read. After want of memory and after a disk fault all is as before. A metric that was
    /// drained 2^64 - 1 times is not drained again, which counts as want of memory.
    pub fn plan(&mut self, desk: &mut Desk, now: u32) -> Planned
        requires { AreHalves (desk_of desk.old) (files_of self.old) }
        ensures plans { PlansTo result (held_by desk.old self.old) (held_by desk.new self.new) now }
        ensures keeps { KeepsHalves (desk_of desk.old) (files_of self.old)
            (desk_of desk.new) (files_of self.new) }
        ensures frame { ReadsOnly D.Disk self.old.disk self.new.disk
            (result ≡ Planned.DiskFault) }
    {
        if self.shelved() {
            return Planned::Busy;
        }
        if desk.cached_metrics() == 0 {
            return Planned::Idle;
        }
        let place = match desk.pick() {
            Ok(Some(place)) => place,
            Ok(None) => unreachable!(),
            Err(_) => return Planned::NoMemory,
        };
        match self.begin(desk, place, now) {
            Ok(path) => Planned::Took(path),
            Err(RingFault::DiskFault) => Planned::DiskFault,
            Err(RingFault::NoMemory) => Planned::NoMemory,
        }
    }

    // Begins the drain of the metric at a place, which was picked.
    fn begin(&mut self, desk: &mut Desk, place: usize, now: u32) -> Result<MetricPath, RingFault>
        requires halves { AreHalves (desk_of desk.old) (files_of self.old) }
        requires empty { self.old.work.shelf ≡ None }
        requires picked { IsPicked desk.old.picker desk.old.cache place }
        ensures begins { IfOk result
            (λ path. Begins (held_by desk.old self.old) (held_by desk.new self.new) path now) }
        ensures err { OnErr result (held_by desk.new self.new ≡ held_by desk.old self.old) }
        ensures keeps { KeepsHalves (desk_of desk.old) (files_of self.old)
            (desk_of desk.new) (files_of self.new) }
        ensures frame { ReadsOnly D.Disk self.old.disk self.new.disk
            (IsErrOf result RingFault.DiskFault) }
    {
        let next = self.next_drain(desk, place, now)?;
        Ok(self.begin_at(desk, place, next))
    }

    // The drain of the metric at a place. Its points are not copied.
    fn next_drain(&mut self, desk: &Desk, place: usize, now: u32) -> Result<NextDrain, RingFault>
        requires halves { AreHalves (desk_of desk.now) (files_of self.old) }
        requires place { place < length desk.now.cache.places }
        requires empty { self.old.work.shelf ≡ None }
        ensures batch { IfOk result
            (λ next. (path : List ℕ) → slice_get desk.now.cache.places place ≡ Some path
            → MakesBatch (held_by desk.now self.old) path next.now next.patch) }
        ensures moment { IfOk result (λ next. next.now ≡ now) }
        ensures same { files_of self.new ≡ files_of self.old }
        ensures frame { ReadsOnly D.Disk self.old.disk self.new.disk
            (IsErrOf result RingFault.DiskFault) }
    {
        // At each place stands a metric with pending points.
        let _ = desk.cache.metrics();
        let path = desk.cache.path(place);
        let points = desk.cache.points(place);
        let known = desk.known_of(path)?;
        self.make_drain(path, known, points, now)
    }

    // The drain of these pending points of a metric of which this is known.
    pub(crate) fn make_drain(
        &mut self,
        path: &MetricPath,
        known: Known,
        points: &[(u32, Milli)],
        now: u32,
    ) -> Result<NextDrain, RingFault>
        requires { MayPlan known (D.image self.old.disk) path.now points.now }
        ensures plans { IfOk result (λ next. PlansFor known (D.image self.old.disk) path.now
            points.now next.now next.patch) }
        ensures moment { IfOk result (λ next. next.now ≡ now) }
        ensures same { files_of self.new ≡ files_of self.old }
        ensures frame { ReadsOnly D.Disk self.old.disk self.new.disk
            (IsErrOf result RingFault.DiskFault) }
    {
        plan_drain(self.alloc, &mut self.disk, path, known, points, now)
    }

    // Begins a drain that was made for the metric at a place, which was picked. No memory is taken.
    pub(crate) fn begin_at(&mut self, desk: &mut Desk, place: usize, next: NextDrain) -> MetricPath
        requires halves { AreHalves (desk_of desk.old) (files_of self.old) }
        requires empty { self.old.work.shelf ≡ None }
        requires picked { IsPicked desk.old.picker desk.old.cache place }
        requires makes { (path : List ℕ) → slice_get desk.old.cache.places place ≡ Some path
            → MakesBatch (held_by desk.old self.old) path next.now next.patch }
        ensures begins { Begins (held_by desk.old self.old) (held_by desk.new self.new)
            result next.now }
        ensures keeps { KeepsHalves (desk_of desk.old) (files_of self.old)
            (desk_of desk.new) (files_of self.new) }
        ensures disk { self.new.disk ≡ self.old.disk }
    {
        // At each place stands a metric with pending points.
        let _ = desk.cache.metrics();
        let (path, _points) = desk.cache.take(place);
        desk.picker.settle();
        desk.table.note_drain(&path);
        self.work.put(next.patch, next.name);
        path
    }
}

// The drain of the pending points of a metric of which this is known.
fn plan_drain<D: Disk>(
    alloc: Global,
    disk: &mut D,
    path: &MetricPath,
    known: Known,
    points: &[(u32, Milli)],
    now: u32,
) -> Result<NextDrain, RingFault>
    requires { MayPlan known (D.image disk.old) path.now points.now }
    ensures patch { IfOk result (λ next. PlansFor known (D.image disk.old) path.now points.now
        next.now next.patch) }
    ensures moment { IfOk result (λ next. next.now ≡ now) }
    ensures frame { ReadsOnly D.Disk disk.old disk.new (IsErrOf result RingFault.DiskFault) }
{
    let name = path.file_name()?;
    let version = known.kept_version();
    let view = RingView::new(&name, known.layout, version.unwrap_or(VERSION));
    let patch = Patch::new(alloc, path.copy()?, known.layout, version != Some(VERSION));
    let patch = carried(alloc, &view, disk, patch, version)?;
    match plan(alloc, &view, disk, patch, points, now) {
        Ok(patch) => Ok(NextDrain { name, patch, now }),
        Err((_, fault)) => Err(fault),
    }
}

// The patch that a plan begins with: a file of version 1 is carried into it, to be written anew.
fn carried<D: Disk>(
    alloc: Global,
    view: &RingView<'_>,
    disk: &mut D,
    patch: Patch,
    version: Option<u32>,
) -> Result<Patch, RingFault>
    requires patch { version ≡ Some OLD_VERSION → IsBlank view.now.layout patch }
    requires version { version ≡ Some OLD_VERSION → view.now.version ≡ OLD_VERSION }
    requires file { version ≡ Some OLD_VERSION → IsThere view.now false (D.image disk.old) }
    ensures carries { IfOk result (λ new. version ≡ Some OLD_VERSION
        → OnFile (D.image disk.old) view.now.name.now (Carries patch new)) }
    ensures others { version ≢ Some OLD_VERSION → result ≡ Ok patch }
    ensures alike { IfOk result (IsAlike patch) }
    ensures frame { ReadsOnly D.Disk disk.old disk.new (IsErrOf result RingFault.DiskFault) }
{
    if version != Some(OLD_VERSION) {
        return Ok(patch);
    }
    match carry(alloc, view, disk, patch) {
        Ok(patch) => Ok(patch),
        Err((_, fault)) => Err(fault),
    }
}
