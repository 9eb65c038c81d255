//! Plans in steps, each of which needs one half of a shard alone or both for a moment: which metric
//! goes next is asked of the desk, its patch is made by the files, and then its drain begins, if it
//! still goes next and is as it was.
ghost use Rattle.std.specs.Prelude.{◌≡◌, ◌↔◌, IsTrue};

use crate::desk::Desk;
use crate::files::Files;
use crate::next_metric::NextMetric;
use crate::planned::{Begun, Planned};
use crate::planning::NextDrain;
use fixed_num::Milli;
use metric_path::MetricPath;
use metric_table::Known;
use outside_io::Disk;
use point_cache::Points;
use ring_archive::RingFault;
use ring_format::{Archive, Layout};
use std::alloc::AllocError;

impl Desk {
    ghost use Rattle.std.specs.Prelude.{◌≡◌, ◌<◌, ◌↔◌, true, IfOk, IfSome, length};
    ghost use Rattle.shard_core.specs.Halves.{desk_of};
    ghost use Rattle.shard_core.specs.Plans.{OnlyPicks};
    ghost use Rattle.shard_core.specs.Stepping.{GoesNextAt, IsMetricAt, IsNext, IsSoundNext};

    /// The metric that goes next, `None` where nothing is pending. It stays pending. One that was
    /// drained 2^64 - 1 times counts as want of memory.
    pub fn next(&mut self) -> Result<Option<NextMetric>, AllocError>
        ensures next { IfOk result (IsNext (desk_of self.old)) }
        ensures only { OnlyPicks (desk_of self.old) (desk_of self.new) }
    {
        let Some(place) = self.pick()? else {
            return Ok(None);
        };
        let metric = self.metric_at(place)?;
        Ok(Some(metric))
    }

    // The metric at a place.
    fn metric_at(&self, place: usize) -> Result<NextMetric, AllocError>
        requires { place < length self.now.cache.places }
        ensures there { IfOk result (IsMetricAt (desk_of self.now) place) }
        ensures sound { IfOk result (IsSoundNext self.now.class) }
    {
        // At each place stands a metric with pending points.
        let _ = self.cache.metrics();
        let path = self.cache.path(place);
        let points = self.cache.points(place);
        let known = self.known_of(path)?;
        Ok(NextMetric {
            path: path.copy()?,
            points: Points::of_rising(self.alloc, points)?,
            known,
        })
    }

    // The place of a metric, where it still goes next and is as it was.
    fn place_of_next(&mut self, metric: &NextMetric) -> Result<Option<usize>, AllocError>
        ensures there { IfOk result
            (λ place. IfSome place (GoesNextAt (desk_of self.new) metric.now)) }
        ensures only { OnlyPicks (desk_of self.old) (desk_of self.new) }
    {
        let Some(place) = self.pick()? else {
            return Ok(None);
        };
        if self.has_at(place, metric)? {
            return Ok(Some(place));
        }
        Ok(None)
    }

    // Whether a metric stands at a place as it was.
    #[tactic(auto, using(crate::proofs::SteppingLemmas::same_at))]
    fn has_at(&self, place: usize, metric: &NextMetric) -> Result<bool, AllocError>
        requires { place < length self.now.cache.places }
        ensures { IfOk result
            (λ is. is ≡ true ↔ IsMetricAt (desk_of self.now) place metric.now) }
    {
        let path = self.cache.path(place);
        let points = self.cache.points(place);
        let known = self.known_of(path)?;
        Ok(
            is_same_path(path, &metric.path)
                && has_same_points(points, metric.points.list())
                && is_same(&known, &metric.known),
        )
    }
}

impl<D: Disk> Files<D> {
    ghost use Rattle.std.specs.Prelude.{◌≡◌, None, Some, IfOk, IsErrOf};
    ghost use Rattle.outside_io.specs.Frames.{ReadsOnly};
    ghost use Rattle.shard_core.specs.Halves.{AreHalves, KeepsHalves, desk_of, files_of, held_by};
    ghost use Rattle.shard_core.specs.Plans.{MayPlan, PlansFor};
    ghost use Rattle.shard_core.specs.Stepping.{BeginsTo, IsMadeFor, PlansNow};

    /// The drain of the metric that goes next, at the moment `now`. The disk is only read, and the
    /// desk may change meanwhile.
    pub fn make(&mut self, metric: &NextMetric, now: u32) -> Result<NextDrain, RingFault>
        requires { MayPlan metric.now.known (D.image self.old.disk) metric.now.path
            metric.now.points }
        ensures plans { IfOk result (λ next. PlansFor metric.now.known (D.image self.old.disk)
            metric.now.path metric.now.points next.now next.patch) }
        ensures moment { IfOk result (λ next. next.now ≡ now) }
        ensures same { files_of self.new ≡ files_of self.old }
        ensures frame { ReadsOnly D.Disk self.old.disk self.new.disk
            (IsErrOf result RingFault.DiskFault) }
    {
        let points = metric.points.list();
        self.make_drain(&metric.path, metric.known, points, now)
    }

    /// Begins the drain of a metric whose patch was made at the moment `now`, if the metric still
    /// goes next and is as it was. Where the patch could not be made the plan ends as its making
    /// did. `None` where another metric goes next, this one has changed, or nothing is pending: then
    /// all is as before. The disk stays as it is.
    pub fn begin_next(
        &mut self,
        desk: &mut Desk,
        metric: &NextMetric,
        made: Result<NextDrain, RingFault>,
        now: u32,
    ) -> Option<Planned>
        requires halves { AreHalves (desk_of desk.old) (files_of self.old) }
        requires empty { self.old.work.shelf ≡ None }
        requires made { IfOk made (IsMadeFor metric.now (D.image self.old.disk) now) }
        ensures plans { PlansNow result (held_by desk.old self.old) (held_by desk.new self.new)
            now }
        ensures keeps { KeepsHalves (desk_of desk.old) (files_of self.old)
            (desk_of desk.new) (files_of self.new) }
        ensures cause { result ≡ Some Planned.DiskFault → IsErrOf made RingFault.DiskFault }
        ensures disk { self.new.disk ≡ self.old.disk }
    {
        if desk.cached_metrics() == 0 {
            return None;
        }
        let next = match made {
            Ok(next) => next,
            Err(RingFault::DiskFault) => return Some(Planned::DiskFault),
            Err(RingFault::NoMemory) => return Some(Planned::NoMemory),
        };
        match self.begin_made(desk, metric, next) {
            Begun::Took(path) => Some(Planned::Took(path)),
            Begun::Changed => None,
            Begun::NoMemory => Some(Planned::NoMemory),
        }
    }

    // Begins a drain that was made for a metric, if that still goes next and is as it was. The
    // disk stays as it is.
    fn begin_made(&mut self, desk: &mut Desk, metric: &NextMetric, next: NextDrain) -> Begun
        requires halves { AreHalves (desk_of desk.old) (files_of self.old) }
        requires empty { self.old.work.shelf ≡ None }
        requires plans { PlansFor metric.now.known (D.image self.old.disk) metric.now.path
            metric.now.points next.now next.patch }
        ensures begins { BeginsTo result (held_by desk.old self.old) (held_by desk.new self.new)
            next.now }
        ensures keeps { KeepsHalves (desk_of desk.old) (files_of self.old)
            (desk_of desk.new) (files_of self.new) }
        ensures disk { self.new.disk ≡ self.old.disk }
    {
        let place = match desk.place_of_next(metric) {
            Ok(Some(place)) => place,
            Ok(None) => return Begun::Changed,
            Err(_) => return Begun::NoMemory,
        };
        Begun::Took(self.begin_at(desk, place, next))
    }
}

// Whether two paths are one.
fn is_same_path(one: &MetricPath, other: &MetricPath) -> bool
    ensures { IsTrue result ↔ one.now ≡ other.now }
{
    one == other
}

// Whether two lists of points are one.
fn has_same_points(one: &[(u32, Milli)], other: &[(u32, Milli)]) -> bool
    ensures { IsTrue result ↔ one.now ≡ other.now }
{
    one == other
}

// Whether the same is known.
#[tactic(auto, using(crate::proofs::SteppingLemmas::same_known, crate::proofs::SteppingLemmas::parts_of_known))]
fn is_same(one: &Known, other: &Known) -> bool
    ensures { IsTrue result ↔ one.now ≡ other.now }
{
    one.drains == other.drains
        && one.is_kept == other.is_kept
        && one.is_old == other.is_old
        && is_same_layout(&one.layout, &other.layout)
}

// Whether two layouts have the same parts. Contracts know of the derived comparison that it also
// compares what stands behind the last archive.
#[tactic(auto, using(crate::proofs::SteppingLemmas::same_parts, crate::proofs::SteppingLemmas::parts_of_layout))]
fn is_same_layout(one: &Layout, other: &Layout) -> bool
    ensures { IsTrue result ↔ one.now ≡ other.now }
{
    one.factor() == other.factor()
        && one.method() == other.method()
        && has_same_archives(one.archives(), other.archives())
}

// Whether two lists of archives are one.
fn has_same_archives(one: &[Archive], other: &[Archive]) -> bool
    ensures { IsTrue result ↔ one.now ≡ other.now }
{
    one == other
}
