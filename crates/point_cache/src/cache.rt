ghost use Rattle.std.specs.Prelude.{◌≡◌, ◌==◌, ◌<◌, ◌≤◌, [], IfOk, IfSome, Some, is_some, length, position, slice_get};
ghost use Rattle.std.specs.List.{IsDistinct};
ghost use Rattle.std.specs.List.Sorted.{IsPermutation};
ghost use Rattle.std.specs.Str.{bytes_eq};
ghost use Rattle.point_cache.specs.Points.{IsRising};
ghost use Rattle.point_cache.specs.Pending.{ArePointsAt, EachHasPoints, IsArrivalOrder, Puts, added, after_take, paths_of, place_of, points_count, points_of};

use crate::arrivals::Arrivals;
use crate::metric_map::MetricMap;
use crate::{Points, Put};
use fixed_num::Milli;
use metric_path::MetricPath;
use std::alloc::{AllocError, Global};
use std::marker::Model;

/// The pending points of metrics, up to a limit. A metric that is there has at least one. Each stands at a place, by which it is
/// read and taken. A place is that of its metric until a metric is taken.
#[derive(Drop)]
pub struct PointCache {
    metrics: MetricMap,
    count: u64,
    limit: u64,
    alloc: Global,
}

impl Model for PointCache {
    ghost use Rattle.std.specs.Prelude.{◌≡◌, ◌≤◌};
    ghost use Rattle.point_cache.specs.Pending.{Cache, EachHasPoints, points_count};

    ghost Value = { Cache };

    ghost view = { λ c. record { limit = c.limit; metrics = c.metrics.metrics; places = c.metrics.places } };

    ghost invariant = { λ c. (c.count ≡ points_count c.metrics.metrics) × ((c.count ≤ c.limit) × EachHasPoints c.metrics.metrics) };
}

impl PointCache {
    /// Nothing pending, and room for this many points.
    pub fn new(alloc: Global, limit: u64) -> PointCache
        requires { 0 < limit }
        ensures { result ≡ record { limit = limit; metrics = []; places = [] } }
    {
        PointCache {
            metrics: MetricMap::new(alloc),
            count: 0,
            limit,
            alloc,
        }
    }

    /// Puts a point of a metric: a time in seconds since the Unix epoch and a value. A replacement takes no memory and no room.
    pub fn put(&mut self, path: &MetricPath, time: u32, value: Milli) -> Put
        ensures { Puts self.old self.new path.now time value result }
    {
        if self.count == self.limit {
            return self.metrics.replace(path, time, value);
        }
        let put = self.metrics.put(self.alloc, path, time, value);
        self.count += count_of(put);
        put
    }

    /// Puts a point of the metric at a place, as [`PointCache::put`] does. Its path is not looked for again.
    pub fn put_at(&mut self, place: usize, path: &MetricPath, time: u32, value: Milli) -> Put
        requires { position (bytes_eq path.now) self.old.places ≡ Some place }
        ensures { Puts self.old self.new path.now time value result }
    {
        if self.is_full() {
            return self.metrics.replace_at(path, place, time, value);
        }
        let put = self.metrics.put_next(path, place, time, value);
        self.count += count_of(put);
        put
    }

    /// How many points are pending.
    pub fn count(&self) -> u64
        ensures points { result ≡ points_count self.now.metrics }
        ensures within { result ≤ self.now.limit }
    {
        self.count
    }

    /// Whether as many points are pending as may be.
    pub fn is_full(&self) -> bool
        ensures { result ≡ (points_count self.now.metrics == self.now.limit) }
    {
        self.count == self.limit
    }

    /// How many metrics have pending points, and so how many places there are: at each is one of them.
    pub fn metrics(&self) -> usize
        ensures metrics { result ≡ length self.now.metrics }
        ensures places { result ≡ length self.now.places }
        ensures placed { IsPermutation (paths_of self.now.metrics) self.now.places }
        ensures each { EachHasPoints self.now.metrics }
        ensures once { IsDistinct bytes_eq (paths_of self.now.metrics) }
    {
        self.metrics.len()
    }

    /// The place of a metric, `None` where it has no pending points.
    pub fn place_of(&self, path: &MetricPath) -> Option<usize>
        ensures place { result ≡ position (bytes_eq path.now) self.now.places }
        ensures pending { is_some result ≡ is_some (place_of self.now.metrics path.now) }
        ensures within { IfSome result (λ place. place < length self.now.places) }
    {
        self.metrics.place_of(path)
    }

    /// The path of the metric at a place.
    pub fn path(&self, place: usize) -> &MetricPath
        requires { place < length self.now.places }
        ensures { slice_get self.now.places place ≡ Some result.now }
    {
        self.metrics.path(place)
    }

    /// The pending points of the metric at a place, in rising time.
    pub fn points(&self, place: usize) -> &[(u32, Milli)]
        requires { place < length self.now.places }
        ensures points { ArePointsAt self.now place result.now }
        ensures rising { IsRising result.now }
        ensures some { 0 < length result.now }
    {
        self.metrics.points(place).list()
    }

    /// The pending points of a metric in rising time: none where it has none.
    pub fn points_of(&self, path: &MetricPath) -> &[(u32, Milli)]
        ensures points { result.now ≡ points_of self.now.metrics path.now }
        ensures rising { IsRising result.now }
    {
        match self.metrics.points_of(path) {
            Some(points) => points.list(),
            None => &[],
        }
    }

    /// All places, in the order in which their metrics got their first pending points. The work is that of sorting as many numbers.
    pub fn in_arrival_order(&self, alloc: Global) -> Result<Arrivals, AllocError>
        ensures { IfOk result (IsArrivalOrder self.now.metrics self.now.places) }
    {
        self.metrics.in_arrival_order(alloc)
    }

    /// Takes the metric at a place, with its points. The metric at the last place moves there, and the others stay, so the work does
    /// not grow with their number.
    pub fn take(&mut self, place: usize) -> (MetricPath, Points)
        requires { place < length self.old.places }
        ensures path { slice_get self.old.places place ≡ Some result.0 }
        ensures points { result.1 ≡ points_of self.old.metrics result.0 }
        ensures others { self.new ≡ after_take self.old place result.0 }
        ensures some { 0 < length result.1 }
    {
        let (path, points) = self.metrics.take(place);
        self.count -= points.len() as u64;
        (path, points)
    }
}

/// By how many points a put raises their number.
fn count_of(put: Put) -> u64
    ensures { result ≡ added put }
{
    match put {
        Put::Stored => 1,
        _ => 0,
    }
}
