ghost use Rattle.std.specs.Prelude.{◌≡◌, ◌<◌, [], IfOk, IfSome, List, ℕ, None, Some, is_some, length, position, slice_get, swap_remove};
ghost use Rattle.std.specs.List.{IsDistinct};
ghost use Rattle.std.specs.List.Sorted.{IsPermutation};
ghost use Rattle.std.specs.Map.{lookup, remove_entry};
ghost use Rattle.std.specs.Option.{option_copied};
ghost use Rattle.std.specs.Str.{bytes_eq};
ghost use Rattle.point_cache.specs.Kept.{AreArrivals, entry_at};
ghost use Rattle.point_cache.specs.Pending.{Counts, IsArrivalOrder, PutsMetric, ReplacesMetric, paths_of, place_of};

use crate::arrivals::{Arrival, Arrivals};
use crate::numbered::Numbered;
use crate::{Points, Put};
use fixed_num::Milli;
use indexmap::IndexMap;
use metric_path::MetricPath;
use std::alloc::{AllocError, Global};
use std::marker::Model;

/// Metrics with their points, each at a place. A metric that is taken leaves its place to the last, so taking one costs the same
/// however many there are, and the numbers that they got tell in which order they arrived.
#[derive(Drop)]
pub(crate) struct MetricMap {
    entries: IndexMap<MetricPath, Numbered>,
    next: u64,
}

impl Model for MetricMap {
    ghost use Rattle.point_cache.specs.Pending.{Placed};
    ghost use Rattle.point_cache.specs.Kept.{IsKept, placed_of};

    ghost Value = { Placed };

    ghost view = { λ m. placed_of m.entries.entries };

    ghost invariant = { λ m. IsKept m.next m.entries.entries };
}

impl MetricMap {
    /// No metrics.
    pub(crate) fn new(alloc: Global) -> MetricMap
        ensures { result ≡ record { metrics = []; places = [] } }
    {
        MetricMap {
            entries: IndexMap::new(alloc),
            next: 0,
        }
    }

    /// How many metrics there are.
    pub(crate) fn len(&self) -> usize
        ensures metrics { result ≡ length self.now.metrics }
        ensures places { result ≡ length self.now.places }
        ensures placed { IsPermutation (paths_of self.now.metrics) self.now.places }
        ensures once { IsDistinct bytes_eq (paths_of self.now.metrics) }
    {
        self.entries.len()
    }

    /// The place of a metric, `None` where it is not there.
    pub(crate) fn place_of(&self, path: &MetricPath) -> Option<usize>
        ensures place { result ≡ position (bytes_eq path.now) self.now.places }
        ensures pending { is_some result ≡ is_some (place_of self.now.metrics path.now) }
        ensures within { IfSome result (λ place. place < length self.now.places) }
    {
        self.entries.get_index_of(path)
    }

    /// The path at a place.
    pub(crate) fn path(&self, place: usize) -> &MetricPath
        requires { place < length self.now.places }
        ensures { slice_get self.now.places place ≡ Some result.now }
    {
        let Some((path, _)) = self.entries.get_index(place) else {
            unreachable!()
        };
        path
    }

    /// The points of the metric at a place.
    pub(crate) fn points(&self, place: usize) -> &Points
        requires { place < length self.now.places }
        ensures { (path : List ℕ) → slice_get self.now.places place ≡ Some path
            → lookup (bytes_eq path) self.now.metrics ≡ Some result.now }
    {
        let Some((_, numbered)) = self.entries.get_index(place) else {
            unreachable!()
        };
        &numbered.points
    }

    /// The points of a metric, `None` where it is not there.
    pub(crate) fn points_of(&self, path: &MetricPath) -> Option<&Points>
        ensures { option_copied result ≡ lookup (bytes_eq path.now) self.now.metrics }
    {
        let numbered = self.entries.get(path)?;
        Some(&numbered.points)
    }

    /// Puts a point of a metric.
    pub(crate) fn put(&mut self, alloc: Global, path: &MetricPath, time: u32, value: Milli) -> Put
        ensures put { PutsMetric self.old self.new path.now time value result }
        ensures counts { Counts self.old.metrics self.new.metrics result }
    {
        match self.entries.get_index_of(path) {
            Some(place) => self.put_next(path, place, time, value),
            None => self.put_first(path, Points::new(alloc), time, value),
        }
    }

    /// Puts one more point of the metric at a place.
    pub(crate) fn put_next(
        &mut self,
        path: &MetricPath,
        place: usize,
        time: u32,
        value: Milli,
    ) -> Put
        requires { position (bytes_eq path.now) self.old.places ≡ Some place }
        ensures put { PutsMetric self.old self.new path.now time value result }
        ensures counts { Counts self.old.metrics self.new.metrics result }
    {
        let _ = path;
        let Some(numbered) = self.entries.get_index_mut(place) else {
            unreachable!()
        };
        numbered.points.put(time, value)
    }

    // Puts the first point of a metric, which gets the next number. Where no number is left the point is refused as for want of memory.
    fn put_first(&mut self, path: &MetricPath, points: Points, time: u32, value: Milli) -> Put
        requires absent { position (bytes_eq path.now) self.old.places ≡ None }
        requires empty { points ≡ [] }
        ensures put { PutsMetric self.old self.new path.now time value result }
        ensures counts { Counts self.old.metrics self.new.metrics result }
    {
        let number = self.next;
        let mut points = points;
        let Some(next) = number.checked_add(1) else {
            return Put::NoMemory;
        };
        let Ok(path) = path.copy() else {
            return Put::NoMemory;
        };
        match points.put(time, value) {
            Put::Stored => {}
            _ => return Put::NoMemory,
        }
        let Ok(_) = self.entries.insert(path, Numbered { number, points }) else {
            return Put::NoMemory;
        };
        self.next = next;
        Put::Stored
    }

    /// Puts a point of a metric where no new one has room.
    pub(crate) fn replace(&mut self, path: &MetricPath, time: u32, value: Milli) -> Put
        ensures put { ReplacesMetric self.old self.new path.now time value result }
        ensures counts { Counts self.old.metrics self.new.metrics result }
    {
        match self.entries.get_index_of(path) {
            Some(place) => self.replace_at(path, place, time, value),
            None => Put::Full,
        }
    }

    /// Replaces a point of the metric at a place, where no new one has room.
    pub(crate) fn replace_at(
        &mut self,
        path: &MetricPath,
        place: usize,
        time: u32,
        value: Milli,
    ) -> Put
        requires { position (bytes_eq path.now) self.old.places ≡ Some place }
        ensures put { ReplacesMetric self.old self.new path.now time value result }
        ensures counts { Counts self.old.metrics self.new.metrics result }
    {
        let _ = path;
        let Some(numbered) = self.entries.get_index_mut(place) else {
            unreachable!()
        };
        numbered.points.replace(time, value)
    }

    /// Takes the metric at a place, with its points.
    pub(crate) fn take(&mut self, place: usize) -> (MetricPath, Points)
        requires { place < length self.old.places }
        ensures path { slice_get self.old.places place ≡ Some result.0 }
        ensures points { lookup (bytes_eq result.0) self.old.metrics ≡ Some result.1 }
        ensures metrics { self.new.metrics ≡ remove_entry (bytes_eq result.0) self.old.metrics }
        ensures places { self.new.places ≡ swap_remove self.old.places place result.0 }
    {
        let Some((path, numbered)) = self.entries.swap_remove_index(place) else {
            unreachable!()
        };
        (path, numbered.points)
    }

    /// All places, in order of arrival.
    pub(crate) fn in_arrival_order(&self, alloc: Global) -> Result<Arrivals, AllocError>
        ensures { IfOk result (IsArrivalOrder self.now.metrics self.now.places) }
    {
        let mut arrivals = arrivals_of(alloc, &self.entries)?;
        arrivals.sort_unstable();
        Ok(Arrivals::new(arrivals))
    }
}

/// The numbers of all metrics, by place.
fn arrivals_of(
    alloc: Global,
    entries: &IndexMap<MetricPath, Numbered>,
) -> Result<Vec<Arrival>, AllocError>
    ensures { IfOk result
        (λ all. AreArrivals entries.now.entries (length entries.now.entries) all.items) }
{
    let count = entries.len();
    let mut all = Vec::with_capacity(alloc, count)?;
    for place in 0..count {
        let number = number_at(entries, place);
        all.push(Arrival { number, place })?;
    }
    Ok(all)
}

/// The number of the metric at a place.
fn number_at(entries: &IndexMap<MetricPath, Numbered>, place: usize) -> u64
    requires { place < length entries.now.entries }
    ensures { result ≡ (entry_at entries.now.entries place).1.number }
{
    let Some((_, numbered)) = entries.get_index(place) else {
        unreachable!()
    };
    numbered.number
}
