ghost use Rattle.std.specs.Prelude.{◌≡◌, ◌≢◌, ◌<◌, [], IfOk, IsTrue, ◌↔◌, Some, drop, length, map, slice_get};
ghost use Rattle.std.specs.List.{IsDistinct};
ghost use Rattle.std.specs.List.Sorted.{IsPermutation};
ghost use Rattle.std.specs.Str.{bytes_eq};
ghost use Rattle.point_cache.specs.Pending.{paths_of};
ghost use Rattle.drain_order.specs.Pick.{queue_now};
ghost use Rattle.drain_order.specs.Queue.{waiting_of, waiting_paths};
ghost use Rattle.drain_order.specs.Rank.{by_place, metric_at};

use crate::waiting::Waiting;
use metric_path::MetricPath;
use point_cache::PointCache;
use std::alloc::{AllocError, Global};
use std::marker::Model;

/// The paths that are still to be picked, first in front.
#[derive(Drop)]
pub(crate) struct Queue {
    waiting: Vec<Waiting>,
    next: usize,
}

impl Model for Queue {
    ghost use Rattle.std.specs.Prelude.{◌≤◌, List, ℕ, drop, length};
    ghost use Rattle.drain_order.specs.Queue.{waiting_paths};

    ghost Value = { List (List ℕ) };

    ghost view = { λ q. waiting_paths (drop q.next q.waiting.items) };

    ghost invariant = { λ q. q.next ≤ length q.waiting.items };
}

impl Queue {
    /// A queue with no paths.
    pub(crate) fn new(alloc: Global) -> Queue
        ensures { result ≡ [] }
    {
        Queue {
            waiting: Vec::new(alloc),
            next: 0,
        }
    }

    /// A queue of all metrics with pending points, most points first, and then by path.
    pub(crate) fn make(alloc: Global, cache: &PointCache) -> Result<Queue, AllocError>
        ensures paths { IfOk result (λ queue. queue ≡ queue_now [] cache.now.metrics) }
        ensures once { IfOk result (IsDistinct bytes_eq) }
    {
        let waiting = sorted(alloc, cache)?;
        Ok(Queue { waiting, next: 0 })
    }

    /// A queue of all metrics with pending points, in order of arrival.
    pub(crate) fn make_arrived(alloc: Global, cache: &PointCache) -> Result<Queue, AllocError>
        ensures { IfOk result (λ queue. queue ≡ paths_of cache.now.metrics) }
    {
        let waiting = arrived(alloc, cache)?;
        Ok(Queue { waiting, next: 0 })
    }

    /// Whether no path is left.
    pub(crate) fn is_empty(&self) -> bool
        ensures { IsTrue result ↔ (self.now ≡ []) }
    {
        if self.next < self.waiting.len() {
            return false;
        }
        true
    }

    /// The path in front.
    pub(crate) fn first(&self) -> &MetricPath
        requires { self.now ≢ [] }
        ensures { slice_get self.now 0 ≡ Some result.now }
    {
        &self.waiting[self.next].path
    }

    /// Takes the path in front away, where there is one.
    pub(crate) fn advance(&mut self)
        ensures { self.new ≡ drop 1 self.old }
    {
        if self.next < self.waiting.len() {
            self.next += 1;
        }
    }
}

/// All metrics with pending points, in the order of the queue.
fn sorted(alloc: Global, cache: &PointCache) -> Result<Vec<Waiting>, AllocError>
    ensures paths { IfOk result (λ all. waiting_paths all.items ≡ queue_now [] cache.now.metrics) }
    ensures once { IsDistinct bytes_eq (paths_of cache.now.metrics) }
{
    let mut all = placed(alloc, cache)?;
    all.sort_unstable();
    Ok(all)
}

/// All metrics with pending points, by place.
fn placed(alloc: Global, cache: &PointCache) -> Result<Vec<Waiting>, AllocError>
    ensures all { IfOk result (λ all. all.items ≡ map waiting_of (by_place cache.now)) }
    ensures placed { IsPermutation (paths_of cache.now.metrics) cache.now.places }
    ensures once { IsDistinct bytes_eq (paths_of cache.now.metrics) }
{
    let count = cache.metrics();
    let mut all = Vec::with_capacity(alloc, count)?;
    for place in 0..count {
        let waiting = waiting_at(cache, place)?;
        all.push(waiting)?;
    }
    Ok(all)
}

/// All metrics with pending points, in order of arrival.
fn arrived(alloc: Global, cache: &PointCache) -> Result<Vec<Waiting>, AllocError>
    ensures { IfOk result (λ all. waiting_paths all.items ≡ paths_of cache.now.metrics) }
{
    let order = cache.in_arrival_order(alloc)?;
    let count = order.len();
    let mut all = Vec::with_capacity(alloc, count)?;
    for index in 0..count {
        let waiting = waiting_at(cache, order.place(index))?;
        all.push(waiting)?;
    }
    Ok(all)
}

/// The metric at a place.
fn waiting_at(cache: &PointCache, place: usize) -> Result<Waiting, AllocError>
    requires { place < length cache.now.places }
    ensures path { IfOk result (λ waiting. slice_get cache.now.places place ≡ Some waiting.path) }
    ensures metric { IfOk result (λ waiting. waiting ≡ waiting_of (metric_at cache.now place)) }
{
    let path = cache.path(place).copy()?;
    Ok(Waiting {
        count: cache.points(place).len(),
        path,
    })
}
