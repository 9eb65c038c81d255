ghost use Rattle.std.specs.Prelude.{◌≡◌, [], IfOk, IfSome, IsSome, None, OnErr};
ghost use Rattle.drain_order.specs.Picking.{Follows, Picks, settled_with};
ghost use Rattle.drain_order.specs.Rank.{strategy_of};
ghost use Rattle.drain_order.specs.declared.strategy.Strategy.TheVariants.{Naive, Sorted};

use crate::Strategy;
use crate::queue::Queue;
use crate::rank::{Rank, first_by};
use point_cache::PointCache;
use std::alloc::{AllocError, Global};
use std::marker::Model;

/// Picks the metric that is drained next.
#[derive(Drop)]
pub struct Picker {
    strategy: Strategy,
    queue: Queue,
    // Under `Naive` the metrics that arrived first, as far as they were looked up.
    arrived: Queue,
    // Whether a pick waits to be settled, and whether it made the queue: until it is settled there is none.
    is_picked: bool,
    is_made: bool,
    alloc: Global,
}

impl Model for Picker {
    ghost use Rattle.std.specs.Prelude.{[], None, Some, if◌then◌else◌, drop};
    ghost use Rattle.std.specs.List.{IsDistinct};
    ghost use Rattle.std.specs.Str.{bytes_eq};
    ghost use Rattle.drain_order.specs.Picking.{HasQueues, Picking};

    ghost Value = { Picking };

    ghost view = { λ p. record { strategy = p.strategy; queue = if p.is_made then [] else p.queue; arrived = p.arrived; settled = if p.is_picked then Some (drop 1 p.queue) else None } };

    ghost invariant = { λ p. HasQueues p.strategy p.queue p.arrived × IsDistinct bytes_eq p.queue };
}

impl Picker {
    /// A picker with this strategy, and no queue.
    pub fn new(alloc: Global, strategy: Strategy) -> Picker
        ensures { result ≡ record { strategy = strategy; queue = []; arrived = []; settled = None } }
    {
        Picker {
            strategy,
            queue: Queue::new(alloc),
            arrived: Queue::new(alloc),
            is_picked: false,
            is_made: false,
            alloc,
        }
    }

    /// The place in the cache of the metric that is drained next, `None` where nothing is pending. Until it is settled, the next pick
    /// is made as if this one had not been. The cache must be the one that this picker has followed since it was made: points are put
    /// at any time, but metrics are taken only where they are picked, each before its pick is settled.
    ///
    /// Under `Max` and `TimeSorted` a pick walks over all metrics. `Sorted` and `Naive` sort all metrics when their queue is empty, and
    /// else take the first of it.
    pub fn pick(&mut self, cache: &PointCache) -> Result<Option<usize>, AllocError>
        requires { Follows self.old cache.now.metrics }
        ensures picks { IfOk result (Picks self.old self.new cache.now) }
        ensures err { OnErr result (self.new ≡ self.old) }
    {
        match self.strategy {
            Strategy::Max => Ok(self.pick_first(Rank::Count, cache)),
            Strategy::TimeSorted => Ok(self.pick_first(Rank::Age, cache)),
            Strategy::Sorted => self.pick_sorted(cache),
            Strategy::Naive => self.pick_arrived(cache),
        }
    }

    /// Uses the last pick that told a place.
    pub fn settle(&mut self)
        requires { IsSome self.old.settled }
        ensures { IfSome self.old.settled (λ queue. self.new ≡ settled_with self.old queue) }
    {
        self.queue.advance();
        self.arrived.advance();
        self.is_picked = false;
        self.is_made = false;
    }

    // The pick of the first of all by rank.
    fn pick_first(&mut self, rank: Rank, cache: &PointCache) -> Option<usize>
        requires strategy { self.old.strategy ≡ strategy_of rank }
        requires follows { Follows self.old cache.now.metrics }
        ensures { Picks self.old self.new cache.now result }
    {
        match first_by(rank, cache) {
            Some(place) => {
                self.is_picked = true;
                Some(place)
            }
            None => None,
        }
    }

    // The pick under `Sorted`.
    fn pick_sorted(&mut self, cache: &PointCache) -> Result<Option<usize>, AllocError>
        requires sorted { self.old.strategy ≡ Sorted }
        requires follows { Follows self.old cache.now.metrics }
        ensures picks { IfOk result (Picks self.old self.new cache.now) }
        ensures err { OnErr result (self.new ≡ self.old) }
    {
        if self.is_made || self.queue.is_empty() {
            return self.pick_anew(cache);
        }
        self.is_picked = true;
        Ok(cache.place_of(self.queue.first()))
    }

    // The pick under `Sorted` where there is no queue.
    fn pick_anew(&mut self, cache: &PointCache) -> Result<Option<usize>, AllocError>
        requires sorted { self.old.strategy ≡ Sorted }
        requires empty { self.old.queue ≡ [] }
        requires follows { Follows self.old cache.now.metrics }
        ensures picks { IfOk result (Picks self.old self.new cache.now) }
        ensures err { OnErr result (self.new ≡ self.old) }
    {
        let queue = Queue::make(self.alloc, cache)?;
        if queue.is_empty() {
            return Ok(None);
        }
        let place = cache.place_of(queue.first());
        self.queue = queue;
        self.is_made = true;
        self.is_picked = true;
        Ok(place)
    }

    // The pick under `Naive`.
    fn pick_arrived(&mut self, cache: &PointCache) -> Result<Option<usize>, AllocError>
        requires naive { self.old.strategy ≡ Naive }
        requires follows { Follows self.old cache.now.metrics }
        ensures picks { IfOk result (Picks self.old self.new cache.now) }
        ensures err { OnErr result (self.new ≡ self.old) }
    {
        if self.arrived.is_empty() {
            return self.look_up_arrived(cache);
        }
        self.is_picked = true;
        Ok(cache.place_of(self.arrived.first()))
    }

    // The pick under `Naive` where it is not known which metrics arrived first.
    fn look_up_arrived(&mut self, cache: &PointCache) -> Result<Option<usize>, AllocError>
        requires naive { self.old.strategy ≡ Naive }
        requires follows { Follows self.old cache.now.metrics }
        ensures picks { IfOk result (Picks self.old self.new cache.now) }
        ensures err { OnErr result (self.new ≡ self.old) }
    {
        let arrived = Queue::make_arrived(self.alloc, cache)?;
        if arrived.is_empty() {
            return Ok(None);
        }
        let place = cache.place_of(arrived.first());
        self.arrived = arrived;
        self.is_picked = true;
        Ok(place)
    }
}
