//! What holds of every pick. The functions do nothing: what they ensure is the law.
ghost use Rattle.std.specs.Prelude.{◌≡◌, ℕ, ℤ, List, [], None, Some, slice_get};
ghost use Rattle.std.specs.Map.{remove_entry};
ghost use Rattle.std.specs.Str.{bytes_eq};
ghost use Rattle.point_cache.specs.Pending.{Cache, Metrics, with_put};
ghost use Rattle.drain_order.specs.Pick.{AllPending, IsFirst, IsInOrder, by_age, by_count, pick, queue_after, queue_now};
ghost use Rattle.drain_order.specs.Picking.{Follows, Picking, Picks, settled_with};
ghost use Rattle.drain_order.specs.declared.strategy.Strategy.{Strategy};
ghost use Rattle.drain_order.specs.declared.strategy.Strategy.TheVariants.{Max, TimeSorted};

/// Under `max` the pick is a pending metric, and none goes before it: none has more points, and none with as many a lesser path.
pub fn max_picks_most_points()
    ensures { (queue : List (List ℕ)) (metrics : Metrics) (path : List ℕ)
        → pick Max queue metrics ≡ Some path → IsFirst by_count metrics path }
{}

/// Under `timesorted` the pick is a pending metric, and none goes before it: none has an older point, and none with one as old a
/// lesser path.
pub fn timesorted_picks_oldest_point()
    ensures { (queue : List (List ℕ)) (metrics : Metrics) (path : List ℕ)
        → pick TimeSorted queue metrics ≡ Some path → IsFirst by_age metrics path }
{}

/// A queue that is made has all pending paths, by falling number of points and then by path.
#[tactic(auto, using(crate::proofs::PickLemmas::made_in_order))]
pub fn queue_is_made_in_order()
    ensures { (metrics : Metrics) → IsInOrder by_count metrics (queue_now [] metrics) }
{}

/// Nothing is picked only where nothing is pending.
#[tactic(auto, using(crate::proofs::PickLemmas::none_then_empty))]
pub fn something_pending_is_picked()
    ensures { (strategy : Strategy) (queue : List (List ℕ)) (metrics : Metrics)
        → pick strategy queue metrics ≡ None → metrics ≡ [] }
{}

/// Where nothing is pending nothing is picked, as the queue has no path that is not pending.
#[tactic(auto, using(crate::proofs::PickLemmas::empty_then_none))]
pub fn nothing_pending_is_not_picked()
    ensures { (strategy : Strategy) (queue : List (List ℕ)) → AllPending queue []
        → pick strategy queue [] ≡ None }
{}

/// A picker that is new follows any metrics.
pub fn new_picker_follows_anything()
    ensures { (strategy : Strategy) (metrics : Metrics)
        → Follows (record { strategy = strategy; queue = []; arrived = []; settled = None }) metrics }
{}

/// A put leaves a picker with the metrics that it follows.
pub fn picker_follows_puts()
    ensures { (picking : Picking) (metrics : Metrics) (path : List ℕ) (time : ℕ) (value : ℤ)
        → Follows picking metrics → Follows picking (with_put metrics path time value) }
{}

/// A picker follows the metrics that are left once a metric that it picked is taken and the pick is settled.
pub fn picker_follows_drains()
    ensures { (old new : Picking) (cache : Cache) (place : ℕ) (path : List ℕ)
        → Picks old new cache (Some place) → slice_get cache.places place ≡ Some path
        → Follows (settled_with new (queue_after old.strategy old.queue cache.metrics))
        (remove_entry (bytes_eq path) cache.metrics) }
{}
