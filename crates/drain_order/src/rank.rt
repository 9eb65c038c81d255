ghost use Rattle.std.specs.Prelude.{◌≡◌, ◌<◌, length};
ghost use Rattle.drain_order.specs.Pick.{by_age, by_count, oldest};
ghost use Rattle.drain_order.specs.Picking.{TellsPick};
ghost use Rattle.drain_order.specs.Rank.{first_path, metric_at, order_of};

use metric_path::MetricPath;
use point_cache::PointCache;
use std::cmp::Ordering;

/// By what a metric is chosen of all: the least path of those that tie.
#[derive(Clone, Copy)]
pub(crate) enum Rank {
    /// Most points.
    Count,
    /// The oldest point.
    Age,
}

/// The place of the first metric by rank, in one walk over all.
pub(crate) fn first_by(rank: Rank, cache: &PointCache) -> Option<usize>
    ensures { TellsPick cache.now result (first_path rank cache.now.metrics) }
{
    let count = cache.metrics();
    if count == 0 {
        return None;
    }
    let mut best = 0;
    for place in 1..count {
        if compare(rank, cache, place, best).is_lt() {
            best = place;
        }
    }
    Some(best)
}

/// Which of two metrics comes first by rank.
fn compare(rank: Rank, cache: &PointCache, a: usize, b: usize) -> Ordering
    requires a { a < length cache.now.places }
    requires b { b < length cache.now.places }
    ensures { result ≡ order_of rank (metric_at cache.now a) (metric_at cache.now b) }
{
    match rank {
        Rank::Count => compare_counts(cache, a, b),
        Rank::Age => compare_ages(cache, a, b),
    }
}

/// Which of two metrics has more points, or as many and the lesser path.
fn compare_counts(cache: &PointCache, a: usize, b: usize) -> Ordering
    requires a { a < length cache.now.places }
    requires b { b < length cache.now.places }
    ensures { result ≡ by_count (metric_at cache.now a) (metric_at cache.now b) }
{
    let counts = count_at(cache, b).cmp(&count_at(cache, a));
    counts.then(path_at(cache, a).cmp(path_at(cache, b)))
}

/// Which of two metrics has the older point, or one as old and the lesser path.
fn compare_ages(cache: &PointCache, a: usize, b: usize) -> Ordering
    requires a { a < length cache.now.places }
    requires b { b < length cache.now.places }
    ensures { result ≡ by_age (metric_at cache.now a) (metric_at cache.now b) }
{
    let ages = oldest_at(cache, a).cmp(&oldest_at(cache, b));
    ages.then(path_at(cache, a).cmp(path_at(cache, b)))
}

/// The path of the metric at a place.
#[tactic(auto, using(crate::proofs::MetricLemmas::path_at_place))]
fn path_at(cache: &PointCache, place: usize) -> &MetricPath
    requires { place < length cache.now.places }
    ensures { result.now ≡ (metric_at cache.now place).0 }
{
    cache.path(place)
}

/// How many points the metric at a place has.
fn count_at(cache: &PointCache, place: usize) -> usize
    requires { place < length cache.now.places }
    ensures { result ≡ length (metric_at cache.now place).1 }
{
    cache.points(place).len()
}

/// The time of the oldest point of the metric at a place.
fn oldest_at(cache: &PointCache, place: usize) -> u32
    requires { place < length cache.now.places }
    ensures { result ≡ oldest (metric_at cache.now place).1 }
{
    cache.points(place)[0].0
}
