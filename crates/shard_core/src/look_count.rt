//! How much a look finds.
ghost use Rattle.std.specs.Prelude.{◌≡◌, ◌+◌, ◌≤◌, ℕ, IfSome};
ghost use Rattle.carbon_model.specs.State.{State};
ghost use Rattle.metric_index.specs.Found.{IsFitted};
ghost use Rattle.path_glob.specs.Faults.{Said};
ghost use Rattle.series_fetch.specs.Window.{IsWindow};
ghost use Rattle.shard_core.specs.Looks.{CountsFor, CountsFound, CountsLooks, FindsFor, IsFoundIn, bucket_count, series_of};
ghost use Rattle.shard_core.specs.Shard.{Inside};

use crate::desk::Desk;
use crate::looked::LookCount;
use metric_table::{FoundMetric, Verdicts};
use ring_format::Layout;
use series_fetch::{Window, window_of};
use std::alloc::AllocError;

impl Desk {
    ghost use Rattle.std.specs.Prelude.{◌≤◌, IfOk};
    ghost use Rattle.metric_index.specs.Found.{IsFitted};
    ghost use Rattle.shard_core.specs.Halves.{FilesInside, both, desk_of};
    ghost use Rattle.shard_core.specs.Looks.{CountsLooks};

    /// How many metrics, and how many values of them, [`Desk::look`] would find of the same
    /// question. No path and no point is copied. A count above 2^64 - 1 is answered as want of
    /// memory.
    pub fn count_looks(
        &self,
        glob: &Verdicts<'_>,
        from: u64,
        until: u64,
        now: u64,
    ) -> Result<LookCount, AllocError>
        requires order { from ≤ until }
        requires now { now ≤ 4_000_000_000 }
        ensures { IfOk result (λ count. (files : FilesInside)
            → CountsLooks (both (desk_of self.now) files) (IsFitted glob.now) now from until
            count) }
    {
        let found = self.find(glob)?;
        match count_found(&found, from, until, now) {
            Some(count) => Ok(count),
            None => Err(AllocError),
        }
    }
}

/// How many of the metrics that [`Desk::find`] found a look would find for a question from a
/// moment until another, both in seconds since the Unix epoch, and how many values of them: those
/// of which the question has buckets at the moment `now`. None where a count is above 2^64 - 1.
pub fn count_found(found: &[FoundMetric<'_>], from: u64, until: u64, now: u64) -> Option<LookCount>
    requires order { from ≤ until }
    requires now { now ≤ 4_000_000_000 }
    ensures states { IfSome result (λ count. (class : ℕ) (s : State) (glob : Said)
        → FindsFor class s (IsFitted glob) found.now
        → CountsFor class s (IsFitted glob) now from until count) }
    ensures shards { IfSome result (λ count. (shard : Inside) (glob : Said)
        → IsFoundIn shard (IsFitted glob) found.now
        → CountsLooks shard (IsFitted glob) now from until count) }
{
    sum_found(found, from, until, now)
}

// The count of metrics that were found: none where it is above 2^64 - 1.
fn sum_found(found: &[FoundMetric<'_>], from: u64, until: u64, now: u64) -> Option<LookCount>
    requires order { from ≤ until }
    requires now { now ≤ 4_000_000_000 }
    ensures { IfSome result (CountsFound now from until found.now) }
{
    let mut count = LookCount {
        series: 0,
        values: 0,
    };
    for metric in found {
        let window = window_of(metric.layout, now, from, until);
        count = with_window(count, metric.layout, window)?;
    }
    Some(count)
}

// The count with a metric of this window besides.
fn with_window(count: LookCount, layout: &Layout, window: Window) -> Option<LookCount>
    requires { IsWindow layout.now window }
    ensures { IfSome result (λ more. (more.series ≡ count.series + series_of window)
        × (more.values ≡ count.values + bucket_count layout.now window)) }
{
    match window {
        Window::Empty => Some(count),
        Window::Range(i, first, end) => {
            let buckets = (end - first) / u64::from(layout.archive(i).step);
            Some(LookCount {
                series: count.series.checked_add(1)?,
                values: count.values.checked_add(buckets)?,
            })
        }
    }
}
