//! Looking at metrics.
use crate::desk::Desk;
use crate::looked::Looked;
use metric_table::{FoundMetric, SearchedNames, Verdicts};
use point_cache::Points;
use series_fetch::{Window, window_of};
use std::alloc::AllocError;

impl Desk {
    ghost use Rattle.std.specs.Prelude.{◌≡◌, ◌≤◌, All, IfOk, map};
    ghost use Rattle.path_glob.specs.Faults.{Said};
    ghost use Rattle.metric_index.specs.Found.{IsFitted};
    ghost use Rattle.metric_index.specs.Searched.{AreKnown};
    ghost use Rattle.metric_table.specs.Table.{seen};
    ghost use Rattle.series_fetch.specs.Window.{IsWindow};
    ghost use Rattle.point_cache.specs.Points.{IsRising};
    ghost use Rattle.shard_core.specs.Halves.{FilesInside, both, desk_of};
    ghost use Rattle.shard_core.specs.Looks.{IsFoundIn, IsReadableLook, IsSoundLook, LooksAt, LooksAtFound, MayRead, looked_as, looked_in};

    /// The metrics that a glob fits, at the moment `now`, for a question from a moment until
    /// another, all in seconds since the Unix epoch: in byte order of their paths, and without
    /// those of which the question has no bucket. The disk is not read.
    pub fn look(
        &self,
        glob: &Verdicts<'_>,
        from: u64,
        until: u64,
        now: u64,
    ) -> Result<Vec<Looked>, AllocError>
        requires order { from ≤ until }
        requires now { now ≤ 4_000_000_000 }
        ensures looks { IfOk result (λ looked. (files : FilesInside)
            → LooksAt (both (desk_of self.now) files) (IsFitted glob.now) now from until
            looked.items) }
        ensures readable { IfOk result (λ looked. (files : FilesInside)
            → All (MayRead (both (desk_of self.now) files)) looked.items) }
    {
        let found = self.find(glob)?;
        self.look_at(&found, from, until, now)
    }

    /// The known metrics that a glob fits, in byte order of their paths. What is found can be
    /// counted by [`count_found`](crate::count_found) and looked at by [`Desk::look_at`].
    pub fn find(&self, glob: &Verdicts<'_>) -> Result<Vec<FoundMetric<'_>>, AllocError>
        ensures { IfOk result (λ found. (files : FilesInside)
            → IsFoundIn (both (desk_of self.now) files) (IsFitted glob.now) found.items) }
    {
        // Each path is legal, and they rise.
        let _ = self.table.len();
        self.table.find(self.alloc, glob)
    }

    /// The same of a glob that was held against names, all of which are known still. Where no more are known, only those
    /// that it fits are looked up.
    pub fn find_again<'a>(
        &'a self,
        searched: &'a SearchedNames<'_>,
    ) -> Result<Vec<FoundMetric<'a>>, AllocError>
        requires known { AreKnown self.now.table searched.now.names }
        ensures { IfOk result (λ found. (files : FilesInside)
            → IsFoundIn (both (desk_of self.now) files) (IsFitted searched.now.glob) found.items) }
    {
        // Each path is legal, and they rise.
        let _ = self.table.len();
        self.table.find_again(self.alloc, searched)
    }

    /// What [`Desk::look`] tells of metrics that were found, for a question from a moment until
    /// another at the moment `now`: those of which the question has buckets, in the order in which
    /// they were found. The disk is not read.
    pub fn look_at(
        &self,
        found: &[FoundMetric<'_>],
        from: u64,
        until: u64,
        now: u64,
    ) -> Result<Vec<Looked>, AllocError>
        requires order { from ≤ until }
        requires now { now ≤ 4_000_000_000 }
        ensures looks { IfOk result (λ looked. (files : FilesInside)
            → LooksAtFound (both (desk_of self.now) files) found.now now from until looked.items) }
        ensures readable { IfOk result (λ looked. (files : FilesInside) (glob : Said)
            → IsFoundIn (both (desk_of self.now) files) (IsFitted glob) found.now
            → All (MayRead (both (desk_of self.now) files)) looked.items) }
        ensures sound { IfOk result (λ looked. All IsReadableLook looked.items) }
    {
        self.look_at_each(found, from, until, now)
    }

    // The found metrics of which the question has buckets.
    fn look_at_each(
        &self,
        found: &[FoundMetric<'_>],
        from: u64,
        until: u64,
        now: u64,
    ) -> Result<Vec<Looked>, AllocError>
        requires order { from ≤ until }
        requires now { now ≤ 4_000_000_000 }
        ensures looked { IfOk result
            (λ looked. looked.items
            ≡ looked_in self.now.cache.metrics now from until (map seen found.now)) }
        ensures sound { IfOk result (λ looked. All IsSoundLook looked.items) }
    {
        let mut looked = Vec::new(self.alloc);
        for metric in found {
            let window = window_of(metric.layout, now, from, until);
            if window != Window::Empty {
                looked.push(self.look_at_one(metric, window)?)?;
            }
        }
        Ok(looked)
    }

    // What there is to say of a metric, for a question about this window.
    fn look_at_one(&self, metric: &FoundMetric<'_>, window: Window) -> Result<Looked, AllocError>
        requires { IsWindow metric.now.layout.now window }
        ensures looked { IfOk result
            (λ looked. looked ≡ looked_as self.now.cache.metrics window (seen metric.now)) }
        ensures sound { IfOk result IsSoundLook }
    {
        Ok(Looked {
            path: metric.path.copy()?,
            layout: *metric.layout,
            window,
            pending: Points::of_rising(self.alloc, self.cache.points_of(metric.path))?,
            drains: metric.drains,
        })
    }
}
