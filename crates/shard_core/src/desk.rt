//! The desk of a class.
ghost use Rattle.drain_order.specs.Picking.{Follows};
ghost use Rattle.shard_core.specs.Props.{shelf_props};
ghost use Rattle.shard_core.specs.Shard.{AreOfClass};
ghost use Rattle.shard_core.specs.Table.{Lists};

use drain_order::Picker;
use metric_path::MetricPath;
use metric_table::MetricTable;
use path_glob::Glob;
use point_cache::PointCache;
use schema_rules::Rules;
use std::alloc::{AllocError, Global};

/// The half of a shard that needs no disk: the points that are pending, which of them go next, and
/// what is known of each metric. Its other half are the [`Files`](crate::Files).
#[derive(Drop)]
pub struct Desk {
    pub(crate) class: u32,
    pub(crate) rules: Rules,
    pub(crate) cache: PointCache,
    pub(crate) picker: Picker,
    pub(crate) table: MetricTable,
    pub(crate) alloc: Global,
    ghost metrics: { AreOfClass class cache.metrics } by { Prim.hlevel shelf_props },
    ghost waiting: { Follows picker cache.metrics } by { Prim.hlevel shelf_props },
    ghost listed: { Lists class rules cache.metrics table } by { Prim.hlevel shelf_props },
}

impl Desk {
    ghost use Rattle.std.specs.Prelude.{◌≡◌, IfOk, length};
    ghost use Rattle.std.specs.Cmp.Lexicographic.{slice_cmp};
    ghost use Rattle.std.specs.List.Sorted.{IsStrictlySortedBy};
    ghost use Rattle.std.specs.Ordering.{nat_cmp};
    ghost use Rattle.metric_index.specs.Searched.{AreKnown};
    ghost use Rattle.shard_core.specs.Halves.{FilesInside, both, desk_of};
    ghost use Rattle.shard_core.specs.Looks.{NamesFrom, NamesOf};

    /// How many metrics have pending points.
    pub fn cached_metrics(&self) -> usize
        ensures { result ≡ length self.now.cache.metrics }
    {
        self.cache.metrics()
    }

    /// The class whose metrics it has.
    pub fn class(&self) -> u32
        ensures { result ≡ self.now.class }
    {
        self.class
    }

    /// The paths of all metrics that are pending or of which something is kept, in byte order.
    pub fn names(&self) -> Result<Vec<MetricPath>, AllocError>
        ensures { IfOk result (λ names. (files : FilesInside)
            → NamesOf (both (desk_of self.now) files) names.items) }
    {
        // Each path is legal, and they rise.
        let _ = self.table.len();
        self.table.names(self.alloc)
    }

    /// The same where some are named already, in byte order: where these are all, nothing is copied.
    pub fn names_again(&self, names: Vec<MetricPath>) -> Result<Vec<MetricPath>, AllocError>
        requires known { AreKnown self.now.table names.items }
        requires rising { IsStrictlySortedBy (slice_cmp nat_cmp) names.items }
        ensures { IfOk result (λ names. (files : FilesInside)
            → NamesOf (both (desk_of self.now) files) names.items) }
    {
        if self.table.len() == names.len() {
            return Ok(names);
        }
        self.names()
    }

    /// Paths of metrics that are pending or of which something is kept, `most` at most: those from this one on,
    /// in byte order.
    pub fn names_from(&self, least: &MetricPath, most: usize) -> Result<Vec<MetricPath>, AllocError>
        ensures { IfOk result (λ names. (files : FilesInside)
            → NamesFrom (both (desk_of self.now) files) least.now names.items) }
    {
        // Each path is legal, and they rise.
        let _ = self.table.len();
        self.table.names_from(self.alloc, least, most)
    }

    /// How many metrics a look with this glob has to look at, or `most` where there are more.
    pub fn width(&self, glob: &Glob, most: usize) -> Result<usize, AllocError> {
        self.table.width(self.alloc, glob, most)
    }
}
