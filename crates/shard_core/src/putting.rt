//! Puts of points.
ghost use Rattle.std.specs.Prelude.{◌≡◌, Some, false, OnErr, OnOk};
ghost use Rattle.metric_index.specs.Index.{Sets};
ghost use Rattle.metric_table.specs.Table.{undrained};
ghost use Rattle.schema_rules.specs.LayoutBy.{layout_by};

use crate::desk::Desk;
use metric_line::Datum;
use metric_path::MetricPath;
use metric_table::MetricTable;
use point_cache::Put;
use schema_rules::Rules;
use std::alloc::{AllocError, Global};

impl Desk {
    ghost use Rattle.std.specs.Prelude.{◌≡◌, None, Some, IsSome, is_some, position};
    ghost use Rattle.std.specs.Str.{bytes_eq};
    ghost use Rattle.metric_path.specs.Class.{class_of};
    ghost use Rattle.metric_index.specs.Index.{entry_of};
    ghost use Rattle.point_cache.specs.Pending.{HasRoom, place_of};
    ghost use Rattle.shard_core.specs.Halves.{desk_of};
    ghost use Rattle.shard_core.specs.Puts.{DeskTakes, OnlyTakes};

    /// Puts a point of a metric line, whose path is of this class. The layout of a metric is
    /// settled at its first stored point: it is that of what is kept of it, or else what the rules
    /// give it.
    pub fn put(&mut self, datum: &Datum) -> Put
        requires { class_of datum.now.path ≡ self.old.class }
        ensures put { DeskTakes (desk_of self.old) (desk_of self.new)
            datum.now.path datum.now.time datum.now.value result }
        ensures others { OnlyTakes (desk_of self.old) (desk_of self.new) }
    {
        if let Some(place) = self.cache.place_of(&datum.path) {
            return self.put_pending(place, datum);
        }
        // No more points are pending than may be.
        let _ = self.cache.count();
        if self.cache.is_full() || self.is_known(&datum.path) {
            return self.put_listed(datum);
        }
        self.put_first(datum)
    }

    // Puts a point of the metric at a place among those with pending points, which are all known.
    fn put_pending(&mut self, place: usize, datum: &Datum) -> Put
        requires here { class_of datum.now.path ≡ self.old.class }
        requires place { position (bytes_eq datum.now.path) self.old.cache.places ≡ Some place }
        requires pending { IsSome (place_of self.old.cache.metrics datum.now.path) }
        ensures put { DeskTakes (desk_of self.old) (desk_of self.new)
            datum.now.path datum.now.time datum.now.value result }
        ensures others { OnlyTakes (desk_of self.old) (desk_of self.new) }
    {
        // Each has points, and a path is legal.
        let _ = self.cache.metrics();
        let _ = datum.path.text();
        self.cache
            .put_at(place, &datum.path, datum.time, datum.value)
    }

    // Whether a metric is known.
    fn is_known(&self, path: &MetricPath) -> bool
        ensures { result ≡ is_some (entry_of self.now.table path.now) }
    {
        self.table.get(path).is_some()
    }

    // Puts a point of a metric that is known, or that finds no room.
    fn put_listed(&mut self, datum: &Datum) -> Put
        requires here { class_of datum.now.path ≡ self.old.class }
        requires known { HasRoom self.old.cache → IsSome (entry_of self.old.table datum.now.path) }
        ensures put { DeskTakes (desk_of self.old) (desk_of self.new)
            datum.now.path datum.now.time datum.now.value result }
        ensures others { OnlyTakes (desk_of self.old) (desk_of self.new) }
    {
        let _ = datum.path.text();
        self.cache.put(&datum.path, datum.time, datum.value)
    }

    // Puts the first point of a metric that is not known: it is known first, and is so no more
    // where the point is not stored.
    fn put_first(&mut self, datum: &Datum) -> Put
        requires here { class_of datum.now.path ≡ self.old.class }
        requires room { HasRoom self.old.cache }
        requires new { entry_of self.old.table datum.now.path ≡ None }
        ensures put { DeskTakes (desk_of self.old) (desk_of self.new)
            datum.now.path datum.now.time datum.now.value result }
        ensures others { OnlyTakes (desk_of self.old) (desk_of self.new) }
    {
        let _ = datum.path.text();
        match list_metric(self.alloc, &mut self.table, &self.rules, &datum.path) {
            Ok(()) => {}
            Err(_) => return Put::NoMemory,
        }
        match self.cache.put(&datum.path, datum.time, datum.value) {
            Put::Stored => Put::Stored,
            put => {
                self.table.remove(&datum.path);
                put
            }
        }
    }
}

// A metric is known from now on, in the layout that the rules give it.
fn list_metric(
    alloc: Global,
    table: &mut MetricTable,
    rules: &Rules,
    path: &MetricPath,
) -> Result<(), AllocError>
    ensures ok { OnOk result (Sets table.old table.new path.now
        (Some (undrained (layout_by rules.now path.now) false false))) }
    ensures err { OnErr result (table.new ≡ table.old) }
{
    let layout = rules.layout_of(alloc, path)?;
    table.insert(path.copy()?, layout, false, false)
}
