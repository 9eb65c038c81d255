//! The type of a table.
ghost use Rattle.std.specs.Prelude.{◌≡◌};

use crate::entry::Entry;
use crate::found::metrics_of;
use crate::found_metric::FoundMetric;
use crate::known::Known;
use crate::layout_list::LayoutList;
use metric_index::{Index, SearchedNames, Verdicts};
use metric_path::MetricPath;
use path_glob::Glob;
use ring_format::Layout;
use std::alloc::{AllocError, Global};
use std::marker::Model;

/// The metrics that a shard knows, by path.
#[derive(Drop)]
pub struct MetricTable {
    index: Index<Entry>,
    layouts: LayoutList,
}

impl Model for MetricTable {
    ghost use Rattle.std.specs.Prelude.{List, ℕ};
    ghost use Rattle.metric_table.specs.declared.known.Known.{Known as KnownValue};
    ghost use Rattle.metric_table.specs.Numbered.{HaveLayouts, known_by_all};

    ghost Value = { List (List ℕ × KnownValue) };

    ghost view = { λ t. known_by_all t.layouts t.index };

    ghost invariant = { λ t. HaveLayouts t.layouts t.index };
}

impl MetricTable {
    ghost use Rattle.std.specs.Prelude.{◌≡◌, ◌<◌, ◌-◌, ◌^◌, [], All, IfOk, IfSome, OnOk, OnErr, IsSomeAnd, None, Some, length, map, option_map};
    ghost use Rattle.std.specs.Cmp.Lexicographic.{slice_cmp};
    ghost use Rattle.std.specs.List.Sorted.{IsStrictlySortedBy};
    ghost use Rattle.std.specs.Ordering.{nat_cmp};
    ghost use Rattle.metric_path.specs.Path.{path_fault};
    ghost use Rattle.metric_index.specs.Found.{Finds, IsFitted};
    ghost use Rattle.metric_index.specs.Index.{Sets, entry_of, paths_of};
    ghost use Rattle.metric_index.specs.Searched.{AreKnown, IsPieceFrom};
    ghost use Rattle.metric_table.specs.Numbered.{known_by};
    ghost use Rattle.metric_table.specs.Table.{IsLawful, drained, seen, undrained};

    /// A table that knows no metric.
    pub fn new(alloc: Global) -> MetricTable
        ensures { result ≡ [] }
    {
        MetricTable {
            index: Index::new(alloc),
            layouts: LayoutList::new(alloc),
        }
    }

    /// How many metrics are known. Their paths are legal, and each is there once.
    pub fn len(&self) -> usize
        ensures value { result ≡ length self.now }
        ensures rising { IsStrictlySortedBy (slice_cmp nat_cmp) (paths_of self.now) }
        ensures legal { All (λ path. path_fault path ≡ None) (paths_of self.now) }
    {
        self.index.len()
    }

    /// What is known of a metric, or `None` where its path is not known. No memory is taken.
    pub fn get(&self, path: &MetricPath) -> Option<Known>
        ensures value { result ≡ entry_of self.now path.now }
        ensures lawful { IfSome result IsLawful }
    {
        let entry = *self.index.get(path)?;
        Some(self.layouts.known_by(entry))
    }

    /// Puts a metric with no drains into the table, in the place of what was known of it. Want of memory
    /// changes nothing.
    pub fn insert(
        &mut self,
        path: MetricPath,
        layout: Layout,
        is_kept: bool,
        is_old: bool,
    ) -> Result<(), AllocError>
        ensures ok { OnOk result
            (Sets self.old self.new path (Some (undrained layout is_kept is_old))) }
        ensures err { OnErr result (self.new ≡ self.old) }
    {
        // Each path is there once, so that no entry is hidden where the index stays as it is.
        let _ = self.index.len();
        let number = self.layouts.number_of(layout)?;
        let entry = Entry {
            layout: number,
            is_kept,
            is_old,
            drains: 0,
        };
        self.index.insert(path, entry)
    }

    /// Notes one more drain of a known metric, of which something is kept from then on. No memory is taken.
    pub fn note_drain(&mut self, path: &MetricPath)
        requires { IsSomeAnd (entry_of self.old path.now) (λ known. known.drains < 2 ^ 64 - 1) }
        ensures { Sets self.old self.new path.now
            (option_map drained (entry_of self.old path.now)) }
    {
        let Some(entry) = self.index.get(path) else {
            unreachable!()
        };
        let entry = Entry {
            layout: entry.layout,
            is_kept: true,
            is_old: false,
            drains: entry.drains + 1,
        };
        self.index.set(path, entry);
    }

    /// Takes a metric out. No memory is taken.
    pub fn remove(&mut self, path: &MetricPath)
        ensures { Sets self.old self.new path.now None }
    {
        self.index.remove(path);
    }

    /// The known metrics that a glob fits, in byte order of their paths, each once.
    pub fn find(
        &self,
        alloc: Global,
        glob: &Verdicts<'_>,
    ) -> Result<Vec<FoundMetric<'_>>, AllocError>
        ensures { IfOk result (λ found. Finds self.now (IsFitted glob.now) (map seen found.items)) }
    {
        let hits = self.index.find(alloc, glob)?;
        metrics_of(alloc, &self.layouts, &hits)
    }

    /// The same of a glob that was held against names, all of which are known still, as [`Index::find_again`] finds them.
    pub fn find_again<'a>(
        &'a self,
        alloc: Global,
        searched: &'a SearchedNames<'_>,
    ) -> Result<Vec<FoundMetric<'a>>, AllocError>
        requires known { AreKnown self.now searched.now.names }
        ensures { IfOk result (λ found. Finds self.now (IsFitted searched.now.glob)
            (map seen found.items)) }
    {
        let hits = self.index.find_again(alloc, searched)?;
        metrics_of(alloc, &self.layouts, &hits)
    }

    /// How many metrics a search for this glob looks at, as [`Index::width`] answers.
    pub fn width(&self, alloc: Global, glob: &Glob, most: usize) -> Result<usize, AllocError> {
        self.index.width(alloc, glob, most)
    }

    /// How many layouts are kept: one that several metrics have once, as long as few others came between.
    pub fn layout_count(&self) -> usize {
        self.layouts.len()
    }

    /// The paths of all known metrics, in byte order.
    pub fn names(&self, alloc: Global) -> Result<Vec<MetricPath>, AllocError>
        ensures { IfOk result (λ names. names.items ≡ paths_of self.now) }
    {
        self.index.paths(alloc)
    }

    /// The paths of known metrics in byte order, `most` at most: those from this one on.
    pub fn names_from(
        &self,
        alloc: Global,
        least: &MetricPath,
        most: usize,
    ) -> Result<Vec<MetricPath>, AllocError>
        ensures { IfOk result (λ names. IsPieceFrom self.now least.now names.items) }
    {
        self.index.paths_from(alloc, least, most)
    }
}
