//! The type of an index.
ghost use Rattle.std.specs.Prelude.{◌≡◌};

use crate::copying::first_of;
use crate::finding::fitted;
use crate::front::{is_literal, least_path};
use crate::hit::Hit;
use crate::searched::SearchedNames;
use crate::verdicts::Verdicts;
use metric_path::MetricPath;
use path_glob::Glob;
use std::alloc::{AllocError, Global};
use std::collections::BTreeMap;
use std::marker::Model;

/// The known paths, each with its entry.
#[derive(Drop)]
pub struct Index<V> {
    entries: BTreeMap<MetricPath, V>,
}

impl<V> Model for Index<V> {
    ghost use Rattle.std.specs.Prelude.{◌≡◌, List, ℕ, None, All};
    ghost use Rattle.metric_index.specs.Index.{paths_of};
    ghost use Rattle.metric_path.specs.Path.{path_fault};

    ghost Value = { List (List ℕ × V) };

    ghost view = { λ index. index.entries.entries };

    ghost invariant = { λ index. All (λ path. path_fault path ≡ None) (paths_of index.entries.entries) };
}

impl<V: Drop> Index<V> {
    ghost use Rattle.std.specs.Prelude.{◌≡◌, [], All, IfOk, OnOk, OnErr, IsSome, None, Some, length, map};
    ghost use Rattle.std.specs.Cmp.Lexicographic.{slice_cmp};
    ghost use Rattle.std.specs.List.Sorted.{IsStrictlySortedBy};
    ghost use Rattle.std.specs.Option.{option_copied};
    ghost use Rattle.std.specs.Ordering.{nat_cmp};
    ghost use Rattle.metric_path.specs.Path.{path_fault};
    ghost use Rattle.metric_index.specs.Index.{Sets, entry_of, paths_of};
    ghost use Rattle.metric_index.specs.Found.{Finds, IsFitted, seen};
    ghost use Rattle.metric_index.specs.Searched.{AreHits, AreKnown, IsPieceFrom};

    /// An index without a path.
    pub fn new(alloc: Global) -> Index<V>
        ensures { result ≡ [] }
    {
        Index {
            entries: BTreeMap::new(alloc),
        }
    }

    /// How many paths are known. They are legal, and each is there once.
    pub fn len(&self) -> usize
        ensures value { result ≡ length self.now }
        ensures rising { IsStrictlySortedBy (slice_cmp nat_cmp) (paths_of self.now) }
        ensures legal { All (λ path. path_fault path ≡ None) (paths_of self.now) }
    {
        self.entries.len()
    }

    /// The entry of a path, or `None` where the path is not known. No memory is taken.
    pub fn get(&self, path: &MetricPath) -> Option<&V>
        ensures { option_copied result ≡ entry_of self.now path.now }
    {
        self.entries.get(path)
    }

    /// Gives a path this entry, whether or not it was known.
    pub fn insert(&mut self, path: MetricPath, entry: V) -> Result<(), AllocError>
        ensures ok { OnOk result (Sets self.old self.new path (Some entry)) }
        ensures err { OnErr result (self.new ≡ self.old) }
    {
        let _ = path.text();
        self.entries.insert(path, entry)?;
        Ok(())
    }

    /// Gives a known path another entry. No memory is taken.
    pub fn set(&mut self, path: &MetricPath, entry: V)
        requires { IsSome (entry_of self.old path.now) }
        ensures { Sets self.old self.new path.now (Some entry) }
    {
        let Some(place) = self.entries.get_mut(path) else {
            unreachable!()
        };
        *place = entry;
    }

    /// Takes a path with its entry out. No memory is taken.
    pub fn remove(&mut self, path: &MetricPath)
        ensures { Sets self.old self.new path.now None }
    {
        self.entries.remove(path);
    }

    /// All known paths, in byte order.
    pub fn paths(&self, alloc: Global) -> Result<Vec<MetricPath>, AllocError>
        ensures { IfOk result (λ paths. paths.items ≡ paths_of self.now) }
    {
        let mut paths = Vec::with_capacity(alloc, self.entries.len())?;
        for path in self.entries.keys() {
            paths.push(path.copy()?)?;
        }
        Ok(paths)
    }

    /// Known paths in byte order, `most` at most: those from this one on.
    pub fn paths_from(
        &self,
        alloc: Global,
        least: &MetricPath,
        most: usize,
    ) -> Result<Vec<MetricPath>, AllocError>
        ensures { IfOk result (λ paths. IsPieceFrom self.now least.now paths.items) }
    {
        first_of(alloc, self.entries.range(least..), most)
    }

    /// The known paths that a glob fits, in byte order, each once and with its entry. Only paths that begin
    /// with the glob's literal front are looked at, and a glob without a wildcard is one look-up.
    pub fn find(&self, alloc: Global, glob: &Verdicts<'_>) -> Result<Vec<Hit<'_, V>>, AllocError>
        ensures { IfOk result (λ hits. Finds self.now (IsFitted glob.now) (map seen hits.items)) }
    {
        self.find_by(alloc, glob.glob(), glob)
    }

    /// The same of a glob that was held against names, all of which are known still. Where no more are known only those
    /// that it fits are looked up; where it fits many of them all are walked, which is faster then.
    pub fn find_again<'a>(
        &'a self,
        alloc: Global,
        searched: &'a SearchedNames<'_>,
    ) -> Result<Vec<Hit<'a, V>>, AllocError>
        requires known { AreKnown self.now searched.now.names }
        ensures { IfOk result (λ hits. Finds self.now (IsFitted searched.now.glob)
            (map seen hits.items)) }
    {
        if self.len() != searched.count() || searched.fits_many() {
            return self.find(alloc, searched.verdicts());
        }
        self.hits_of(alloc, searched.fitting())
    }

    // The hits of these paths, which are known.
    fn hits_of<'a>(
        &'a self,
        alloc: Global,
        paths: &[&'a MetricPath],
    ) -> Result<Vec<Hit<'a, V>>, AllocError>
        requires known { AreKnown self.now (map (λ path. path.now) paths.now) }
        ensures { IfOk result (λ hits. AreHits self.now (map (λ path. path.now) paths.now)
            (map seen hits.items)) }
    {
        let mut hits = Vec::with_capacity(alloc, paths.len())?;
        for path in paths {
            let Some(entry) = self.get(path) else {
                unreachable!()
            };
            hits.push(Hit { path, entry })?;
        }
        Ok(hits)
    }

    // The same of a glob, of which this is known beforehand.
    fn find_by(
        &self,
        alloc: Global,
        glob: &Glob,
        known: &Verdicts<'_>,
    ) -> Result<Vec<Hit<'_, V>>, AllocError>
        requires same { known.now ≡ glob.now }
        ensures { IfOk result (λ hits. Finds self.now (IsFitted glob.now) (map seen hits.items)) }
    {
        let entries = &self.entries;
        let Some(least) = least_path(alloc, glob.literal_front())? else {
            return Ok(Vec::new(alloc));
        };
        if is_literal(glob) {
            return fitted(alloc, entries.range(&least..=&least), glob, known);
        }
        fitted(alloc, entries.range(&least..), glob, known)
    }

    /// How many known paths a search for this glob looks at, which are those that begin with its literal front, or `most` where there are more. A
    /// glob without a wildcard, which is one look-up, looks at none.
    pub fn width(&self, alloc: Global, glob: &Glob, most: usize) -> Result<usize, AllocError> {
        if is_literal(glob) {
            return Ok(0);
        }
        let front = glob.literal_front();
        if front.is_empty() {
            return Ok(self.entries.len().min(most));
        }
        let Some(least) = least_path(alloc, front)? else {
            return Ok(0);
        };
        let from = self.entries.range(&least..).take(most);
        Ok(
            from.take_while(|(path, _)| path.text().starts_with(front))
                .count(),
        )
    }
}
