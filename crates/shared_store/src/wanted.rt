//! The needs of a question, with what is known beforehand of the names.
ghost use Rattle.std.specs.Prelude.{◌≡◌, All, IfOk, map};
ghost use Rattle.shared_store.specs.Known.{AreInOrder, lists_of, needs_of};

use metric_path::MetricPath;
use path_glob::{Glob, GlobSearch, Work};
use render_need::Need;
use shard_core::SearchedNames;
use std::alloc::{AllocError, Global};
use std::marker::Model;

// What it takes to find the names of a class that begin as a glob does, however few they are, and to look it up there under
// the locks: a question has as many needs as it may find series.
const CLASS_WORK: u64 = 1_450;

// What it takes to enter what came of a name.
const NAME_WORK: u64 = 24;

/// A need of a question, and of the names of each class those that its glob fits, where that was found out before the
/// locks of all classes are taken.
#[derive(Drop)]
pub(crate) struct Wanted<'a> {
    need: &'a Need,
    unknown: SearchedNames<'a>,
    by_class: Vec<SearchedNames<'a>>,
}

impl<'a> Model for Wanted<'a> {
    ghost use Rattle.std.specs.Prelude.{◌≡◌, [], All, map};
    ghost use Rattle.shared_store.specs.Known.{WantedValue};

    ghost Value = { WantedValue };

    ghost view = { λ w. record { need = w.need.now; names = map (λ s. s.names) w.by_class.items } };

    ghost invariant = { λ w. (w.unknown ≡ record { glob = w.need.now.glob; names = [] })
        × All (λ s. s.glob ≡ w.need.now.glob) w.by_class.items };
}

impl<'a> Wanted<'a> {
    ghost use Rattle.std.specs.Prelude.{◌≡◌, [], IfOk, get_or};
    ghost use Rattle.shared_store.specs.Known.{AreInOrder, lists_of};

    /// A need, of which the names of each class are known, or none.
    fn new(
        alloc: Global,
        need: &'a Need,
        names: &'a [Vec<MetricPath>],
        work: &mut Work,
    ) -> Result<Wanted<'a>, AllocError>
        requires order { AreInOrder names.now }
        ensures { IfOk result
            (λ wanted. wanted ≡ record { need = need.now; names = lists_of names.now }) }
    {
        Ok(Wanted {
            need,
            unknown: SearchedNames::none(alloc, &need.glob),
            by_class: search_classes(alloc, need, names, work)?,
        })
    }

    /// The need.
    pub(crate) fn need(&self) -> &Need
        ensures { result.now ≡ self.now.need }
    {
        self.need
    }

    /// Its glob, with what is known of the names of a class.
    pub(crate) fn searched(&self, class: u32) -> &SearchedNames<'a>
        ensures glob { result.now.glob ≡ self.now.need.glob }
        ensures names { result.now.names ≡ get_or self.now.names class [] }
    {
        match self.by_class.get(class as usize) {
            Some(searched) => return searched,
            None => return &self.unknown,
        }
    }
}

// The glob of a need, held against the names of each class.
fn search_classes<'a>(
    alloc: Global,
    need: &'a Need,
    names: &'a [Vec<MetricPath>],
    work: &mut Work,
) -> Result<Vec<SearchedNames<'a>>, AllocError>
    requires order { AreInOrder names.now }
    ensures glob { IfOk result (λ all. All (λ s. s.glob ≡ need.now.glob) all.items) }
    ensures names { IfOk result (λ all. map (λ s. s.names) all.items ≡ lists_of names.now) }
{
    let mut all = Vec::with_capacity(alloc, names.len())?;
    // Nodes that stand in several classes are tried once.
    let mut search = GlobSearch::new(alloc, &need.glob)?;
    for paths in names {
        work.spend(class_work(&need.glob, paths.as_slice()))?;
        all.push(SearchedNames::of_names(alloc, &need.glob, &mut search, paths, work)?)?;
    }
    Ok(all)
}

// What it takes to have a glob held against the names of a class, beside what its pattern takes.
fn class_work(glob: &Glob, names: &[MetricPath]) -> u64 {
    let count = run_len(names, glob.literal_front()) as u64;
    CLASS_WORK.saturating_add(NAME_WORK.saturating_mul(count))
}

// How many names begin with these bytes.
fn run_len(names: &[MetricPath], front: &[u8]) -> usize {
    let below = names.partition_point(|name| name.text().cmp(front).is_lt());
    match names.get(below..) {
        Some(rest) => rest.partition_point(|name| name.text().starts_with(front)),
        None => 0,
    }
}

/// The needs of a question over these names, which are those of each class, or none. No lock is held.
pub(crate) fn want_all<'a>(
    alloc: Global,
    needs: &'a [Need],
    names: &'a [Vec<MetricPath>],
) -> Result<Vec<Wanted<'a>>, AllocError>
    requires order { AreInOrder names.now }
    ensures needs { IfOk result (λ all. needs_of all.items ≡ needs.now) }
    ensures names { IfOk result (λ all. All (λ w. w.names ≡ lists_of names.now) all.items) }
{
    let mut work = Work::of_question();
    let mut all = Vec::with_capacity(alloc, needs.len())?;
    for need in needs {
        all.push(Wanted::new(alloc, need, names, &mut work)?)?;
    }
    Ok(all)
}
