//! The known names, as a glob was held against them.
ghost use Rattle.std.specs.Prelude.{◌≡◌, IfOk, map};
ghost use Rattle.std.specs.Cmp.Lexicographic.{slice_cmp};
ghost use Rattle.std.specs.List.Sorted.{IsStrictlySortedBy};
ghost use Rattle.std.specs.Ordering.{nat_cmp};
ghost use Rattle.metric_index.specs.Found.{IsFitted};
ghost use Rattle.metric_index.specs.Searched.{PicksNames};

use crate::verdicts::Verdicts;
use metric_path::MetricPath;
use path_glob::{Glob, GlobSearch, Work, run_of};
use std::alloc::{AllocError, Global};
use std::marker::Model;

// How many names are walked in the time that it takes to look one up.
const WALKED_FOR_ONE: usize = 8;

/// A glob that was held against all names that were known, and those of them that it fits. Where as many are known later they are
/// the same ones, since none is forgotten, and a search looks up these alone.
#[derive(Drop)]
pub struct SearchedNames<'a> {
    verdicts: Verdicts<'a>,
    names: &'a [MetricPath],
    fitting: Vec<&'a MetricPath>,
}

impl<'a> Model for SearchedNames<'a> {
    ghost use Rattle.std.specs.Prelude.{map};
    ghost use Rattle.metric_index.specs.Searched.{SearchedValue, Sifts};

    ghost Value = { SearchedValue };

    ghost view = { λ s. record { glob = s.verdicts; names = s.names.now } };

    ghost invariant = { λ s. Sifts s.verdicts s.names.now (map (λ path. path.now) s.fitting.items) };
}

impl<'a> SearchedNames<'a> {
    ghost use Rattle.std.specs.Prelude.{◌≡◌, [], IfOk, length, map};
    ghost use Rattle.std.specs.Cmp.Lexicographic.{slice_cmp};
    ghost use Rattle.std.specs.List.Sorted.{IsStrictlySortedBy};
    ghost use Rattle.std.specs.Ordering.{nat_cmp};
    ghost use Rattle.metric_index.specs.Searched.{Sifts};

    /// A glob that was held against no name.
    pub fn none(alloc: Global, glob: &'a Glob) -> SearchedNames<'a>
        ensures { result ≡ record { glob = glob.now; names = [] } }
    {
        SearchedNames {
            verdicts: Verdicts::none(alloc, glob),
            names: &[],
            fitting: Vec::new(alloc),
        }
    }

    /// Holds a glob against these names, which are in byte order, as [`Verdicts::of_paths`] does.
    ///
    /// # Errors
    ///
    /// There is no memory, or more work than may be done.
    pub fn of_names(
        alloc: Global,
        glob: &'a Glob,
        search: &mut GlobSearch<'_>,
        names: &'a [MetricPath],
        work: &mut Work,
    ) -> Result<SearchedNames<'a>, AllocError>
        requires same { search.old ≡ glob.now }
        requires rising { IsStrictlySortedBy (slice_cmp nat_cmp) names.now }
        ensures searched { IfOk result
            (λ searched. searched ≡ record { glob = glob.now; names = names.now }) }
        ensures search { search.new ≡ search.old }
    {
        let verdicts = Verdicts::of_paths(alloc, glob, search, names, work)?;
        let fitting = fitting_of(alloc, &verdicts, names)?;
        Ok(SearchedNames {
            verdicts,
            names,
            fitting,
        })
    }

    /// The glob, and what is known of it beforehand.
    pub fn verdicts(&self) -> &Verdicts<'a>
        ensures { result.now ≡ self.now.glob }
    {
        &self.verdicts
    }

    /// How many names it was held against.
    pub(crate) fn count(&self) -> usize
        ensures { result ≡ length self.now.names }
    {
        self.names.len()
    }

    /// Whether the glob fits so many of the names that to walk all takes less time than to look these up.
    pub(crate) fn fits_many(&self) -> bool {
        self.fitting.len() > self.names.len() / WALKED_FOR_ONE
    }

    /// Those of the names that the glob fits, in byte order.
    pub(crate) fn fitting(&self) -> &[&'a MetricPath]
        ensures { Sifts self.now.glob self.now.names (map (λ path. path.now) result.now) }
    {
        self.fitting.as_slice()
    }
}

// Those of these names that the glob fits. The others than those that begin with its literal front are not looked at.
fn fitting_of<'a>(
    alloc: Global,
    verdicts: &Verdicts<'_>,
    names: &'a [MetricPath],
) -> Result<Vec<&'a MetricPath>, AllocError>
    requires { IsStrictlySortedBy (slice_cmp nat_cmp) names.now }
    ensures { IfOk result (λ fitting. PicksNames (IsFitted verdicts.now) names.now
        (map (λ path. path.now) fitting.items)) }
{
    let front = verdicts.glob().literal_front();
    let fitting = fitting_in(alloc, verdicts, run_of(names, front))?;
    Ok(fitting)
}

// The same, where each is looked at.
fn fitting_in<'a>(
    alloc: Global,
    verdicts: &Verdicts<'_>,
    names: &'a [MetricPath],
) -> Result<Vec<&'a MetricPath>, AllocError>
    ensures { IfOk result (λ fitting. PicksNames (IsFitted verdicts.now) names.now
        (map (λ path. path.now) fitting.items)) }
{
    let front = verdicts.glob().literal_front();
    let mut fitting = Vec::new(alloc);
    let mut cursor = 0;
    for path in names {
        if path.text().starts_with(front) && verdicts.fits_next(&mut cursor, path) {
            fitting.push(path)?;
        }
    }
    Ok(fitting)
}
