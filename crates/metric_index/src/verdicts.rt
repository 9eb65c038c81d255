//! A glob, and what is known of it beforehand.
ghost use Rattle.std.specs.Prelude.{◌≡◌, IfOk};
ghost use Rattle.metric_index.specs.Verdicts.{AreVerdicts};

use metric_path::MetricPath;
use path_glob::{Glob, GlobSearch, Work};
use std::alloc::{AllocError, Global};
use std::marker::Model;

/// A glob, and of some paths whether it fits them: a search does not hold it against these again. So the work
/// is done before the locks are taken under which the search has to run.
#[derive(Drop)]
pub struct Verdicts<'a> {
    glob: &'a Glob,
    paths: &'a [MetricPath],
    fits: Vec<bool>,
}

impl<'a> Model for Verdicts<'a> {
    ghost use Rattle.path_glob.specs.Faults.{Said};
    ghost use Rattle.metric_index.specs.Verdicts.{AreVerdicts};

    ghost Value = { Said };

    ghost view = { λ v. v.glob.now };

    ghost invariant = { λ v. AreVerdicts v.glob.now v.paths.now v.fits.items };
}

impl<'a> Verdicts<'a> {
    ghost use Rattle.std.specs.Prelude.{◌≡◌, ◌↔◌, IfOk, IfSome, IsTrue};
    ghost use Rattle.metric_index.specs.Found.{IsFitted};

    /// A glob of which nothing is known.
    pub fn none(alloc: Global, glob: &'a Glob) -> Verdicts<'a>
        ensures { result ≡ glob.now }
    {
        Verdicts {
            glob,
            paths: &[],
            fits: Vec::new(alloc),
        }
    }

    /// Holds a glob against those of these paths, which are in byte order, that begin with its literal front. The
    /// search is one of this glob, which may have been held against others before: what it remembers of their
    /// nodes is not tried again.
    ///
    /// # Errors
    ///
    /// There is no memory, or more work than may be done.
    pub fn of_paths(
        alloc: Global,
        glob: &'a Glob,
        search: &mut GlobSearch<'_>,
        paths: &'a [MetricPath],
        work: &mut Work,
    ) -> Result<Verdicts<'a>, AllocError>
        requires same { search.old ≡ glob.now }
        ensures glob { IfOk result (λ verdicts. verdicts ≡ glob.now) }
        ensures search { search.new ≡ search.old }
    {
        let paths = run_of(paths, glob.literal_front());
        let fits = fits_of(alloc, search, paths, work)?;
        Ok(Verdicts { glob, paths, fits })
    }

    /// The glob.
    pub fn glob(&self) -> &Glob
        ensures { result.now ≡ self.now }
    {
        self.glob
    }

    /// Whether the glob fits a path. The cursor stands at the first of the known paths that may be this one, and
    /// goes on over it and over those that are below: for paths in byte order each known one is passed once.
    pub(crate) fn fits(&self, cursor: &mut usize, path: &MetricPath) -> bool
        ensures { IsTrue result ↔ IsFitted self.now path.now }
    {
        *cursor = self.place_from(*cursor, path);
        self.fits_next(cursor, path)
    }

    /// The same where the known paths come in turn: the cursor stands at the next of them.
    pub(crate) fn fits_next(&self, cursor: &mut usize, path: &MetricPath) -> bool
        ensures { IsTrue result ↔ IsFitted self.now path.now }
    {
        match self.known_at(*cursor, path) {
            Some(fits) => {
                *cursor = cursor.saturating_add(1);
                fits
            }
            None => self.glob.matches(path),
        }
    }

    // The place of the first known path from a place on that is not below this one.
    fn place_from(&self, from: usize, path: &MetricPath) -> usize {
        let Some(rest) = self.paths.get(from..) else {
            return from;
        };
        match rest.iter().position(|known| known >= path) {
            Some(more) => from + more,
            None => self.paths.len(),
        }
    }

    // Whether the glob fits a path, if it is the known one at a place.
    fn known_at(&self, at: usize, path: &MetricPath) -> Option<bool>
        ensures { IfSome result (λ fits. IsTrue fits ↔ IsFitted self.now path.now) }
    {
        if at < self.paths.len() && at < self.fits.len() && self.paths[at] == *path {
            return Some(self.fits[at]);
        }
        None
    }
}

// The paths that begin with these bytes.
fn run_of<'a>(paths: &'a [MetricPath], front: &[u8]) -> &'a [MetricPath] {
    let first = paths.partition_point(|path| path.text().cmp(front).is_lt());
    let rest = &paths[first..];
    let count = rest.partition_point(|path| path.text().starts_with(front));
    &rest[..count]
}

// Whether the glob of a search fits each of these paths.
fn fits_of(
    alloc: Global,
    search: &mut GlobSearch<'_>,
    paths: &[MetricPath],
    work: &mut Work,
) -> Result<Vec<bool>, AllocError>
    ensures fits { IfOk result (λ fits. AreVerdicts search.old paths.now fits.items) }
    ensures search { search.new ≡ search.old }
{
    let mut fits = Vec::with_capacity(alloc, paths.len())?;
    for path in paths {
        fits.push(search.matches(work, path)?)?;
    }
    Ok(fits)
}
