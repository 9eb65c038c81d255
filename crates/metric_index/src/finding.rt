//! The search over the known paths.
ghost use Rattle.std.specs.Prelude.{◌≡◌, ◌≢◌, All, IfOk, map};
ghost use Rattle.std.specs.Cmp.Lexicographic.{slice_cmp};
ghost use Rattle.std.specs.List.Sorted.{IsStrictlySortedBy};
ghost use Rattle.std.specs.Ordering.{nat_cmp};
ghost use Rattle.std.specs.declared.cmp.Ordering.TheVariants.{Less};
ghost use Rattle.path_glob.specs.Laws.{literal_front};
ghost use Rattle.metric_index.specs.Found.{IsFitted, Picks, seen};
ghost use Rattle.metric_index.specs.Index.{paths_of};

use crate::hit::Hit;
use crate::verdicts::Verdicts;
use metric_path::MetricPath;
use path_glob::{Glob, texts_with_one_front_stand_together};
use std::alloc::{AllocError, Global};
use std::collections::btree_map::Range;

/// The entries of a range that a glob fits, of which something is known beforehand. The walk ends at the first path that does not begin with the
/// glob's literal front.
pub(crate) fn fitted<'a, V: Drop>(
    alloc: Global,
    entries: Range<'a, MetricPath, V>,
    glob: &Glob,
    known: &Verdicts<'_>,
) -> Result<Vec<Hit<'a, V>>, AllocError>
    requires same { known.now ≡ glob.now }
    requires rising { IsStrictlySortedBy (slice_cmp nat_cmp) (paths_of entries) }
    requires from { All (λ path. slice_cmp nat_cmp path (literal_front glob.now.text) ≢ Less)
        (paths_of entries) }
    ensures { IfOk result (λ hits. Picks (IsFitted glob.now) entries.entry (map seen hits.items)) }
{
    let front = glob.literal_front();
    let mut hits = Vec::new(alloc);
    let mut cursor = 0;
    // None behind a path that does not begin with the front begins with it.
    texts_with_one_front_stand_together();
    for (path, entry) in entries {
        if !path.text().starts_with(front) {
            break;
        }
        if known.fits(&mut cursor, path) {
            hits.push(Hit { path, entry })?;
        }
    }
    Ok(hits)
}
