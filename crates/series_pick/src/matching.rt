//! The functions that choose series by a pattern in their names.
ghost use Rattle.std.specs.Prelude.{◌≡◌, IfOk, filter};
ghost use Rattle.series_pick.specs.Chosen.{is_kept, stays};

use crate::work::{self, Searches};
use name_pattern::PatternText;
use series_set::{Allowance, SeriesSet};
use std::alloc::{AllocError, Global};

/// Which series stay.
#[derive(Clone, Copy, PartialEq, Eq)]
pub(crate) enum Keep {
    /// Those whose name has a match.
    Matching,
    /// Those whose name has none.
    Others,
}

/// The series whose names have, or have not, a match of a pattern.
pub(crate) fn kept(
    alloc: Global,
    set: SeriesSet,
    pattern: &PatternText,
    keep: Keep,
    room: &mut Allowance,
) -> Result<SeriesSet, AllocError>
    ensures { IfOk result (λ kept. kept ≡ filter (is_kept keep pattern.now) set) }
{
    let mut searches = begun(alloc, pattern, room)?;
    let ready = pattern.pattern(alloc)?;
    let mut search = ready.search(alloc)?;
    let mut kept = Vec::new(alloc);
    for one in set.into_vec() {
        take_search(&mut searches, one.name(), room)?;
        if is_kept(keep, search.is_found(one.name())) {
            kept.push(one)?;
        }
    }
    Ok(SeriesSet::from_vec(kept))
}

/// The searches for a pattern, before the first. The work of making it ready is taken.
pub(crate) fn begun(
    alloc: Global,
    pattern: &PatternText,
    room: &mut Allowance,
) -> Result<Searches, AllocError> {
    room.spend(work::of_text(pattern))?;
    let weight = pattern.weight(alloc)?;
    room.spend(work::of_ready(weight))?;
    Ok(Searches::new(weight))
}

// Takes the work of the search of a name.
fn take_search(
    searches: &mut Searches,
    name: &str,
    room: &mut Allowance,
) -> Result<(), AllocError> {
    room.spend(searches.of_name(name.len()))?;
    searches.note(name.len(), 1);
    Ok(())
}

fn is_kept(keep: Keep, is_found: bool) -> bool
    ensures { result ≡ stays keep is_found }
{
    match keep {
        Keep::Matching => return is_found,
        Keep::Others => return !is_found,
    }
}
