//! The function that replaces matches of a pattern in names.
ghost use Rattle.std.specs.Prelude.{◌≡◌, IfOk, map, string_bytes};
ghost use Rattle.name_pattern.specs.Substitution.{substituted};
ghost use Rattle.series_pick.specs.Chosen.{renamed_by_pattern};

use crate::matching::begun;
use crate::work::{self, Searches};
use name_pattern::{MatchCount, PatternText, Search};
use series_set::{Allowance, SeriesSet};
use std::alloc::{AllocError, Global};

/// The series, each under its name in which the matches of a pattern are replaced.
pub(crate) fn substituted(
    alloc: Global,
    set: SeriesSet,
    pattern: &PatternText,
    replacement: &str,
    room: &mut Allowance,
) -> Result<SeriesSet, AllocError>
    ensures { IfOk result (λ named.
        named ≡ map (renamed_by_pattern pattern.now replacement.now) set) }
{
    let mut searches = begun(alloc, pattern, room)?;
    let ready = pattern.pattern(alloc)?;
    let mut search = ready.search(alloc)?;
    let series = set.into_vec();
    let mut named = Vec::with_capacity(alloc, series.len())?;
    for one in series {
        bear_growth(one.name().len(), replacement.len(), room)?;
        let name = replaced(
            alloc,
            &mut search,
            one.name(),
            replacement,
            &mut searches,
            room,
        )?;
        room.take_name(name.len(), one.name().len())?;
        named.push(one.renamed(name))?;
    }
    Ok(SeriesSet::from_vec(named))
}

// A name in which the matches are replaced. The work of a search and a replacement is taken for each match, and once more, since
// the last search finds none.
fn replaced(
    alloc: Global,
    search: &mut Search<'_>,
    name: &str,
    replacement: &str,
    searches: &mut Searches,
    room: &mut Allowance,
) -> Result<String, AllocError>
    ensures value { IfOk result (λ new.
        string_bytes new ≡ substituted search.old replacement.now name.now) }
    ensures same { search.new ≡ search.old }
{
    let each = searches
        .of_name(name.len())
        .saturating_add(work::of_replacement(replacement.len()));
    room.spend(each)?;
    let most = room.work_left() / each.max(1);
    let matches = MatchCount::new(most);
    let new = search.substituted(alloc, name, replacement, &matches)?;
    let count = most.saturating_sub(matches.left());
    searches.note(name.len(), count.saturating_add(1));
    room.spend(count.saturating_mul(each))?;
    Ok(new)
}

// Whether there is room for whatever a name becomes. It has a match more than bytes at most, and for each the replacement, in which a
// group of two bytes stands for no more than the match.
fn bear_growth(name: usize, replacement: usize, room: &Allowance) -> Result<(), AllocError> {
    let matches = (name as u64).saturating_add(1);
    let each = (replacement as u64).saturating_add(1);
    if matches.saturating_mul(each) > room.names_left() {
        return Err(AllocError);
    }
    Ok(())
}
