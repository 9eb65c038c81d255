//! All functions that choose and name series.
ghost use Rattle.std.specs.Prelude.{IfOk};
ghost use Rattle.series_pick.specs.Chosen.{Chooses};

use crate::filtering::{beside, first_of, with_known};
use crate::kinds::Choose;
use crate::matching::{Keep, kept};
use crate::measures::{First, Measure, Side};
use crate::naming::{all_named, named_by_nodes};
use crate::sorting::{first_sorted, sorted, sorted_by_name};
use crate::substitution::substituted;
use crate::work;
use series_set::{Allowance, SeriesSet};
use std::alloc::{AllocError, Global};

/// What the function leaves of the series, in its order and under its names. Values, moments and paths stay. Longer names than there is room
/// for are want of memory, and so is more work than may be done.
pub fn choose(
    alloc: Global,
    kind: &Choose,
    set: SeriesSet,
    room: &mut Allowance,
) -> Result<SeriesSet, AllocError>
    ensures { IfOk result (Chooses kind.now set) }
{
    use First::{Greatest, Least};
    use Measure::{Average, Current, Max, Min, Total};
    use Side::{Above, Below};

    room.spend(work::of_measures(kind, &set))?;
    match kind {
        Choose::Alias { name } => all_named(set, name.text(), room),
        Choose::AliasByNode { nodes } => named_by_nodes(alloc, set, nodes.as_slice(), room),
        Choose::AliasByMetric => named_by_nodes(alloc, set, &[-1], room),
        Choose::Limit { most } => Ok(first_of(set, *most)),
        Choose::SortByName => sorted_by_name(set),
        Choose::SortByMaxima => sorted(set, Max, Greatest),
        Choose::SortByTotal => sorted(set, Total, Greatest),
        Choose::SortByMinima => sorted(set, Min, Least),
        Choose::HighestMax { most } => first_sorted(set, Max, Greatest, *most),
        Choose::HighestCurrent { most } => first_sorted(set, Current, Greatest, *most),
        Choose::HighestAverage { most } => first_sorted(set, Average, Greatest, *most),
        Choose::LowestCurrent { most } => first_sorted(set, Current, Least, *most),
        Choose::LowestAverage { most } => first_sorted(set, Average, Least, *most),
        Choose::MaximumAbove { bound } => Ok(beside(set, Max, Above, *bound)),
        Choose::MinimumAbove { bound } => Ok(beside(set, Min, Above, *bound)),
        Choose::CurrentAbove { bound } => Ok(beside(set, Current, Above, *bound)),
        Choose::AverageAbove { bound } => Ok(beside(set, Average, Above, *bound)),
        Choose::MaximumBelow { bound } => Ok(beside(set, Max, Below, *bound)),
        Choose::MinimumBelow { bound } => Ok(beside(set, Min, Below, *bound)),
        Choose::CurrentBelow { bound } => Ok(beside(set, Current, Below, *bound)),
        Choose::AverageBelow { bound } => Ok(beside(set, Average, Below, *bound)),
        Choose::RemoveEmptySeries => Ok(with_known(set)),
        Choose::Grep { pattern } => kept(alloc, set, pattern, Keep::Matching, room),
        Choose::Exclude { pattern } => kept(alloc, set, pattern, Keep::Others, room),
        Choose::AliasSub {
            pattern,
            replacement,
        } => substituted(alloc, set, pattern, replacement.text().as_str(), room),
    }
}
