//! The functions by kind, each with its arguments.
use crate::words::{Name, SignedNodes};
use fixed_num::Milli;
use name_pattern::PatternText;

/// Which series are left of a list, in which order and under which names.
///
/// A measure is over the known values, those that are not missing: the greatest, the least, the last, their average, rounded down, or their
/// exact total, which may have more than 64 bits. A series without known values has none. Functions that sort leave series with the same
/// measure as they stood, and put those without one last.
#[derive(Drop)]
pub enum Choose {
    /// This name for each series: `alias(a.b,'Load')`.
    Alias {
        name: Name,
    },
    /// The nodes of its path with these numbers, joined by dots, for each series: `aliasByNode(a.*.c,1,-1)`. The first node is 0, and a
    /// negative number counts from the end, where -1 is the last. Numbers that the path lacks are passed over.
    AliasByNode {
        nodes: SignedNodes,
    },
    /// The last node of its path for each series: `aliasByMetric(a.b)`.
    AliasByMetric,
    /// The first so many series: `limit(a.*,10)`.
    Limit {
        most: u32,
    },
    /// The series in order of their names, by bytes: `sortByName(a.*)`.
    SortByName,
    /// The series with the greatest maximum first: `sortByMaxima(a.*)`.
    SortByMaxima,
    /// The series with the greatest total first: `sortByTotal(a.*)`.
    SortByTotal,
    /// The series with the least minimum first: `sortByMinima(a.*)`.
    SortByMinima,
    /// So many series with the greatest maxima, the greatest first: `highestMax(a.*,5)`.
    HighestMax {
        most: u32,
    },
    /// So many series with the greatest last known values: `highestCurrent(a.*,5)`.
    HighestCurrent {
        most: u32,
    },
    /// So many series with the greatest averages: `highestAverage(a.*,5)`.
    HighestAverage {
        most: u32,
    },
    /// So many series with the least last known values, the least first: `lowestCurrent(a.*,5)`.
    LowestCurrent {
        most: u32,
    },
    /// So many series with the least averages: `lowestAverage(a.*,5)`.
    LowestAverage {
        most: u32,
    },
    /// The series with a maximum above this value: `maximumAbove(a.*,100)`.
    MaximumAbove {
        bound: Milli,
    },
    /// The series with a minimum above this value: `minimumAbove(a.*,100)`.
    MinimumAbove {
        bound: Milli,
    },
    /// The series with a last known value above this value: `currentAbove(a.*,100)`.
    CurrentAbove {
        bound: Milli,
    },
    /// The series with an average above this value: `averageAbove(a.*,100)`.
    AverageAbove {
        bound: Milli,
    },
    /// The series with a maximum of at most this value: `maximumBelow(a.*,100)`.
    MaximumBelow {
        bound: Milli,
    },
    /// The series with a minimum of at most this value: `minimumBelow(a.*,100)`.
    MinimumBelow {
        bound: Milli,
    },
    /// The series with a last known value of at most this value: `currentBelow(a.*,100)`.
    CurrentBelow {
        bound: Milli,
    },
    /// The series with an average of at most this value: `averageBelow(a.*,100)`.
    AverageBelow {
        bound: Milli,
    },
    /// The series with a known value: `removeEmptySeries(a.*)`.
    RemoveEmptySeries,
    /// The series whose name has a match of a pattern: `grep(a.*,'cpu[0-3]')`.
    Grep {
        pattern: PatternText,
    },
    /// The series whose name has none: `exclude(a.*,'idle$')`.
    Exclude {
        pattern: PatternText,
    },
    /// Each series under its name in which each match of a pattern is replaced: `aliasSub(a.*,'^a[.]b(\d)','b \1')`. In the replacement
    /// `\1` to `\9` are what the groups matched, nothing where the pattern lacks the group or it took no part.
    AliasSub {
        pattern: PatternText,
        replacement: Name,
    },
}
