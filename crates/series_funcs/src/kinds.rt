//! The functions by kind, each with its arguments.
use crate::node_numbers::NodeNumbers;
use fixed_num::Milli;

/// What combined series have at each moment of their common grid. Known values are those that are not missing; sums, differences and
/// products are exact, and the value is missing where none is known or the result does not fit.
#[derive(Clone, Copy, Debug, PartialEq, Eq)]
pub enum Combine {
    /// The sum of the known values: `sumSeries(a.*)`.
    Sum,
    /// The sum of the known values over their number, rounded down: `averageSeries(a.*)`.
    Average,
    /// The least known value: `minSeries(a.*)`.
    Min,
    /// The greatest known value: `maxSeries(a.*)`.
    Max,
    /// The greatest known value less the least: `rangeOfSeries(a.*)`.
    Range,
    /// The first known value less each other one: `diffSeries(total,a.*)`.
    Diff,
    /// The product from the first series on, rounded down after each factor, where all values are known: `multiplySeries(a.*)`.
    Multiply,
}

/// What each bucket of a summary has of its known values. It misses a value where none is known, or the exact result does not fit.
#[derive(Clone, Copy, Debug, PartialEq, Eq)]
pub enum Gather {
    /// The sum: `summarize(a.b,'1h')`, or `summarize(a.b,'1h','sum')`.
    Sum,
    /// The sum over their number, rounded down: `summarize(a.b,'1h','avg')`.
    Average,
    /// The greatest: `summarize(a.b,'1h','max')`.
    Max,
    /// The least: `summarize(a.b,'1h','min')`.
    Min,
    /// The last: `summarize(a.b,'1h','last')`.
    Last,
}

/// What is made of each series by itself. Results are exact; quotients are rounded down, towards the lesser number; and a value is missing
/// where the result does not fit. A missing value stays missing where nothing else is said.
#[derive(Clone, Copy, Debug, PartialEq, Eq)]
pub enum Shape {
    /// Each value's magnitude: `absolute(a.b)`.
    Absolute,
    /// Each value times a factor in billionths: `scale(a.b,0.001)`.
    Scale { billionths: i64 },
    /// Each value and this one: `offset(a.b,-10)`.
    Offset { by: Milli },
    /// Each value less the least known: `offsetToZero(a.b)`.
    OffsetToZero,
    /// Each value less the one before, missing at the first and where either is missing: `derivative(a.b)`.
    Derivative,
    /// The derivative, missing where it is below 0: `nonNegativeDerivative(a.b)`.
    NonNegativeDerivative,
    /// That over the seconds from one value to the next: `perSecond(a.b)`.
    PerSecond,
    /// The sum of the known values up to each known one: `integral(a.b)`.
    Integral,
    /// The value so many places before, missing at the first so many: `delay(a.b,3)`.
    Delay { places: u32 },
    /// In each gap of at most so many values, or in any, the known value before it: `keepLastValue(a.b,5)`. A gap at the beginning stays,
    /// and so does the whole of a longer one.
    KeepLastValue { most: Option<u32> },
    /// This value for each missing one: `transformNull(a.b,0)`.
    TransformNull { value: Milli },
    /// 1 for each known value and 0 for each missing one: `isNonNull(a.b)`.
    IsNonNull,
    /// 1 where a value is known and differs from the last known before it, else 0: `changed(a.b)`.
    Changed,
    /// The values that are not above this one: `removeAboveValue(a.b,100)`.
    RemoveAboveValue { most: Milli },
    /// The values that are not below this one: `removeBelowValue(a.b,0)`.
    RemoveBelowValue { least: Milli },
    /// Each value times so many seconds over those of a step: `scaleToSeconds(a.b,60)`.
    ScaleToSeconds { seconds: u32 },
    /// Buckets of so many seconds, from 1 to 31,536,000, that begin at multiples of them: `summarize(a.b,'1h')`.
    Summarize { step: u32, gather: Gather },
    /// A series that was asked for at a moment by so many seconds earlier, where it lies in the past, or later, at the moments asked
    /// about: `timeShift(a.b,'1d')`. One that would begin before 1970 is left out.
    TimeShift { past: bool, seconds: u64 },
}

/// By which part of their paths series are grouped, and what those of a group have together.
#[derive(Drop)]
pub enum Regroup {
    /// By the node of this number, from 0 on, or below 0 from the end; series that lack it are one group, whose text is empty:
    /// `groupByNode(a.*,1,'sum')`.
    GroupByNode { node: i32, combine: Combine },
    /// By the path without the nodes of these numbers, summed: `sumSeriesWithWildcards(a.*,1)`.
    SumSeriesWithWildcards { nodes: NodeNumbers },
    /// By the path without the nodes of these numbers, averaged: `averageSeriesWithWildcards(a.*,1)`.
    AverageSeriesWithWildcards { nodes: NodeNumbers },
}
