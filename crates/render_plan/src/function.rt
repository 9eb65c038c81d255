//! The functions of the render language: their names, and the arguments that they take.
ghost use Rattle.std.specs.Prelude.{◌≡◌, map, option_map};
ghost use Rattle.std.specs.List.{find};
ghost use Rattle.render_plan.specs.Functions.{has_name, row_of, row_seen};

use crate::form::is_word;
use series_funcs::Combine;

/// A kind of arguments, with the range of their values.
#[derive(Clone, Copy, Debug, PartialEq, Eq)]
pub(crate) enum Kind {
    /// A call or a path.
    Series,
    /// Digits of a number from 0 to 1,000,000.
    Count,
    /// A decimal that is a value.
    Value,
    /// A decimal whose billionths fit 64 bits.
    Factor,
    /// A span of at least a second, in quotes.
    Span,
    /// A span from 1 to 31,536,000 seconds, in quotes.
    Step,
    /// `sum`, `avg`, `max`, `min` or `last`, in quotes.
    Gather,
    /// The flag `false`.
    False,
    /// The number of a node, from -64 to 64: digits, and a minus before them or none.
    Node,
    /// The number of a node that is not below 0.
    Place,
    /// `sum`, `average`, `avg`, `max` or `min`, in quotes.
    Combine,
    /// A text in quotes.
    Text,
}

/// How often an argument of a kind stands.
#[derive(Clone, Copy, Debug, PartialEq, Eq)]
pub(crate) enum Takes {
    /// Once.
    One(Kind),
    /// Once, or it is left out, and then what follows too.
    Maybe(Kind),
    /// Any number of times, up to the end.
    Any(Kind),
}

/// What a function makes of its series. What stands in its further arguments is read with those of its call.
#[derive(Clone, Copy, Debug, PartialEq, Eq)]
pub(crate) enum Function {
    Combine(Combine),
    Divide,
    Group,
    Fallback,
    Shape(Shaping),
    Choose(Choosing),
    Regroup(Regrouping),
}

/// What is made of each series by itself.
#[derive(Clone, Copy, Debug, PartialEq, Eq)]
pub(crate) enum Shaping {
    Absolute,
    OffsetToZero,
    Derivative,
    NonNegativeDerivative,
    PerSecond,
    Integral,
    IsNonNull,
    Changed,
    Scale,
    Offset,
    Delay,
    KeepLastValue,
    TransformNull,
    RemoveAboveValue,
    RemoveBelowValue,
    ScaleToSeconds,
    Summarize,
    TimeShift,
}

/// Which series are left, in which order and under which names.
#[derive(Clone, Copy, Debug, PartialEq, Eq)]
pub(crate) enum Choosing {
    Plain(Plain),
    First(First),
    Beside(Beside),
    Match(Match),
    Alias,
    AliasByNode,
    AliasSub,
}

/// Choices that have no arguments.
#[derive(Clone, Copy, Debug, PartialEq, Eq)]
pub(crate) enum Plain {
    AliasByMetric,
    SortByName,
    SortByMaxima,
    SortByTotal,
    SortByMinima,
    RemoveEmptySeries,
}

/// Choices of so many series.
#[derive(Clone, Copy, Debug, PartialEq, Eq)]
pub(crate) enum First {
    Limit,
    HighestMax,
    HighestCurrent,
    HighestAverage,
    LowestCurrent,
    LowestAverage,
}

/// Choices of the series on one side of a value.
#[derive(Clone, Copy, Debug, PartialEq, Eq)]
pub(crate) enum Beside {
    MaximumAbove,
    MinimumAbove,
    CurrentAbove,
    AverageAbove,
    MaximumBelow,
    MinimumBelow,
    CurrentBelow,
    AverageBelow,
}

/// Choices by a pattern.
#[derive(Clone, Copy, Debug, PartialEq, Eq)]
pub(crate) enum Match {
    Grep,
    Exclude,
}

/// By what series are grouped.
#[derive(Clone, Copy, Debug, PartialEq, Eq)]
pub(crate) enum Regrouping {
    GroupByNode,
    SumSeriesWithWildcards,
    AverageSeriesWithWildcards,
}

/// A row of the table: a function with its name, the other name that it may be called by, and its arguments in order.
#[derive(Clone, Copy)]
pub(crate) struct Line {
    pub(crate) name: &'static str,
    pub(crate) alias: Option<&'static str>,
    pub(crate) function: Function,
    pub(crate) takes: &'static [Takes],
}

#[rattlefmt::skip]
pub(crate) static FUNCTIONS: [Line; 56] = [
    // Functions that combine all series of their arguments to one.
    Line { name: "sumSeries", alias: Some("sum"), function: Function::Combine(Combine::Sum), takes: &[Takes::One(Kind::Series), Takes::Any(Kind::Series)] },
    Line { name: "averageSeries", alias: Some("avg"), function: Function::Combine(Combine::Average), takes: &[Takes::One(Kind::Series), Takes::Any(Kind::Series)] },
    Line { name: "minSeries", alias: None, function: Function::Combine(Combine::Min), takes: &[Takes::One(Kind::Series), Takes::Any(Kind::Series)] },
    Line { name: "maxSeries", alias: None, function: Function::Combine(Combine::Max), takes: &[Takes::One(Kind::Series), Takes::Any(Kind::Series)] },
    Line { name: "rangeOfSeries", alias: None, function: Function::Combine(Combine::Range), takes: &[Takes::One(Kind::Series), Takes::Any(Kind::Series)] },
    Line { name: "diffSeries", alias: None, function: Function::Combine(Combine::Diff), takes: &[Takes::One(Kind::Series), Takes::Any(Kind::Series)] },
    Line { name: "multiplySeries", alias: None, function: Function::Combine(Combine::Multiply), takes: &[Takes::One(Kind::Series), Takes::Any(Kind::Series)] },
    Line { name: "divideSeries", alias: None, function: Function::Divide, takes: &[Takes::One(Kind::Series), Takes::One(Kind::Series)] },
    // Functions that choose among the series of several arguments.
    Line { name: "group", alias: None, function: Function::Group, takes: &[Takes::One(Kind::Series), Takes::Any(Kind::Series)] },
    Line { name: "fallbackSeries", alias: None, function: Function::Fallback, takes: &[Takes::One(Kind::Series), Takes::One(Kind::Series)] },
    // Functions of each series by itself.
    Line { name: "absolute", alias: None, function: Function::Shape(Shaping::Absolute), takes: &[Takes::One(Kind::Series)] },
    Line { name: "scale", alias: None, function: Function::Shape(Shaping::Scale), takes: &[Takes::One(Kind::Series), Takes::One(Kind::Factor)] },
    Line { name: "offset", alias: None, function: Function::Shape(Shaping::Offset), takes: &[Takes::One(Kind::Series), Takes::One(Kind::Value)] },
    Line { name: "offsetToZero", alias: None, function: Function::Shape(Shaping::OffsetToZero), takes: &[Takes::One(Kind::Series)] },
    Line { name: "derivative", alias: None, function: Function::Shape(Shaping::Derivative), takes: &[Takes::One(Kind::Series)] },
    Line { name: "nonNegativeDerivative", alias: None, function: Function::Shape(Shaping::NonNegativeDerivative), takes: &[Takes::One(Kind::Series)] },
    Line { name: "perSecond", alias: None, function: Function::Shape(Shaping::PerSecond), takes: &[Takes::One(Kind::Series)] },
    Line { name: "integral", alias: None, function: Function::Shape(Shaping::Integral), takes: &[Takes::One(Kind::Series)] },
    Line { name: "delay", alias: None, function: Function::Shape(Shaping::Delay), takes: &[Takes::One(Kind::Series), Takes::One(Kind::Count)] },
    Line { name: "keepLastValue", alias: None, function: Function::Shape(Shaping::KeepLastValue), takes: &[Takes::One(Kind::Series), Takes::Maybe(Kind::Count)] },
    Line { name: "transformNull", alias: None, function: Function::Shape(Shaping::TransformNull), takes: &[Takes::One(Kind::Series), Takes::Maybe(Kind::Value)] },
    Line { name: "isNonNull", alias: None, function: Function::Shape(Shaping::IsNonNull), takes: &[Takes::One(Kind::Series)] },
    Line { name: "changed", alias: None, function: Function::Shape(Shaping::Changed), takes: &[Takes::One(Kind::Series)] },
    Line { name: "removeAboveValue", alias: None, function: Function::Shape(Shaping::RemoveAboveValue), takes: &[Takes::One(Kind::Series), Takes::One(Kind::Value)] },
    Line { name: "removeBelowValue", alias: None, function: Function::Shape(Shaping::RemoveBelowValue), takes: &[Takes::One(Kind::Series), Takes::One(Kind::Value)] },
    Line { name: "scaleToSeconds", alias: None, function: Function::Shape(Shaping::ScaleToSeconds), takes: &[Takes::One(Kind::Series), Takes::One(Kind::Count)] },
    Line { name: "summarize", alias: None, function: Function::Shape(Shaping::Summarize), takes: &[Takes::One(Kind::Series), Takes::One(Kind::Step), Takes::Maybe(Kind::Gather), Takes::Maybe(Kind::False)] },
    Line { name: "timeShift", alias: None, function: Function::Shape(Shaping::TimeShift), takes: &[Takes::One(Kind::Series), Takes::One(Kind::Span)] },
    // Functions that choose among the series of one argument.
    Line { name: "limit", alias: None, function: Function::Choose(Choosing::First(First::Limit)), takes: &[Takes::One(Kind::Series), Takes::One(Kind::Count)] },
    Line { name: "sortByName", alias: None, function: Function::Choose(Choosing::Plain(Plain::SortByName)), takes: &[Takes::One(Kind::Series)] },
    Line { name: "sortByMaxima", alias: None, function: Function::Choose(Choosing::Plain(Plain::SortByMaxima)), takes: &[Takes::One(Kind::Series)] },
    Line { name: "sortByTotal", alias: None, function: Function::Choose(Choosing::Plain(Plain::SortByTotal)), takes: &[Takes::One(Kind::Series)] },
    Line { name: "sortByMinima", alias: None, function: Function::Choose(Choosing::Plain(Plain::SortByMinima)), takes: &[Takes::One(Kind::Series)] },
    Line { name: "highestMax", alias: None, function: Function::Choose(Choosing::First(First::HighestMax)), takes: &[Takes::One(Kind::Series), Takes::One(Kind::Count)] },
    Line { name: "highestCurrent", alias: None, function: Function::Choose(Choosing::First(First::HighestCurrent)), takes: &[Takes::One(Kind::Series), Takes::One(Kind::Count)] },
    Line { name: "highestAverage", alias: None, function: Function::Choose(Choosing::First(First::HighestAverage)), takes: &[Takes::One(Kind::Series), Takes::One(Kind::Count)] },
    Line { name: "lowestCurrent", alias: None, function: Function::Choose(Choosing::First(First::LowestCurrent)), takes: &[Takes::One(Kind::Series), Takes::One(Kind::Count)] },
    Line { name: "lowestAverage", alias: None, function: Function::Choose(Choosing::First(First::LowestAverage)), takes: &[Takes::One(Kind::Series), Takes::One(Kind::Count)] },
    Line { name: "maximumAbove", alias: None, function: Function::Choose(Choosing::Beside(Beside::MaximumAbove)), takes: &[Takes::One(Kind::Series), Takes::One(Kind::Value)] },
    Line { name: "minimumAbove", alias: None, function: Function::Choose(Choosing::Beside(Beside::MinimumAbove)), takes: &[Takes::One(Kind::Series), Takes::One(Kind::Value)] },
    Line { name: "currentAbove", alias: None, function: Function::Choose(Choosing::Beside(Beside::CurrentAbove)), takes: &[Takes::One(Kind::Series), Takes::One(Kind::Value)] },
    Line { name: "averageAbove", alias: None, function: Function::Choose(Choosing::Beside(Beside::AverageAbove)), takes: &[Takes::One(Kind::Series), Takes::One(Kind::Value)] },
    Line { name: "maximumBelow", alias: None, function: Function::Choose(Choosing::Beside(Beside::MaximumBelow)), takes: &[Takes::One(Kind::Series), Takes::One(Kind::Value)] },
    Line { name: "minimumBelow", alias: None, function: Function::Choose(Choosing::Beside(Beside::MinimumBelow)), takes: &[Takes::One(Kind::Series), Takes::One(Kind::Value)] },
    Line { name: "currentBelow", alias: None, function: Function::Choose(Choosing::Beside(Beside::CurrentBelow)), takes: &[Takes::One(Kind::Series), Takes::One(Kind::Value)] },
    Line { name: "averageBelow", alias: None, function: Function::Choose(Choosing::Beside(Beside::AverageBelow)), takes: &[Takes::One(Kind::Series), Takes::One(Kind::Value)] },
    Line { name: "removeEmptySeries", alias: None, function: Function::Choose(Choosing::Plain(Plain::RemoveEmptySeries)), takes: &[Takes::One(Kind::Series)] },
    Line { name: "grep", alias: None, function: Function::Choose(Choosing::Match(Match::Grep)), takes: &[Takes::One(Kind::Series), Takes::One(Kind::Text)] },
    Line { name: "exclude", alias: None, function: Function::Choose(Choosing::Match(Match::Exclude)), takes: &[Takes::One(Kind::Series), Takes::One(Kind::Text)] },
    // Functions that name series.
    Line { name: "alias", alias: None, function: Function::Choose(Choosing::Alias), takes: &[Takes::One(Kind::Series), Takes::One(Kind::Text)] },
    Line { name: "aliasByNode", alias: None, function: Function::Choose(Choosing::AliasByNode), takes: &[Takes::One(Kind::Series), Takes::One(Kind::Node), Takes::Any(Kind::Node)] },
    Line { name: "aliasSub", alias: None, function: Function::Choose(Choosing::AliasSub), takes: &[Takes::One(Kind::Series), Takes::One(Kind::Text), Takes::One(Kind::Text)] },
    Line { name: "aliasByMetric", alias: None, function: Function::Choose(Choosing::Plain(Plain::AliasByMetric)), takes: &[Takes::One(Kind::Series)] },
    // Functions that combine series by groups.
    Line { name: "groupByNode", alias: None, function: Function::Regroup(Regrouping::GroupByNode), takes: &[Takes::One(Kind::Series), Takes::One(Kind::Node), Takes::One(Kind::Combine)] },
    Line { name: "sumSeriesWithWildcards", alias: None, function: Function::Regroup(Regrouping::SumSeriesWithWildcards), takes: &[Takes::One(Kind::Series), Takes::One(Kind::Place), Takes::Any(Kind::Place)] },
    Line { name: "averageSeriesWithWildcards", alias: None, function: Function::Regroup(Regrouping::AverageSeriesWithWildcards), takes: &[Takes::One(Kind::Series), Takes::One(Kind::Place), Takes::Any(Kind::Place)] },
];

/// The row of the function with a name.
#[tactic(auto, unfolding(crate::specs::Functions::row_of, crate::specs::Functions::functions, crate::specs::Functions::combining, crate::specs::Functions::joining, crate::specs::Functions::shaping, crate::specs::Functions::choosing, crate::specs::Functions::naming, crate::specs::Functions::grouping))]
pub(crate) fn row_of(name: &[u8]) -> Option<&'static Line>
    ensures { option_map (λ row. row_seen row.now) result ≡ row_of name.now }
{
    line_in(&FUNCTIONS, name)
}

// The row of the function with a name, among some rows.
fn line_in(lines: &'static [Line], name: &[u8]) -> Option<&'static Line>
    ensures { option_map (λ row. row_seen row.now) result
        ≡ find (has_name name.now) (map row_seen lines.now) }
{
    for line in lines {
        if has_name(line, name) {
            return Some(line);
        }
    }
    None
}

// Whether a name is the function's own or its other one.
fn has_name(row: &Line, name: &[u8]) -> bool
    ensures { result ≡ has_name name.now (row_seen row.now) }
{
    if is_word(name, row.name.as_bytes()) {
        return true;
    }
    let Some(alias) = row.alias else {
        return false;
    };
    is_word(name, alias.as_bytes())
}
