//! What a call makes of each series by itself.
ghost use Rattle.std.specs.Prelude.{◌≡◌, ◌≤◌, IfSome};
ghost use Rattle.series_funcs.specs.Moved.{IsSummaryStep};
ghost use Rattle.time_range.specs.SpanOf.{latest};
ghost use Rattle.render_plan.specs.Arguments.{IsInRange};
ghost use Rattle.render_plan.specs.Sound.{IsSoundShape};
ghost use Rattle.render_plan.specs.Terms.{count_in, factor_in, gather_in, shape_of, span_in, step_in, value_in};

use crate::argument::Argument;
use crate::function::Shaping;
use fixed_num::{Milli, zero};
use series_funcs::{Gather, Shape};
use time_range::Span;

/// The shape of a call, by its second and third argument.
#[tactic(auto, unfolding(crate::specs::Terms::shape_of))]
pub(crate) fn shape_of(
    shaping: Shaping,
    second: Option<Argument>,
    third: Option<Argument>,
) -> Option<Shape>
    requires { IfSome second IsInRange }
    ensures value { result ≡ shape_of shaping second third }
    ensures sound { IfSome result IsSoundShape }
{
    match shaping {
        Shaping::Absolute => return Some(Shape::Absolute),
        Shaping::OffsetToZero => return Some(Shape::OffsetToZero),
        Shaping::Derivative => return Some(Shape::Derivative),
        Shaping::NonNegativeDerivative => return Some(Shape::NonNegativeDerivative),
        Shaping::PerSecond => return Some(Shape::PerSecond),
        Shaping::Integral => return Some(Shape::Integral),
        Shaping::IsNonNull => return Some(Shape::IsNonNull),
        Shaping::Changed => return Some(Shape::Changed),
        Shaping::Scale => {
            return Some(Shape::Scale {
                billionths: factor_in(second)?,
            });
        }
        Shaping::Offset => {
            return Some(Shape::Offset {
                by: value_in(second)?,
            });
        }
        Shaping::Delay => {
            return Some(Shape::Delay {
                places: count_in(second)?,
            });
        }
        Shaping::KeepLastValue => {
            return Some(Shape::KeepLastValue {
                most: count_in(second),
            });
        }
        Shaping::TransformNull => {
            return Some(Shape::TransformNull {
                value: value_in(second).unwrap_or(zero()),
            });
        }
        Shaping::RemoveAboveValue => {
            return Some(Shape::RemoveAboveValue {
                most: value_in(second)?,
            });
        }
        Shaping::RemoveBelowValue => {
            return Some(Shape::RemoveBelowValue {
                least: value_in(second)?,
            });
        }
        Shaping::ScaleToSeconds => {
            return Some(Shape::ScaleToSeconds {
                seconds: count_in(second)?,
            });
        }
        Shaping::Summarize => {
            return Some(Shape::Summarize {
                step: step_in(second)?,
                gather: gather_in(third).unwrap_or(Gather::Sum),
            });
        }
        Shaping::TimeShift => {
            let span = span_in(second)?;
            return Some(Shape::TimeShift {
                past: span.past,
                seconds: span.seconds,
            });
        }
    }
}

pub(crate) fn count_in(argument: Option<Argument>) -> Option<u32>
    ensures { result ≡ count_in argument }
{
    match argument {
        Some(Argument::Count(count)) => return Some(count),
        _ => return None,
    }
}

pub(crate) fn value_in(argument: Option<Argument>) -> Option<Milli>
    ensures { result ≡ value_in argument }
{
    match &argument {
        Some(Argument::Value(value)) => return Some(*value),
        _ => return None,
    }
}

fn factor_in(argument: Option<Argument>) -> Option<i64>
    ensures { result ≡ factor_in argument }
{
    match argument {
        Some(Argument::Factor(factor)) => return Some(factor),
        _ => return None,
    }
}

fn span_in(argument: Option<Argument>) -> Option<Span>
    requires { IfSome argument IsInRange }
    ensures value { result ≡ span_in argument }
    ensures range { IfSome result (λ span. span.seconds ≤ latest) }
{
    match argument {
        Some(Argument::Span(span)) => return Some(span),
        _ => return None,
    }
}

fn step_in(argument: Option<Argument>) -> Option<u32>
    requires { IfSome argument IsInRange }
    ensures value { result ≡ step_in argument }
    ensures range { IfSome result IsSummaryStep }
{
    match argument {
        Some(Argument::Step(step)) => return Some(step),
        _ => return None,
    }
}

fn gather_in(argument: Option<Argument>) -> Option<Gather>
    ensures { result ≡ gather_in argument }
{
    match argument {
        Some(Argument::Gather(gather)) => return Some(gather),
        _ => return None,
    }
}
