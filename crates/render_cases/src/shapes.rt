//! Series of which each is shaped by itself.
ghost use Rattle.std.specs.Prelude.{◌≤◌, ◌+◌, All, IsTrue};
ghost use Rattle.series_set.specs.Series.{end_of, latest_end};
ghost use Rattle.series_funcs.specs.Moved.{HasStep, lateness};

use crate::notation::{known_value, set_at, write_found};
use crate::room::plenty;
use case_lines::{Case, Told, read_signed, read_small};
use series_funcs::{CallName, Gather, Shape, shape};
use series_set::{LATEST_END, Series, WIDEST_STEP};
use std::alloc::Global;

/// `shape SET FUNCTION ARGUMENT..`: what the function makes of the series, by the call `f(SERIES,1)`, or why there is nothing. Arguments are
/// whole numbers: the values are in thousandths, the factor of `scale` in billionths. `summarize` has a step and how values are gathered,
/// `timeShift` has `past` or `future` and the seconds.
pub fn tell_shape(alloc: Global, told: &mut Told, case: &Case) {
    let kind = read_shape(case, told);
    let set = set_at(alloc, case, 0, told);
    if !are_early_for(&kind, set.as_slice()) || !has_step(&kind) {
        return told.malformed();
    }
    let call = CallName {
        function: "f",
        tail: ",1",
    };
    write_found(told, shape(alloc, &kind, set, &call, &mut plenty()));
}

fn are_early_for(kind: &Shape, series: &[Series]) -> bool
    ensures { IsTrue result → All (λ s. end_of s + lateness kind.now ≤ latest_end) series.now }
{
    let late = match *kind {
        Shape::Summarize { step, .. } => u64::from(step),
        Shape::TimeShift {
            past: true,
            seconds,
        } => seconds,
        _ => 0,
    };
    late <= LATEST_END && series.iter().all(|one| one.end() <= LATEST_END - late)
}

fn has_step(kind: &Shape) -> bool
    ensures { IsTrue result → HasStep kind.now }
{
    match *kind {
        Shape::Summarize { step, .. } => step >= 1 && u64::from(step) <= WIDEST_STEP,
        _ => true,
    }
}

fn read_shape(case: &Case, told: &mut Told) -> Shape {
    let word = case.text_at(1, told);
    match case.len() {
        2 => read_plain(word, told),
        3 => read_numbered(word, case.text_at(2, told), told),
        _ => read_timed(word, case, told),
    }
}

// The functions with a number.
fn read_numbered(word: &str, number: &str, told: &mut Told) -> Shape {
    match word {
        "scale" => Shape::Scale {
            billionths: read_signed(number, told),
        },
        "offset" => Shape::Offset {
            by: known_value(number, told),
        },
        "delay" => Shape::Delay {
            places: read_small(number, told),
        },
        "keepLastValue" => Shape::KeepLastValue {
            most: Some(read_small(number, told)),
        },
        "transformNull" => Shape::TransformNull {
            value: known_value(number, told),
        },
        "removeAboveValue" => Shape::RemoveAboveValue {
            most: known_value(number, told),
        },
        "removeBelowValue" => Shape::RemoveBelowValue {
            least: known_value(number, told),
        },
        "scaleToSeconds" => Shape::ScaleToSeconds {
            seconds: read_small(number, told),
        },
        _ => {
            told.malformed();
            Shape::Absolute
        }
    }
}

// The functions with a word and a number.
fn read_timed(word: &str, case: &Case, told: &mut Told) -> Shape {
    match word {
        "summarize" => Shape::Summarize {
            step: case.small_at(2, told),
            gather: read_gather(case.text_at(3, told), told),
        },
        "timeShift" => Shape::TimeShift {
            past: is_past(case.text_at(2, told), told),
            seconds: case.number_at(3, told),
        },
        _ => {
            told.malformed();
            Shape::Absolute
        }
    }
}

// The functions without an argument.
fn read_plain(word: &str, told: &mut Told) -> Shape {
    match word {
        "absolute" => Shape::Absolute,
        "offsetToZero" => Shape::OffsetToZero,
        "derivative" => Shape::Derivative,
        "nonNegativeDerivative" => Shape::NonNegativeDerivative,
        "perSecond" => Shape::PerSecond,
        "integral" => Shape::Integral,
        "keepLastValue" => Shape::KeepLastValue { most: None },
        "isNonNull" => Shape::IsNonNull,
        "changed" => Shape::Changed,
        _ => {
            told.malformed();
            Shape::Absolute
        }
    }
}

fn read_gather(word: &str, told: &mut Told) -> Gather {
    match word {
        "sum" => Gather::Sum,
        "avg" => Gather::Average,
        "max" => Gather::Max,
        "min" => Gather::Min,
        "last" => Gather::Last,
        _ => {
            told.malformed();
            Gather::Sum
        }
    }
}

fn is_past(word: &str, told: &mut Told) -> bool {
    match word {
        "past" => true,
        "future" => false,
        _ => {
            told.malformed();
            false
        }
    }
}
