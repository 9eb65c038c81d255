//! The arguments of a call, read by what its function takes.
ghost use Rattle.std.specs.Prelude.{◌≡◌, ◌≤◌, All, IfOk, IfSome, option_map, slice_get, unsigned_abs};
ghost use Rattle.std.specs.Str.Parse.{starts_with_minus, without_leading_sign};
ghost use Rattle.series_funcs.specs.Moved.{IsSummaryStep};
ghost use Rattle.time_range.specs.SpanOf.{latest};
ghost use Rattle.render_plan.specs.Arguments.{IsInRange, argument_of, arguments_of, combine_of, count_up_to, factor_of, gather_of, is_false, is_series, most_count, most_node, needs_more, next_kind, node_of, number_in, place_of, quoted_in, span_of_text, step_of, value_of_text};
ghost use Rattle.target_parse.specs.Tree.{tree_of, trees_of};

use crate::form::is_word;
use crate::function::{Kind, Takes};
use fixed_num::{Milli, all_digits, capped_number, read_milli, read_nano};
use series_funcs::{Combine, Gather};
use series_set::WIDEST_STEP;
use std::alloc::{AllocError, Global};
use target_parse::Expr;
use time_range::{Span, read_span};

/// The greatest number that counts.
const MOST_COUNT: u64 = 1_000_000;

/// The greatest number of a node, from either end.
const MOST_NODE: u64 = 64;

/// An argument as a function takes it.
#[derive(Clone, Copy, Debug, PartialEq, Eq)]
pub(crate) enum Argument {
    /// A call or a path, which is not read here.
    Series,
    Count(u32),
    Value(Milli),
    /// In billionths.
    Factor(i64),
    Span(Span),
    /// In seconds.
    Step(u32),
    Gather(Gather),
    False,
    Node(i32),
    Place(u32),
    Combine(Combine),
    /// A text, which is read with the call.
    Text,
}

// The kind of the next argument, and what is taken after it.
#[derive(Clone, Copy)]
pub(crate) struct NextKind {
    pub(crate) kind: Kind,
    pub(crate) rest: &'static [Takes],
}

/// The arguments of a call as its function takes them, or `None` where it does not.
pub(crate) fn arguments_of(
    alloc: Global,
    takes: &'static [Takes],
    arguments: &Vec<Expr>,
) -> Result<Option<Vec<Argument>>, AllocError>
    ensures value { IfOk result (λ taken. option_map (λ list. list.items) taken
        ≡ arguments_of takes.now (trees_of arguments.now.items)) }
    ensures range { IfOk result (λ taken. IfSome taken (λ list. All IsInRange list.items)) }
{
    let mut rest = takes;
    let mut taken = Vec::new(alloc);
    for argument in arguments {
        let Some(next) = next_kind(rest) else {
            return Ok(None);
        };
        let Some(argument) = argument_of(next.kind, argument) else {
            return Ok(None);
        };
        taken.push(argument)?;
        rest = next.rest;
    }
    if needs_more(rest) {
        return Ok(None);
    }
    Ok(Some(taken))
}

fn next_kind(takes: &'static [Takes]) -> Option<NextKind>
    ensures { option_map (λ next. (next.kind, next.rest.now)) result ≡ next_kind takes.now }
{
    let (first, rest) = takes.split_first()?;
    match *first {
        Takes::One(kind) => return Some(NextKind { kind, rest }),
        Takes::Maybe(kind) => return Some(NextKind { kind, rest }),
        Takes::Any(kind) => return Some(NextKind { kind, rest: takes }),
    }
}

fn needs_more(takes: &[Takes]) -> bool
    ensures { result ≡ needs_more takes.now }
{
    match takes.first() {
        Some(Takes::One(_)) => return true,
        _ => return false,
    }
}

// An argument as one of a kind.
#[tactic(auto, unfolding(crate::specs::Arguments::argument_of))]
fn argument_of(kind: Kind, expr: &Expr) -> Option<Argument>
    ensures value { result ≡ argument_of kind (tree_of expr.now) }
    ensures range { IfSome result IsInRange }
{
    match kind {
        Kind::Series => {
            if is_series(expr) {
                return Some(Argument::Series);
            }
            return None;
        }
        Kind::Count => return Some(Argument::Count(count_up_to(MOST_COUNT, number_in(expr)?)?)),
        Kind::Value => return Some(Argument::Value(value_of(number_in(expr)?)?)),
        Kind::Factor => return Some(Argument::Factor(factor_of(number_in(expr)?)?)),
        Kind::Span => return Some(Argument::Span(span_of(quoted_in(expr)?)?)),
        Kind::Step => return Some(Argument::Step(step_of(quoted_in(expr)?)?)),
        Kind::Gather => return Some(Argument::Gather(gather_of(quoted_in(expr)?.as_bytes())?)),
        Kind::False => {
            if is_false(expr) {
                return Some(Argument::False);
            }
            return None;
        }
        Kind::Node => return Some(Argument::Node(node_of(number_in(expr)?)?)),
        Kind::Place => return Some(Argument::Place(place_of(number_in(expr)?)?)),
        Kind::Combine => return Some(Argument::Combine(combine_of(quoted_in(expr)?.as_bytes())?)),
        Kind::Text => {
            let _text = quoted_in(expr)?;
            return Some(Argument::Text);
        }
    }
}

/// The argument at a place, from 0 on.
pub(crate) fn argument_at(arguments: &[Argument], place: usize) -> Option<Argument>
    ensures value { result ≡ slice_get arguments.now place }
    ensures range { All IsInRange arguments.now → IfSome result IsInRange }
{
    arguments.get(place).copied()
}

/// Whether an argument is a call or a path.
pub(crate) fn is_series(expr: &Expr) -> bool
    ensures { result ≡ is_series (tree_of expr.now) }
{
    match expr {
        Expr::Call(_, _) => return true,
        Expr::Path(_) => return true,
        Expr::Number(_) => return false,
        Expr::Flag(_) => return false,
        Expr::Text(_, _) => return false,
    }
}

fn is_false(expr: &Expr) -> bool
    ensures { result ≡ is_false (tree_of expr.now) }
{
    match expr {
        Expr::Call(_, _) => return false,
        Expr::Path(_) => return false,
        Expr::Number(_) => return false,
        Expr::Flag(flag) => return !*flag,
        Expr::Text(_, _) => return false,
    }
}

// The text of a number.
fn number_in(expr: &Expr) -> Option<&[u8]>
    ensures { option_map (λ text. text.now) result ≡ number_in (tree_of expr.now) }
{
    match expr {
        Expr::Call(_, _) => return None,
        Expr::Path(_) => return None,
        Expr::Number(number) => return Some(number.as_str().as_bytes()),
        Expr::Flag(_) => return None,
        Expr::Text(_, _) => return None,
    }
}

/// What stands between quotes.
pub(crate) fn quoted_in(expr: &Expr) -> Option<&str>
    ensures { option_map (λ text. text.now) result ≡ quoted_in (tree_of expr.now) }
{
    match expr {
        Expr::Call(_, _) => return None,
        Expr::Path(_) => return None,
        Expr::Number(_) => return None,
        Expr::Flag(_) => return None,
        Expr::Text(_, text) => return Some(text.as_str()),
    }
}

// The number of digits alone, up to this one.
#[tactic(auto, unfolding(crate::specs::Arguments::count_up_to))]
fn count_up_to(most: u64, text: &[u8]) -> Option<u32>
    requires { most ≤ most_count }
    ensures value { result ≡ count_up_to most text.now }
    ensures range { IfSome result (λ count. count ≤ most) }
{
    if text.is_empty() || !all_digits(text) {
        return None;
    }
    let number = capped_number(text);
    if number > most {
        return None;
    }
    Some(number as u32)
}

// The number of a node.
#[tactic(auto, unfolding(crate::specs::Arguments::node_of))]
fn node_of(text: &[u8]) -> Option<i32>
    ensures value { result ≡ node_of text.now }
    ensures range { IfSome result (λ node. unsigned_abs node ≤ most_node) }
{
    if starts_with_minus(text) {
        return Some(-(count_up_to(MOST_NODE, without_sign(text))? as i32));
    }
    Some(count_up_to(MOST_NODE, text)? as i32)
}

fn starts_with_minus(text: &[u8]) -> bool
    ensures { result ≡ starts_with_minus text.now }
{
    text.first() == Some(&b'-')
}

fn without_sign(text: &[u8]) -> &[u8]
    ensures { result.now ≡ without_leading_sign text.now }
{
    match text {
        [b'+' | b'-', rest @ ..] => rest,
        _ => text,
    }
}

// The number of a node that is not below 0.
#[tactic(auto, unfolding(crate::specs::Arguments::place_of))]
fn place_of(text: &[u8]) -> Option<u32>
    ensures { result ≡ place_of text.now }
{
    let node = node_of(text)?;
    if node < 0 {
        return None;
    }
    Some(node as u32)
}

#[tactic(auto, unfolding(crate::specs::Arguments::combine_of))]
fn combine_of(text: &[u8]) -> Option<Combine>
    ensures { result ≡ combine_of text.now }
{
    if is_word(text, b"sum") {
        return Some(Combine::Sum);
    }
    if is_word(text, b"average") || is_word(text, b"avg") {
        return Some(Combine::Average);
    }
    if is_word(text, b"max") {
        return Some(Combine::Max);
    }
    if is_word(text, b"min") {
        return Some(Combine::Min);
    }
    None
}

#[tactic(auto, unfolding(crate::specs::Arguments::value_of_text))]
fn value_of(text: &[u8]) -> Option<Milli>
    ensures { result ≡ value_of_text text.now }
{
    read_milli(text).ok()
}

#[tactic(auto, unfolding(crate::specs::Arguments::factor_of))]
fn factor_of(text: &[u8]) -> Option<i64>
    ensures { result ≡ factor_of text.now }
{
    read_nano(text).ok()
}

// A span that is not 0.
#[tactic(auto, unfolding(crate::specs::Arguments::span_of_text), using(crate::proofs::RangeLemmas::span_is_short))]
fn span_of(text: &str) -> Option<Span>
    ensures value { result ≡ span_of_text text.now }
    ensures range { IfSome result (λ span. (1 ≤ span.seconds) × (span.seconds ≤ latest)) }
{
    match read_span(text) {
        Ok(span) => {
            if span.seconds == 0 {
                return None;
            }
            return Some(span);
        }
        Err(_) => return None,
    }
}

// The seconds of a span that may be a step.
#[tactic(auto, unfolding(crate::specs::Arguments::step_of))]
fn step_of(text: &str) -> Option<u32>
    ensures value { result ≡ step_of text.now }
    ensures range { IfSome result IsSummaryStep }
{
    let span = span_of(text)?;
    if span.seconds > WIDEST_STEP {
        return None;
    }
    Some(span.seconds as u32)
}

#[tactic(auto, unfolding(crate::specs::Arguments::gather_of))]
fn gather_of(text: &[u8]) -> Option<Gather>
    ensures { result ≡ gather_of text.now }
{
    if is_word(text, b"sum") {
        return Some(Gather::Sum);
    }
    if is_word(text, b"avg") {
        return Some(Gather::Average);
    }
    if is_word(text, b"max") {
        return Some(Gather::Max);
    }
    if is_word(text, b"min") {
        return Some(Gather::Min);
    }
    if is_word(text, b"last") {
        return Some(Gather::Last);
    }
    None
}
