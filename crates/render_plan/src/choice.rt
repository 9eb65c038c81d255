//! Which series a call leaves, and how it groups them.
ghost use Rattle.std.specs.Prelude.{◌≡◌, IfOk, filter_map, option_map};
ghost use Rattle.std.specs.Option.{option_and_then};
ghost use Rattle.render_plan.specs.Terms.{alias_of, alias_sub, beside, choose_of, first_text, group_by, matching, matching_choice, node_in, place_in, plain, regroup_of, so_many, text_of_second, text_of_third};
ghost use Rattle.render_plan.specs.declared.function.Choosing.TheVariants as choices;
ghost use Rattle.target_parse.specs.Tree.{tree_of, trees_of};

use crate::argument::{Argument, argument_at, quoted_in};
use crate::function::{Beside, Choosing, First, Match, Plain, Regrouping};
use crate::shape::{count_in, value_in};
use fixed_num::Milli;
use name_pattern::PatternText;
use series_funcs::{Combine, NodeNumbers, Regroup};
use series_pick::{Choose, Name, SignedNodes};
use std::alloc::{AllocError, Global};
use target_parse::Expr;

/// Which series a call leaves, by its arguments; `None` where they lack one, or a pattern cannot be read.
#[tactic(auto, unfolding(crate::specs::Terms::choose_of))]
pub(crate) fn choose_of(
    alloc: Global,
    choosing: Choosing,
    call: &Expr,
    arguments: &[Argument],
) -> Result<Option<Choose>, AllocError>
    ensures { IfOk result (λ kind. kind ≡ choose_of choosing (tree_of call.now) arguments.now) }
{
    let second = argument_at(arguments, 1);
    match choosing {
        Choosing::Plain(kind) => return Ok(Some(plain(kind))),
        Choosing::First(kind) => return Ok(so_many(kind, count_in(second))),
        Choosing::Beside(kind) => return Ok(beside(kind, value_in(second))),
        Choosing::Match(kind) => return Ok(matching_choice(alloc, kind, call)?),
        Choosing::Alias => return Ok(alias_of(alloc, call)?),
        Choosing::AliasSub => return Ok(alias_sub(alloc, call)?),
        Choosing::AliasByNode => {
            let nodes = nodes_in(alloc, arguments)?;
            return Ok(Some(Choose::AliasByNode { nodes }));
        }
    }
}

fn plain(kind: Plain) -> Choose
    ensures { result ≡ plain kind }
{
    match kind {
        Plain::AliasByMetric => return Choose::AliasByMetric,
        Plain::SortByName => return Choose::SortByName,
        Plain::SortByMaxima => return Choose::SortByMaxima,
        Plain::SortByTotal => return Choose::SortByTotal,
        Plain::SortByMinima => return Choose::SortByMinima,
        Plain::RemoveEmptySeries => return Choose::RemoveEmptySeries,
    }
}

fn so_many(kind: First, most: Option<u32>) -> Option<Choose>
    ensures { result ≡ option_map (so_many kind) most }
{
    let most = most?;
    match kind {
        First::Limit => return Some(Choose::Limit { most }),
        First::HighestMax => return Some(Choose::HighestMax { most }),
        First::HighestCurrent => return Some(Choose::HighestCurrent { most }),
        First::HighestAverage => return Some(Choose::HighestAverage { most }),
        First::LowestCurrent => return Some(Choose::LowestCurrent { most }),
        First::LowestAverage => return Some(Choose::LowestAverage { most }),
    }
}

fn beside(kind: Beside, bound: Option<Milli>) -> Option<Choose>
    ensures { result ≡ option_map (beside kind) bound }
{
    let bound = bound?;
    match kind {
        Beside::MaximumAbove => return Some(Choose::MaximumAbove { bound }),
        Beside::MinimumAbove => return Some(Choose::MinimumAbove { bound }),
        Beside::CurrentAbove => return Some(Choose::CurrentAbove { bound }),
        Beside::AverageAbove => return Some(Choose::AverageAbove { bound }),
        Beside::MaximumBelow => return Some(Choose::MaximumBelow { bound }),
        Beside::MinimumBelow => return Some(Choose::MinimumBelow { bound }),
        Beside::CurrentBelow => return Some(Choose::CurrentBelow { bound }),
        Beside::AverageBelow => return Some(Choose::AverageBelow { bound }),
    }
}

#[tactic(auto, unfolding(crate::specs::Terms::matching_choice))]
fn matching_choice(alloc: Global, kind: Match, call: &Expr) -> Result<Option<Choose>, AllocError>
    ensures { IfOk result (λ choice.
        choice ≡ option_and_then (matching_choice kind) (text_of_second (tree_of call.now))) }
{
    let Some(text) = text_of_second(call) else {
        return Ok(None);
    };
    let Some(pattern) = PatternText::new(alloc, text)? else {
        return Ok(None);
    };
    Ok(Some(matching(kind, pattern)))
}

fn matching(kind: Match, pattern: PatternText) -> Choose
    ensures { result ≡ matching kind pattern }
{
    match kind {
        Match::Grep => return Choose::Grep { pattern },
        Match::Exclude => return Choose::Exclude { pattern },
    }
}

fn alias_of(alloc: Global, call: &Expr) -> Result<Option<Choose>, AllocError>
    ensures { IfOk result (λ choice.
        choice ≡ option_map alias_of (text_of_second (tree_of call.now))) }
{
    let Some(text) = text_of_second(call) else {
        return Ok(None);
    };
    let name = Name::from_string(String::from_str(alloc, text)?);
    Ok(Some(Choose::Alias { name }))
}

#[tactic(auto, unfolding(crate::specs::Terms::alias_sub))]
fn alias_sub(alloc: Global, call: &Expr) -> Result<Option<Choose>, AllocError>
    ensures { IfOk result (λ choice. choice ≡ option_and_then
        (λ pattern. option_and_then (alias_sub pattern) (text_of_third (tree_of call.now)))
        (text_of_second (tree_of call.now))) }
{
    let Some(text) = text_of_second(call) else {
        return Ok(None);
    };
    let Some(replacement) = text_of_third(call) else {
        return Ok(None);
    };
    let Some(pattern) = PatternText::new(alloc, text)? else {
        return Ok(None);
    };
    let replacement = Name::from_string(String::from_str(alloc, replacement)?);
    Ok(Some(Choose::AliasSub {
        pattern,
        replacement,
    }))
}

// The text that is the third argument of a call.
fn text_of_third(call: &Expr) -> Option<&str>
    ensures { option_map (λ text. text.now) result ≡ text_of_third (tree_of call.now) }
{
    let Expr::Call(_, arguments) = call else {
        return None;
    };
    let (_, others) = arguments.split_first()?;
    let (_, last) = others.split_first()?;
    first_text(last)
}

// The text that is the second argument of a call.
fn text_of_second(call: &Expr) -> Option<&str>
    ensures { option_map (λ text. text.now) result ≡ text_of_second (tree_of call.now) }
{
    let Expr::Call(_, arguments) = call else {
        return None;
    };
    let (_, others) = arguments.split_first()?;
    first_text(others)
}

fn first_text(arguments: &[Expr]) -> Option<&str>
    ensures { option_map (λ text. text.now) result ≡ first_text (trees_of arguments.now) }
{
    let (first, _) = arguments.split_first()?;
    quoted_in(first)
}

/// How a call groups series, by its arguments; `None` where they lack one.
#[tactic(auto, unfolding(crate::specs::Terms::regroup_of))]
pub(crate) fn regroup_of(
    alloc: Global,
    regrouping: Regrouping,
    arguments: &[Argument],
) -> Result<Option<Regroup>, AllocError>
    ensures { IfOk result (λ kind. kind ≡ regroup_of regrouping arguments.now) }
{
    match regrouping {
        Regrouping::GroupByNode => {
            let second = argument_at(arguments, 1);
            let third = argument_at(arguments, 2);
            return Ok(group_by(second, third));
        }
        Regrouping::SumSeriesWithWildcards => {
            let nodes = places_in(alloc, arguments)?;
            return Ok(Some(Regroup::SumSeriesWithWildcards { nodes }));
        }
        Regrouping::AverageSeriesWithWildcards => {
            let nodes = places_in(alloc, arguments)?;
            return Ok(Some(Regroup::AverageSeriesWithWildcards { nodes }));
        }
    }
}

fn group_by(second: Option<Argument>, third: Option<Argument>) -> Option<Regroup>
    ensures { result ≡ group_by second third }
{
    let Some(Argument::Node(node)) = second else {
        return None;
    };
    let Some(Argument::Combine(combine)) = third else {
        return None;
    };
    Some(Regroup::GroupByNode { node, combine })
}

// The numbers of nodes among arguments.
fn nodes_in(alloc: Global, arguments: &[Argument]) -> Result<SignedNodes, AllocError>
    ensures { IfOk result (λ nodes. nodes ≡ filter_map node_in arguments.now) }
{
    let mut nodes = Vec::new(alloc);
    for argument in arguments {
        let Some(node) = node_in(*argument) else {
            continue
        };
        nodes.push(node)?;
    }
    Ok(SignedNodes::from_vec(nodes))
}

fn node_in(argument: Argument) -> Option<i32>
    ensures { result ≡ node_in argument }
{
    match argument {
        Argument::Node(node) => return Some(node),
        _ => return None,
    }
}

// The numbers of nodes that are not below 0, among arguments.
fn places_in(alloc: Global, arguments: &[Argument]) -> Result<NodeNumbers, AllocError>
    ensures { IfOk result (λ places. places ≡ filter_map place_in arguments.now) }
{
    let mut places = Vec::new(alloc);
    for argument in arguments {
        let Some(place) = place_in(*argument) else {
            continue
        };
        places.push(place)?;
    }
    Ok(NodeNumbers::from_vec(places))
}

fn place_in(argument: Argument) -> Option<u32>
    ensures { result ≡ place_in argument }
{
    match argument {
        Argument::Place(place) => return Some(place),
        _ => return None,
    }
}
