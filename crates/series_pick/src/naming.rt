//! The functions that name series.
ghost use Rattle.std.specs.Prelude.{◌≡◌, IfOk, codes, filter_map, map, option_map, reverse, slice_get, string_bytes};
ghost use Rattle.std.specs.List.{join_by};
ghost use Rattle.metric_path.specs.Path.{nodes_of};
ghost use Rattle.series_pick.specs.Chosen.{renamed, renamed_by_nodes};
ghost use Rattle.series_pick.specs.Nodes.{name_by_nodes, numbered};

use crate::work;
use series_set::{Allowance, SeriesSet};
use std::alloc::{AllocError, Global};

/// The series, each under this name.
pub(crate) fn all_named(
    set: SeriesSet,
    name: &String,
    room: &mut Allowance,
) -> Result<SeriesSet, AllocError>
    ensures { IfOk result (λ named. named ≡ map (renamed (string_bytes name.now)) set) }
{
    let series = set.into_vec();
    let mut named = Vec::with_capacity(*series.allocator(), series.len())?;
    for one in series {
        room.take_name(name.len(), one.name().len())?;
        named.push(one.renamed(name.clone()?))?;
    }
    Ok(SeriesSet::from_vec(named))
}

/// The series, each under those nodes of its path that have these numbers.
pub(crate) fn named_by_nodes(
    alloc: Global,
    set: SeriesSet,
    numbers: &[i32],
    room: &mut Allowance,
) -> Result<SeriesSet, AllocError>
    ensures { IfOk result (λ named. named ≡ map (renamed_by_nodes numbers.now) set) }
{
    let series = set.into_vec();
    let mut named = Vec::with_capacity(alloc, series.len())?;
    for one in series {
        room.spend(work::of_nodes(numbers.len()))?;
        let name = name_by_nodes(alloc, one.path(), numbers)?;
        room.take_name(name.len(), one.name().len())?;
        named.push(one.renamed(name))?;
    }
    Ok(SeriesSet::from_vec(named))
}

#[tactic(auto, unfolding(crate::specs::Nodes::name_by_nodes))]
fn name_by_nodes(alloc: Global, path: &str, numbers: &[i32]) -> Result<String, AllocError>
    ensures { IfOk result (λ name. string_bytes name ≡ name_by_nodes numbers.now path.now) }
{
    let nodes = nodes_of(alloc, path)?;
    let name = joined_nodes(alloc, nodes.as_slice(), numbers)?;
    Ok(name)
}

// The nodes with these numbers, joined by dots.
fn joined_nodes(alloc: Global, nodes: &[&str], numbers: &[i32]) -> Result<String, AllocError>
    ensures { IfOk result (λ name. string_bytes name ≡ join_by (λ node. node) (codes ".")
        (filter_map (numbered (map (λ node. node.now) nodes.now)) numbers.now)) }
{
    let chosen = chosen_nodes(alloc, nodes, numbers)?;
    let name = joined(alloc, chosen.as_slice())?;
    Ok(name)
}

#[tactic(auto, using(crate::proofs::NodeLemmas::joined_more, crate::proofs::NodeLemmas::separated))]
fn joined(alloc: Global, nodes: &[&str]) -> Result<String, AllocError>
    ensures { IfOk result (λ name. string_bytes name
        ≡ join_by (λ node. node) (codes ".") (map (λ node. node.now) nodes.now)) }
{
    let mut name = String::new(alloc);
    let mut separator = "";
    for node in nodes {
        name.push_str(separator)?;
        name.push_str(node)?;
        separator = ".";
    }
    Ok(name)
}

fn nodes_of(alloc: Global, path: &str) -> Result<Vec<&str>, AllocError>
    ensures { IfOk result (λ nodes. map (λ node. node.now) nodes.items ≡ nodes_of path.now) }
{
    path.split('.').collect(alloc)
}

// The nodes with these numbers.
fn chosen_nodes<'p>(
    alloc: Global,
    nodes: &[&'p str],
    numbers: &[i32],
) -> Result<Vec<&'p str>, AllocError>
    ensures { IfOk result (λ chosen. map (λ node. node.now) chosen.items
        ≡ filter_map (numbered (map (λ node. node.now) nodes.now)) numbers.now) }
{
    let mut chosen = Vec::new(alloc);
    for number in numbers {
        let Some(node) = numbered(nodes, *number) else {
            continue
        };
        chosen.push(node)?;
    }
    Ok(chosen)
}

// The node with a number, where a negative one counts from the end.
fn numbered<'p>(nodes: &[&'p str], number: i32) -> Option<&'p str>
    ensures { option_map (λ node. node.now) result
        ≡ numbered (map (λ node. node.now) nodes.now) number }
{
    if number < 0 {
        return from_end(nodes, (number.unsigned_abs() - 1) as usize);
    }
    nodes.get(number as usize).copied()
}

// The node behind so many, counted from the end.
fn from_end<'p>(nodes: &[&'p str], place: usize) -> Option<&'p str>
    ensures { option_map (λ node. node.now) result
        ≡ slice_get (reverse (map (λ node. node.now) nodes.now)) place }
{
    nodes.iter().rev().nth(place).copied()
}
