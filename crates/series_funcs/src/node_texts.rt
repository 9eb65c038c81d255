//! Texts of some of a path's nodes.
ghost use Rattle.std.specs.Prelude.{◌≡◌, IfOk, map, string_bytes, unwrap_or, slice_get, []};
ghost use Rattle.metric_path.specs.Path.{nodes_of};
ghost use Rattle.series_funcs.specs.NodeTexts.{node_text, nodes_left, text_without};

use crate::node_numbers::NodeNumbers;
use std::alloc::{AllocError, Global};

/// The node of a path with a number, from 0 on, or below 0 from the end; the empty text where there is none.
pub(crate) fn node_text(alloc: Global, node: i32, path: &str) -> Result<String, AllocError>
    ensures { IfOk result (λ text. string_bytes text ≡ node_text node (nodes_of path.now)) }
{
    let nodes = nodes_of(alloc, path)?;
    if node >= 0 {
        return text_at(alloc, nodes.as_slice(), node as usize);
    }
    let from_end = node.unsigned_abs() as usize;
    if from_end > nodes.len() {
        return Ok(String::new(alloc));
    }
    text_at(alloc, nodes.as_slice(), nodes.len() - from_end)
}

// The text at a place; the empty text behind the last.
fn text_at(alloc: Global, nodes: &[&str], place: usize) -> Result<String, AllocError>
    ensures { IfOk result (λ text.
        string_bytes text ≡ unwrap_or (slice_get (map (λ node. node.now) nodes.now) place) []) }
{
    match nodes.get(place) {
        Some(node) => String::from_str(alloc, node),
        None => Ok(String::new(alloc)),
    }
}

/// The nodes of a path without those of some numbers, joined by dots.
pub(crate) fn text_without(
    alloc: Global,
    without: &NodeNumbers,
    path: &str,
) -> Result<String, AllocError>
    ensures { IfOk result
        (λ text. string_bytes text ≡ text_without without.now (nodes_of path.now)) }
{
    let nodes = nodes_of(alloc, path)?;
    let left = nodes_left(alloc, without, nodes.as_slice())?;
    left.as_slice().join(alloc, ".")
}

// The nodes without those of some numbers.
fn nodes_left<'a>(
    alloc: Global,
    without: &NodeNumbers,
    nodes: &[&'a str],
) -> Result<Vec<&'a str>, AllocError>
    ensures { IfOk result (λ left.
        map (λ node. node.now) left.items ≡ nodes_left without.now (map (λ node. node.now) nodes.now)) }
{
    let mut left = Vec::with_capacity(alloc, nodes.len())?;
    for (place, node) in nodes.iter().enumerate() {
        if without.has(place) {
            continue;
        }
        left.push(*node)?;
    }
    Ok(left)
}

// The nodes of a path.
fn nodes_of(alloc: Global, path: &str) -> Result<Vec<&str>, AllocError>
    ensures { IfOk result (λ nodes. map (λ node. node.now) nodes.items ≡ nodes_of path.now) }
{
    path.split('.').collect(alloc)
}
