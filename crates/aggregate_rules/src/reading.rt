//! How a rule reads a path.
ghost use Rattle.std.specs.Prelude.{◌≡◌, ◌∷◌, [], IfOk, OnOk, map, option_copied, option_map, slice_index_or};
ghost use Rattle.metric_path.specs.Path.{nodes_of};
ghost use Rattle.aggregate_rules.specs.Readings.{covered, filled, filled_gap, fills, output_path, reading, with_row};
ghost use Rattle.aggregate_rules.specs.RuleTexts.{is_named};
ghost use Rattle.aggregate_rules.specs.SeenWords.{left_nodes};

use crate::node::{Gap, PatternNode};
use crate::output::Output;
use crate::rule::Rule;
use crate::text::{is_same, next_node};
use metric_path::{MetricPath, PathFault};
use std::alloc::{AllocError, Global};

impl Rule {
    /// The path of the rule's output for a path: `None` where the pattern does not cover it, or
    /// the output makes no legal path of it.
    #[tactic(auto, unfolding(crate::specs::Readings::output_path))]
    pub fn output_path(
        &self,
        alloc: Global,
        path: &MetricPath,
    ) -> Result<Option<MetricPath>, AllocError>
        ensures { IfOk result (λ output. output ≡ output_path self.now path.now) }
    {
        let Some(rows) = rows_of(alloc, self.nodes(), path.text())? else {
            return Ok(None);
        };
        let text = filled(alloc, self.output(), rows.as_slice())?;
        match MetricPath::new(alloc, text.as_slice()) {
            Ok(path) => return Ok(Some(path)),
            Err(PathFault::NoMemory) => return Err(AllocError),
            Err(_) => return Ok(None),
        }
    }
}

// The rows under the names of a pattern: `None` where it does not cover the path.
#[tactic(auto, unfolding(crate::specs::Readings::reading))]
fn rows_of<'a>(
    alloc: Global,
    nodes: &[PatternNode],
    path: &'a [u8],
) -> Result<Option<Vec<&'a [u8]>>, AllocError>
    ensures { IfOk result (λ rows. option_map (λ found. map (λ row. row.now) found.items) rows
        ≡ reading [] nodes.now (nodes_of path.now)) }
{
    let mut rows = Vec::new(alloc);
    let mut left = Some(path);
    for node in nodes {
        let Some(text) = left else {
            return Ok(None);
        };
        let first = first_node(text);
        let Some(row) = covered(node, first.text) else {
            return Ok(None);
        };
        push_row(&mut rows, node.gap, row)?;
        left = first.more;
    }
    if left.is_some() {
        return Ok(None);
    }
    Ok(Some(rows))
}

// Adds the row in a gap where the gap has a name.
fn push_row<'a>(rows: &mut Vec<&'a [u8]>, gap: Gap, row: &'a [u8]) -> Result<(), AllocError>
    ensures { OnOk result (map (λ found. found.now) rows.new.items
        ≡ with_row (map (λ found. found.now) rows.old.items) gap row.now) }
{
    if is_named(gap) {
        rows.push(row)?;
    }
    Ok(())
}

// The first node of a path, and what follows its dot, if one does.
#[derive(Clone, Copy)]
pub(crate) struct FirstNode<'a> {
    pub(crate) text: &'a [u8],
    pub(crate) more: Option<&'a [u8]>,
}

/// The first node of a path.
pub(crate) fn first_node(text: &[u8]) -> FirstNode<'_>
    ensures { nodes_of text.now ≡ result.text.now ∷ left_nodes (option_copied result.more) }
{
    match next_node(text) {
        Some(node) => {
            return FirstNode {
                text: node.front,
                more: Some(node.rest),
            };
        }
        None => return FirstNode { text, more: None },
    }
}

// The row in the gap of a node that covers a text.
#[tactic(auto, unfolding(crate::specs::Readings::covered))]
fn covered<'a>(node: &PatternNode, text: &'a [u8]) -> Option<&'a [u8]>
    ensures { option_map (λ row. row.now) result ≡ covered node.now text.now }
{
    let before = node.before.as_slice();
    let after = node.after.as_slice();
    if text.len() < before.len() + after.len() {
        return None;
    }
    let end = text.len() - after.len();
    if !is_same(&text[..before.len()], before) || !is_same(&text[end..], after) {
        return None;
    }
    filled_gap(node.gap, &text[before.len()..end])
}

fn filled_gap(gap: Gap, row: &[u8]) -> Option<&[u8]>
    ensures { option_map (λ row. row.now) result ≡ filled_gap gap row.now }
{
    if fills(gap, row) {
        return Some(row);
    }
    None
}

// Whether a row may stand in a gap.
fn fills(gap: Gap, row: &[u8]) -> bool
    ensures { result ≡ fills gap row.now }
{
    match gap {
        Gap::Closed => row.is_empty(),
        Gap::Any => true,
        Gap::Named => !row.is_empty(),
    }
}

fn is_named(gap: Gap) -> bool
    ensures { result ≡ is_named gap }
{
    match gap {
        Gap::Named => true,
        _ => false,
    }
}

// The output with its names replaced by their rows.
#[tactic(auto, unfolding(crate::specs::Readings::filled))]
fn filled(alloc: Global, output: &Output, rows: &[&[u8]]) -> Result<Vec<u8>, AllocError>
    ensures { IfOk result (λ text. text.items ≡ filled output.now (map (λ row. row.now) rows.now)) }
{
    let mut text = Vec::from_slice(alloc, output.front.as_slice())?;
    for part in output.parts.as_slice() {
        text.extend_from_slice(row_at(rows, part.name))?;
        text.extend_from_slice(part.text.as_slice())?;
    }
    Ok(text)
}

// The row of a name with a number.
fn row_at<'a>(rows: &[&'a [u8]], number: usize) -> &'a [u8]
    ensures { result.now ≡ slice_index_or (map (λ row. row.now) rows.now) number [] }
{
    match rows.get(number) {
        Some(row) => row,
        None => &[],
    }
}
