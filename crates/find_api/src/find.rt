//! The nodes and paths that globs find.
ghost use Rattle.std.specs.Prelude.{◌≡◌, ◌<◌, ◌≤◌, ◌++◌, ◌∷◌, IfOk, IfSome, OnOk, length, map};
ghost use Rattle.std.specs.Cmp.Lexicographic.{slice_cmp};
ghost use Rattle.std.specs.List.Sorted.{IsStrictlySortedBy};
ghost use Rattle.std.specs.Ordering.{nat_cmp};
ghost use Rattle.find_api.specs.Nodes.{Expands, Finds, Tells};
ghost use Rattle.find_api.specs.Runs.{AddsFound, EndsNodes, IsBehindNode, TellsAt};

use crate::node::Node;
use metric_path::MetricPath;
use path_glob::{Glob, GlobSearch, Work, behind_run, run_of, texts_with_one_front_stand_together};
use std::alloc::{AllocError, Global};

// What it takes to tell the node of a name, and to pass over the names behind it that tell the same.
const TOLD_WORK: u64 = 32;

// What it takes to put a node or a path in order among others.
const ORDER_WORK: u64 = 32;

/// The nodes that a glob finds, in order and each once. More work than may be done ends it as want of memory
/// does.
pub(crate) fn find_nodes(
    alloc: Global,
    glob: &Glob,
    names: &[MetricPath],
    work: &mut Work,
) -> Result<Vec<Node>, AllocError>
    requires { IsStrictlySortedBy (slice_cmp nat_cmp) names.now }
    ensures { IfOk result (λ nodes. Finds glob.now names.now nodes.items) }
{
    let mut nodes = Vec::new(alloc);
    push_nodes(alloc, glob, names, work, &mut nodes)?;
    work.spend(order_work(nodes.len()))?;
    nodes.sort()?;
    nodes.dedup();
    Ok(nodes)
}

/// The paths of the nodes that some glob finds, in byte order and each once.
pub(crate) fn expand_paths(
    alloc: Global,
    globs: &[Glob],
    names: &[MetricPath],
) -> Result<Vec<MetricPath>, AllocError>
    requires { IsStrictlySortedBy (slice_cmp nat_cmp) names.now }
    ensures { IfOk result (λ paths. Expands globs.now names.now paths.items) }
{
    let mut work = Work::of_question();
    let mut paths = Vec::new(alloc);
    for glob in globs {
        let nodes = find_nodes(alloc, glob, names, &mut work)?;
        push_paths(nodes, &mut paths)?;
        work.spend(order_work(paths.len()))?;
        paths.sort()?;
        paths.dedup();
    }
    Ok(paths)
}

// What it takes to put so many nodes or paths in order.
fn order_work(count: usize) -> u64 {
    ORDER_WORK.saturating_mul(count as u64)
}

// The paths of nodes behind others.
fn push_paths(nodes: Vec<Node>, paths: &mut Vec<MetricPath>) -> Result<(), AllocError>
    ensures { OnOk result
        (paths.new.items ≡ paths.old.items ++ map (λ node. node.path) nodes.items) }
{
    for node in nodes {
        paths.push(node.path)?;
    }
    Ok(())
}

// The nodes that a glob finds, behind others. The names that begin with its literal front are walked, and
// those of a branch are passed over once the branch is told.
fn push_nodes(
    alloc: Global,
    glob: &Glob,
    names: &[MetricPath],
    work: &mut Work,
    nodes: &mut Vec<Node>,
) -> Result<(), AllocError>
    requires { IsStrictlySortedBy (slice_cmp nat_cmp) names.now }
    ensures { OnOk result (AddsFound glob.now names.now nodes.old.items nodes.new.items) }
{
    let count = node_count(glob);
    let mut search = GlobSearch::new(alloc, glob)?;
    let mut rest = run_of(names, glob.literal_front());
    while let Some((name, others)) = rest.split_first() {
        rest = others;
        if let Some(node) = told_node(alloc, name, count, work)? {
            rest = behind_node(&node, name, others);
            let fits = search.matches(work, &node.path)?;
            if fits {
                nodes.push(node)?;
            }
        }
    }
    Ok(())
}

// How many nodes a glob has.
fn node_count(glob: &Glob) -> usize
    ensures value { result ≡ length glob.now.nodes }
    ensures some { 0 < result }
{
    glob.text().iter().filter(|b| **b == b'.').count() + 1
}

// The node of so many nodes that a name tells, if it has as many.
fn told_node(
    alloc: Global,
    name: &MetricPath,
    count: usize,
    work: &mut Work,
) -> Result<Option<Node>, AllocError>
    requires { 0 < count }
    ensures { IfOk result (TellsAt count name.now) }
{
    work.spend(TOLD_WORK)?;
    let text = name.text();
    let Some(at) = end_of_nodes(text, count) else {
        return Ok(None);
    };
    let path = MetricPath::from_legal(alloc, &text[..at])?;
    let is_leaf = at == text.len();
    Ok(Some(Node { path, is_leaf }))
}

// Where the first nodes of a name end, so many of them, if it has as many.
fn end_of_nodes(name: &[u8], count: usize) -> Option<usize>
    requires { 0 < count }
    ensures ends { EndsNodes count name.now result }
    ensures within { IfSome result (λ at. at ≤ length name.now) }
{
    let mut left = count;
    for (at, b) in name.iter().enumerate() {
        if *b == b'.' {
            left -= 1;
            if left == 0 {
                return Some(at);
            }
        }
    }
    if left == 1 { Some(name.len()) } else { None }
}

// The names behind those that tell the same node.
fn behind_node<'a>(node: &Node, name: &MetricPath, others: &'a [MetricPath]) -> &'a [MetricPath]
    requires tells { Tells node.now.is_leaf node.now.path name.now }
    requires rising { IsStrictlySortedBy (slice_cmp nat_cmp) (name.now ∷ others.now) }
    ensures { IsBehindNode node.now others.now result.now }
{
    if node.is_leaf {
        return others;
    }
    // None of the names behind this one is below the branch, since this one begins with it.
    texts_with_one_front_stand_together();
    let front = &name.text()[..node.path.text().len() + 1];
    behind_run(others, front)
}
