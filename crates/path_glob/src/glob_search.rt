//! One glob over many paths.
ghost use Rattle.std.specs.Prelude.{◌≡◌, ◌≤◌, ◌↔◌, ◌∷◌, IfOk, IsTrue, None, length, map, option_copied};
ghost use Rattle.metric_path.specs.Path.{nodes_of, path_fault};
ghost use Rattle.path_glob.specs.Glob.{Fits};
ghost use Rattle.path_glob.specs.Reading.{pieces_of};
ghost use Rattle.path_glob.specs.Search.{nodes_left};

use crate::cut::cut_at;
use crate::glob::Glob;
use crate::node_search::NodeSearch;
use crate::work::Work;
use metric_path::MetricPath;
use std::alloc::{AllocError, Global};
use std::marker::Model;

/// One glob over many paths: a long pattern of a node is made ready once and then goes over the bytes of each node that
/// is another one than the last; of one with many short parts what came of each node that was tried is remembered; and the
/// work is counted.
#[derive(Drop)]
pub struct GlobSearch<'a> {
    glob: &'a Glob,
    front: &'a [u8],
    nodes: Vec<NodeSearch<'a>>,
}

impl<'a> Model for GlobSearch<'a> {
    ghost use Rattle.std.specs.Prelude.{◌≡◌, List, ℕ, map};
    ghost use Rattle.metric_path.specs.Path.{nodes_of};
    ghost use Rattle.path_glob.specs.Faults.{Said};
    ghost use Rattle.path_glob.specs.Glob.{Fits};
    ghost use Rattle.path_glob.specs.Laws.{BeginsWith};
    ghost use Rattle.path_glob.specs.Reading.{pieces_of};

    ghost Value = { Said };

    ghost view = { λ s. s.glob.now };

    ghost invariant = { λ s. (s.glob.now.nodes ≡ map pieces_of s.nodes.items)
        × ((path : List ℕ) → Fits s.glob.now.nodes (nodes_of path) → BeginsWith s.front.now path) };
}

impl<'a> GlobSearch<'a> {
    /// A search of paths that this glob fits.
    pub fn new(alloc: Global, glob: &'a Glob) -> Result<GlobSearch<'a>, AllocError>
        ensures { IfOk result (λ search. search ≡ glob.now) }
    {
        let nodes = searches_of(alloc, glob.text())?;
        let front = glob.literal_front();
        Ok(GlobSearch { glob, front, nodes })
    }

    /// Whether the glob fits a path, as [`Glob::matches`] answers. An error is want of memory, or the work that
    /// is spent; the search is as before, and may go on.
    ///
    /// Each node of the path that is looked at takes work, 4 at least: as much as its pattern has bytes where it is held against it, and more
    /// where these are lists or few, or less where it is remembered; a long pattern takes some of its bytes for each byte of the node, and more
    /// the first time. No work is taken where the path begins otherwise than the glob up to its first wildcard.
    pub fn matches(&mut self, work: &mut Work, path: &MetricPath) -> Result<bool, AllocError>
        ensures fits { IfOk result (λ fits. IsTrue fits ↔ Fits self.old.nodes (nodes_of path.now)) }
        ensures same { self.new ≡ self.old }
        ensures falls { work.new.left ≤ work.old.left }
    {
        let text = path.text();
        if !text.starts_with(self.front) {
            return Ok(false);
        }
        nodes_fit(self.nodes.as_mut_slice(), work, text)
    }
}

// The nodes of a glob's text.
fn searches_of<'a>(alloc: Global, text: &'a [u8]) -> Result<Vec<NodeSearch<'a>>, AllocError>
    ensures { IfOk result (λ nodes. nodes.items ≡ nodes_of text.now) }
{
    let mut nodes = Vec::new(alloc);
    let mut rest = text;
    while let Some(cut) = cut_at(rest, b'.') {
        nodes.push(NodeSearch::new(alloc, cut.before))?;
        rest = cut.after;
    }
    nodes.push(NodeSearch::new(alloc, rest))?;
    Ok(nodes)
}

// Whether nodes of a glob fit the path with this text.
fn nodes_fit(nodes: &mut [NodeSearch<'_>], work: &mut Work, path: &[u8]) -> Result<bool, AllocError>
    requires { path_fault path.now ≡ None }
    ensures fits { IfOk result (λ fits. IsTrue fits
        ↔ Fits (map pieces_of nodes.old) (nodes_of path.now)) }
    ensures same { nodes.new ≡ nodes.old }
    ensures falls { work.new.left ≤ work.old.left }
{
    let mut left = Some(path);
    for i in 0..nodes.len() {
        let Some(text) = left else {
            return Ok(false);
        };
        let first = first_node(text);
        if !nodes[i].covers(work, first.node)? {
            return Ok(false);
        }
        left = first.after;
    }
    match left {
        None => return Ok(true),
        Some(_) => return Ok(false),
    }
}

// The first node of a path, and what follows it, with `None` where it is the last.
#[derive(Clone, Copy)]
struct FirstNode<'a> {
    node: &'a [u8],
    after: Option<&'a [u8]>,
}

// The first node of a path.
fn first_node(path: &[u8]) -> FirstNode<'_>
    ensures { nodes_of path.now ≡ result.node.now ∷ nodes_left (option_copied result.after) }
{
    match cut_at(path, b'.') {
        Some(cut) => {
            return FirstNode {
                node: cut.before,
                after: Some(cut.after),
            };
        }
        None => {
            return FirstNode {
                node: path,
                after: None,
            };
        }
    }
}
