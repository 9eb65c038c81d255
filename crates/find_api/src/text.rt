//! The texts of what is found.
ghost use Rattle.std.specs.Prelude.{◌≡◌, ◌<◌, ◌++◌, IfOk, OnOk, length, map};
ghost use Rattle.std.specs.Cmp.Lexicographic.{slice_cmp};
ghost use Rattle.std.specs.List.Sorted.{IsStrictlySortedBy};
ghost use Rattle.std.specs.Ordering.{nat_cmp};
ghost use Rattle.json.specs.Print.{quoted};
ghost use Rattle.find_api.specs.Texts.{IsExpandText, IsFindText, joined, last_node, names_text, node_end, node_head, node_text, nodes_text, results_head, separator, text_key};

use crate::find::{expand_paths, find_nodes};
use crate::node::Node;
use metric_path::MetricPath;
use path_glob::{Glob, Work};
use serde_json::Value;
use std::alloc::{AllocError, Global};

/// The answer to `/metrics/find`: the nodes that the last of some globs finds, as a JSON list in byte order
/// of their paths, a branch before a leaf of the same path. The names that begin with the glob's literal
/// front are walked alone, and those of a branch are passed over once it is told.
pub fn find_text(alloc: Global, globs: &[Glob], names: &[MetricPath]) -> Result<Vec<u8>, AllocError>
    requires some { 0 < length globs.now }
    requires rising { IsStrictlySortedBy (slice_cmp nat_cmp) names.now }
    ensures { IfOk result (λ text. IsFindText globs.now names.now text.items) }
{
    let Some(glob) = globs.last() else {
        unreachable!()
    };
    let nodes = find_nodes(alloc, glob, names, &mut Work::of_question())?;
    write_nodes(alloc, nodes.as_slice())
}

/// The answer to `/metrics/expand`: the paths of the nodes that some glob finds, as a JSON list in byte
/// order, each once.
pub fn expand_text(
    alloc: Global,
    globs: &[Glob],
    names: &[MetricPath],
) -> Result<Vec<u8>, AllocError>
    requires { IsStrictlySortedBy (slice_cmp nat_cmp) names.now }
    ensures { IfOk result (λ text. IsExpandText globs.now names.now text.items) }
{
    let paths = expand_paths(alloc, globs, names)?;
    let mut out = Vec::new(alloc);
    push_results_head(&mut out)?;
    push_paths(alloc, &mut out, paths.as_slice())?;
    out.extend_from_slice(b"]}")?;
    Ok(out)
}

/// The answer to `/metrics/index.json`: all names, as a JSON list in the order in which they stand.
pub fn index_text(alloc: Global, names: &[MetricPath]) -> Result<Vec<u8>, AllocError>
    ensures { IfOk result (λ text. text.items ≡ names_text names.now) }
{
    let mut out = Vec::new(alloc);
    out.push(b'[')?;
    push_paths(alloc, &mut out, names)?;
    out.push(b']')?;
    Ok(out)
}

// The list of nodes.
fn write_nodes(alloc: Global, nodes: &[Node]) -> Result<Vec<u8>, AllocError>
    ensures { IfOk result (λ text. text.items ≡ nodes_text nodes.now) }
{
    let mut out = Vec::new(alloc);
    out.push(b'[')?;
    push_nodes(alloc, &mut out, nodes)?;
    out.push(b']')?;
    Ok(out)
}

// The nodes with `, ` between each two.
fn push_nodes(alloc: Global, out: &mut Vec<u8>, nodes: &[Node]) -> Result<(), AllocError>
    ensures { OnOk result (out.new.items ≡ out.old.items ++ joined (map node_text nodes.now)) }
{
    let mut is_first = true;
    for node in nodes {
        push_separator(out, is_first)?;
        is_first = false;
        push_node(alloc, out, node)?;
    }
    Ok(())
}

// The paths in quotes, with `, ` between each two.
fn push_paths(alloc: Global, out: &mut Vec<u8>, paths: &[MetricPath]) -> Result<(), AllocError>
    ensures { OnOk result (out.new.items ≡ out.old.items ++ joined (map quoted paths.now)) }
{
    let mut is_first = true;
    for path in paths {
        push_separator(out, is_first)?;
        is_first = false;
        push_quoted(alloc, out, path.as_str())?;
    }
    Ok(())
}

// The separator, but not before the first.
fn push_separator(out: &mut Vec<u8>, is_first: bool) -> Result<(), AllocError>
    ensures { OnOk result (out.new.items ≡ out.old.items ++ separator is_first) }
{
    if is_first {
        return Ok(());
    }
    out.extend_from_slice(b", ")
}

#[tactic(auto, unfolding(crate::specs::Texts::node_text))]
fn push_node(alloc: Global, out: &mut Vec<u8>, node: &Node) -> Result<(), AllocError>
    ensures { OnOk result (out.new.items ≡ out.old.items ++ node_text node.now) }
{
    push_node_head(out, node.is_leaf)?;
    push_quoted(alloc, out, node.path.as_str())?;
    push_text_key(out)?;
    push_last_node(alloc, out, &node.path)?;
    push_node_end(out)
}

fn push_last_node(alloc: Global, out: &mut Vec<u8>, path: &MetricPath) -> Result<(), AllocError>
    ensures { OnOk result (out.new.items ≡ out.old.items ++ quoted (last_node path.now)) }
{
    // A path is ASCII, and so are its nodes.
    let _ = path.text();
    let node = path.node(path.node_count() - 1);
    let Ok(text) = str::from_utf8(node) else {
        unreachable!()
    };
    push_quoted(alloc, out, text)
}

// A text in quotes.
fn push_quoted(alloc: Global, out: &mut Vec<u8>, text: &str) -> Result<(), AllocError>
    ensures { OnOk result (out.new.items ≡ out.old.items ++ quoted text.now) }
{
    let text = Value::String(String::from_str(alloc, text)?).to_string(alloc)?;
    out.extend_from_slice(text.as_bytes())
}

#[tactic(auto, unfolding(crate::specs::Texts::node_head))]
fn push_node_head(out: &mut Vec<u8>, is_leaf: bool) -> Result<(), AllocError>
    ensures { OnOk result (out.new.items ≡ out.old.items ++ node_head is_leaf) }
{
    let head = match is_leaf {
        true => r#"{"allowChildren": 0, "expandable": 0, "leaf": 1, "id": "#,
        false => r#"{"allowChildren": 1, "expandable": 1, "leaf": 0, "id": "#,
    };
    out.extend_from_slice(head.as_bytes())
}

#[tactic(auto, unfolding(crate::specs::Texts::text_key))]
fn push_text_key(out: &mut Vec<u8>) -> Result<(), AllocError>
    ensures { OnOk result (out.new.items ≡ out.old.items ++ text_key) }
{
    out.extend_from_slice(b", \"text\": ")
}

#[tactic(auto, unfolding(crate::specs::Texts::node_end))]
fn push_node_end(out: &mut Vec<u8>) -> Result<(), AllocError>
    ensures { OnOk result (out.new.items ≡ out.old.items ++ node_end) }
{
    out.extend_from_slice(b", \"context\": {}}")
}

#[tactic(auto, unfolding(crate::specs::Texts::results_head))]
fn push_results_head(out: &mut Vec<u8>) -> Result<(), AllocError>
    ensures { OnOk result (out.new.items ≡ out.old.items ++ results_head) }
{
    out.extend_from_slice(b"{\"results\": [")
}
