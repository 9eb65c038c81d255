//! What globs find, as a pickle.
ghost use Rattle.std.specs.Prelude.{◌≡◌, ◌++◌, IfOk, OnOk, map};
ghost use Rattle.pickle_form.specs.Pickle.{boolean_code, items_code, members_code, pickled, text_code, value_code};
ghost use Rattle.pickle_form.specs.Value.{row};
ghost use Rattle.render_pickle.specs.Reply.{find_value, interval_value, interval_members, is_leaf_key, leaf_members, node_value, path_key};

use metric_path::MetricPath;
use pickle_form::{push_boolean, push_head, push_text, push_whole};
use std::alloc::{AllocError, Global};

/// Moments in seconds since the Unix epoch.
#[derive(Clone, Copy)]
pub struct Interval {
    pub from: u64,
    pub until: u64,
}

/// A node that a glob finds: its path, and for a leaf the interval in which it has values.
#[derive(Drop)]
pub struct FoundNode {
    pub path: MetricPath,
    pub interval: Option<Interval>,
}

/// Nodes as a pickle: a list of maps with `path` and `is_leaf`, and for a leaf `intervals`, a list of one pair. A
/// text or a number that a pickle cannot hold is want of memory.
pub fn find_pickle(alloc: Global, nodes: &[FoundNode]) -> Result<Vec<u8>, AllocError>
    ensures { IfOk result (λ bytes. bytes.items ≡ pickled (find_value nodes.now)) }
{
    let mut out = Vec::new(alloc);
    push_head(&mut out)?;
    out.extend_from_slice(b"](")?;
    push_nodes(&mut out, nodes)?;
    out.extend_from_slice(b"e.")?;
    Ok(out)
}

fn push_nodes(out: &mut Vec<u8>, nodes: &[FoundNode]) -> Result<(), AllocError>
    ensures { OnOk result
        (out.new.items ≡ out.old.items ++ items_code (row (map node_value nodes.now))) }
{
    for node in nodes {
        push_node(out, node)?;
    }
    Ok(())
}

fn push_node(out: &mut Vec<u8>, node: &FoundNode) -> Result<(), AllocError>
    ensures { OnOk result (out.new.items ≡ out.old.items ++ value_code (node_value node.now)) }
{
    out.extend_from_slice(b"}(")?;
    push_path(out, node.path.text())?;
    push_leaf(out, node.interval)?;
    out.push(b'u')?;
    Ok(())
}

#[tactic(auto, unfolding(crate::specs::Reply::path_key))]
fn push_path(out: &mut Vec<u8>, path: &[u8]) -> Result<(), AllocError>
    ensures { OnOk result
        (out.new.items ≡ out.old.items ++ (text_code path_key ++ text_code path.now)) }
{
    push_text(out, b"path")?;
    push_text(out, path)
}

fn push_leaf(out: &mut Vec<u8>, interval: Option<Interval>) -> Result<(), AllocError>
    ensures { OnOk result (out.new.items ≡ out.old.items ++ members_code (leaf_members interval)) }
{
    let Some(interval) = interval else {
        return push_is_leaf(out, false);
    };
    push_is_leaf(out, true)?;
    push_intervals(out, interval)
}

#[tactic(auto, unfolding(crate::specs::Reply::is_leaf_key))]
fn push_is_leaf(out: &mut Vec<u8>, is_leaf: bool) -> Result<(), AllocError>
    ensures { OnOk result
        (out.new.items ≡ out.old.items ++ (text_code is_leaf_key ++ boolean_code is_leaf)) }
{
    push_text(out, b"is_leaf")?;
    push_boolean(out, is_leaf)
}

// The interval of a leaf.
#[tactic(auto, unfolding(crate::specs::Reply::intervals_key))]
fn push_intervals(out: &mut Vec<u8>, interval: Interval) -> Result<(), AllocError>
    ensures { OnOk result (out.new.items ≡ out.old.items ++ members_code (interval_members interval)) }
{
    push_text(out, b"intervals")?;
    out.extend_from_slice(b"](")?;
    push_interval(out, interval)?;
    out.push(b'e')?;
    Ok(())
}

fn push_interval(out: &mut Vec<u8>, interval: Interval) -> Result<(), AllocError>
    ensures { OnOk result (out.new.items ≡ out.old.items ++ value_code (interval_value interval)) }
{
    out.extend_from_slice(b"](")?;
    push_whole(out, interval.from)?;
    push_whole(out, interval.until)?;
    out.push(b'e')?;
    Ok(())
}
