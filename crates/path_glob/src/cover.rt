//! Whether the pieces of a glob cover the nodes of a path.
ghost use Rattle.std.specs.Prelude.{◌≡◌, ◌↔◌, ◌<◌, ◌≤◌, IfSome, ◌∷◌, [], IsTrue, None, true, length, nat_le, position};
ghost use Rattle.std.specs.List.{list_all};
ghost use Rattle.metric_path.specs.Path.{nodes_of, path_fault};
ghost use Rattle.path_glob.specs.Glob.{Fits, NodeCovers, RowCovers, SomeCovers};
ghost use Rattle.path_glob.specs.Reading.{globs_of, is_special, pieces_of, row_of, values_of};
ghost use Rattle.path_glob.specs.Laws.{literal_front};
ghost use Rattle.path_glob.specs.Positions.{Leads, held};
ghost use Rattle.path_glob.specs.Steps.{StepIn};

use crate::cut::{cut_at, next_braces, next_piece};
use crate::places::{Node, Places};
use crate::positions::Positions;

/// With pieces of so many bytes the places of a node's bytes are looked up once.
pub(crate) const MANY_PIECES: usize = 64;

/// Whether the glob with this text fits the path with this one.
pub(crate) fn text_fits(glob: &[u8], path: &[u8]) -> bool
    requires { path_fault path.now ≡ None }
    ensures { IsTrue result ↔ Fits (globs_of glob.now) (nodes_of path.now) }
{
    let mut globs = glob;
    let mut nodes = path;
    while let Some(cut) = cut_at(globs, b'.') {
        let Some(node_cut) = cut_at(nodes, b'.') else {
            return false;
        };
        if !node_fits(cut.before, node_cut.before) {
            return false;
        }
        globs = cut.after;
        nodes = node_cut.after;
    }
    last_fits(globs, nodes)
}

// Whether no node follows, and the pieces of a glob's node cover this one.
fn last_fits(pieces: &[u8], nodes: &[u8]) -> bool
    requires { list_all (λ node. nat_le (length node) 240) (nodes_of nodes.now) ≡ true }
    ensures { IsTrue result ↔ Fits (pieces_of pieces.now ∷ []) (nodes_of nodes.now) }
{
    match cut_at(nodes, b'.') {
        Some(_) => return false,
        None => return node_fits(pieces, nodes),
    }
}

/// Whether the pieces of a glob's node cover a node.
pub(crate) fn node_fits(pieces: &[u8], node: &[u8]) -> bool
    requires { length node.now ≤ 240 }
    ensures { IsTrue result ↔ NodeCovers (pieces_of pieces.now) node.now }
{
    let Some(at) = special_in(pieces) else {
        return pieces == node;
    };
    match node.strip_prefix(&pieces[..at]) {
        Some(rest) => pieces_fit(&pieces[at..], rest),
        None => false,
    }
}

// Whether the pieces of a glob's node cover the bytes of a node or of its end. A single `*` covers all.
fn pieces_fit(pieces: &[u8], bytes: &[u8]) -> bool
    requires { length bytes.now ≤ 240 }
    ensures { IsTrue result ↔ NodeCovers (pieces_of pieces.now) bytes.now }
{
    if pieces == b"*".as_slice() {
        return true;
    }
    if pieces.len() < MANY_PIECES {
        return is_covered(pieces, &Node::new(bytes));
    }
    many_fit(pieces, bytes)
}

// The same, where so many pieces are held against a node that its places are looked up once.
fn many_fit(pieces: &[u8], bytes: &[u8]) -> bool
    requires { length bytes.now ≤ 240 }
    ensures { IsTrue result ↔ NodeCovers (pieces_of pieces.now) bytes.now }
{
    let places = Places::of(bytes);
    is_covered(pieces, &Node::with_places(bytes, &places))
}

// Whether the pieces lead from the first position of a node to the last.
fn is_covered(pieces: &[u8], node: &Node<'_>) -> bool
    requires { length node.now ≤ 240 }
    ensures { IsTrue result ↔ NodeCovers (pieces_of pieces.now) node.now }
{
    after_node(pieces, node, Positions::start()).has(node.len())
}

/// What stands before the first wildcard, bracket or brace.
pub(crate) fn literal_front(text: &[u8]) -> &[u8]
    ensures { result.now ≡ literal_front text.now }
{
    match special_in(text) {
        Some(at) => return &text[..at],
        None => return text,
    }
}

// Where the first wildcard, bracket or brace stands.
fn special_in(pieces: &[u8]) -> Option<usize>
    ensures value { result ≡ position is_special pieces.now }
    ensures within { IfSome result (λ at. at < length pieces.now) }
{
    pieces.iter().position(|b| is_special(*b))
}

fn is_special(b: u8) -> bool
    ensures { result ≡ is_special b }
{
    b == b'*' || b == b'?' || b == b'[' || b == b'{'
}

// The positions to which these lead over what the pieces of a glob's node cover.
fn after_node(pieces: &[u8], node: &Node<'_>, start: Positions) -> Positions
    requires { length node.now ≤ 240 }
    ensures { Leads (NodeCovers (pieces_of pieces.now)) node.now (held start) (held result) }
{
    let mut rest = pieces;
    let mut reached = start;
    while let Some(parts) = next_braces(rest) {
        let before = after_row(parts.before, node, reached);
        reached = after_values(parts.inner, node, before);
        rest = parts.after;
    }
    after_row(rest, node, reached)
}

/// The same over what one of the values between braces covers.
pub(crate) fn after_values(values: &[u8], node: &Node<'_>, start: Positions) -> Positions
    requires { length node.now ≤ 240 }
    ensures { Leads (SomeCovers (values_of values.now)) node.now (held start) (held result) }
{
    let mut rest = values;
    let mut reached = Positions::none();
    while let Some(cut) = cut_at(rest, b',') {
        reached = reached.with(after_row(cut.before, node, start));
        rest = cut.after;
    }
    reached.with(after_row(rest, node, start))
}

/// The same over what a row of simple pieces covers.
pub(crate) fn after_row(row: &[u8], node: &Node<'_>, start: Positions) -> Positions
    requires { length node.now ≤ 240 }
    ensures { Leads (RowCovers (row_of row.now)) node.now (held start) (held result) }
{
    let mut rest = row;
    let mut reached = start;
    while let Some(step) = next_step(rest, node, reached) {
        reached = step.reached;
        if reached.is_none() {
            return reached;
        }
        rest = step.after;
    }
    reached
}

// Where the first piece of a row leads, and what follows it.
#[derive(Clone, Copy)]
struct Step<'a> {
    reached: Positions,
    after: &'a [u8],
}

// The same over what the first piece of a row covers. The pieces of one byte are the most, and are not read
// as pieces first.
fn next_step<'a>(row: &'a [u8], node: &Node<'_>, start: Positions) -> Option<Step<'a>>
    requires { length node.now ≤ 240 }
    ensures { StepIn row.now node.now (held start) result }
{
    let Some((first, after)) = row.split_first() else {
        return None;
    };
    if *first == b'*' {
        let reached = start.after_any_row();
        return Some(Step { reached, after });
    }
    if !is_special(*first) {
        let reached = start.after_one(*first, node);
        return Some(Step { reached, after });
    }
    any_step(row, node, start)
}

// The same of any piece.
fn any_step<'a>(row: &'a [u8], node: &Node<'_>, start: Positions) -> Option<Step<'a>>
    requires { length node.now ≤ 240 }
    ensures { StepIn row.now node.now (held start) result }
{
    match next_piece(row) {
        Some(first) => {
            let reached = start.after(first.piece, node);
            return Some(Step {
                reached,
                after: first.after,
            });
        }
        None => return None,
    }
}
