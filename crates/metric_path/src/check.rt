//! Whether a text is a legal path, and what its first fault is.
ghost use Rattle.std.specs.Prelude.{◌≡◌, ◌⊎◌, ◌<◌, ◌≤◌, ◌↔◌, ◌==◌, All, IsTrue, None, false, length, nat_le, position, take};
ghost use Rattle.std.specs.List.{list_all, list_any};
ghost use Rattle.metric_path.specs.Path.{is_bad_byte, is_node_byte, most_node_bytes, most_path_bytes, nodes_of, path_fault};

use crate::path::PathFault;

// The most bytes of a path, and of one of its nodes.
const MOST_PATH_BYTES: usize = 1024;

const MOST_NODE_BYTES: usize = 240;

// Each byte that a node may hold stands at its own place, and a slash at every other place.
static NODE_BYTES: [u8; 256] = *b"\
    ////////////////////////////////\
    /!/#$%&////+/-//0123456789:/<=>/\
    @ABCDEFGHIJKLMNOPQRSTUVWXYZ///^_\
    `abcdefghijklmnopqrstuvwxyz///~/\
    ////////////////////////////////\
    ////////////////////////////////\
    ////////////////////////////////\
    ////////////////////////////////";

/// The first fault of a text as a path, with `None` for a legal path.
pub fn fault_of(text: &[u8]) -> Option<PathFault>
    ensures { result ≡ path_fault text.now }
{
    if is_legal(text) {
        return None;
    }
    first_fault(text)
}

// Whether a text is a legal path, in one walk over its bytes.
fn is_legal(text: &[u8]) -> bool
    ensures { IsTrue result → path_fault text.now ≡ None }
{
    let len = legal_front(text);
    len > 0 && len == text.len()
}

/// How many bytes stand before the first that no path may hold, where they are a legal path, and 0 where they are none: so the path
/// of a line is checked in the walk that finds its end.
pub fn legal_front(text: &[u8]) -> usize
    ensures within { result ≤ length text.now }
    ensures legal { 0 < result → path_fault (take result text.now) ≡ None }
    ensures clean { 0 < result → All (λ b. is_bad_byte b ≡ false) (take result text.now) }
{
    let mut start = 0;
    for at in 0..text.len() {
        if !is_node_byte(text[at]) {
            if text[at] != b'.' || !is_node_len(at - start) {
                return front_len(at, at - start);
            }
            start = at + 1;
        }
    }
    front_len(text.len(), text.len() - start)
}

// How many bytes a front of legal nodes has, of which the last has so many: 0 where that node or the front is no legal one.
fn front_len(len: usize, node_len: usize) -> usize
    ensures front { result ≡ len ⊎ result ≡ 0 }
    ensures legal { 0 < result
        → (0 < node_len) × ((node_len ≤ most_node_bytes) × (len ≤ most_path_bytes)) }
{
    if is_node_len(node_len) && len <= MOST_PATH_BYTES {
        len
    } else {
        0
    }
}

// Whether a node may have this many bytes.
fn is_node_len(len: usize) -> bool
    ensures { IsTrue result ↔ ((0 < len) × (len ≤ most_node_bytes)) }
{
    len > 0 && len <= MOST_NODE_BYTES
}

// The first fault, test by test.
#[tactic(auto, unfolding(crate::specs::Path::path_fault))]
fn first_fault(text: &[u8]) -> Option<PathFault>
    ensures { result ≡ path_fault text.now }
{
    if text.is_empty() {
        return Some(PathFault::Empty);
    }
    if text.len() > MOST_PATH_BYTES || !has_short_nodes(text) {
        return Some(PathFault::TooLong);
    }
    if has_empty_node(text) {
        return Some(PathFault::EmptyNode);
    }
    match bad_byte(text) {
        Some(at) => Some(PathFault::BadByte(at)),
        None => None,
    }
}

// Whether no node is too long.
fn has_short_nodes(text: &[u8]) -> bool
    ensures { result ≡ list_all (λ node. nat_le (length node) most_node_bytes) (nodes_of text.now) }
{
    text.split(|b| *b == b'.')
        .all(|node| node.len() <= MOST_NODE_BYTES)
}

// Whether a node has no bytes.
fn has_empty_node(text: &[u8]) -> bool
    ensures { result ≡ list_any (λ node. length node == 0) (nodes_of text.now) }
{
    text.split(|b| *b == b'.').any(|node| node.is_empty())
}

// Where the first byte stands that a path may not hold.
fn bad_byte(text: &[u8]) -> Option<usize>
    ensures { result ≡ position is_bad_byte text.now }
{
    text.iter().position(|b| !is_node_byte(*b) && *b != b'.')
}

// Whether a node may hold this byte.
fn is_node_byte(b: u8) -> bool
    ensures { result ≡ is_node_byte b }
{
    NODE_BYTES[b as usize] != b'/'
}
