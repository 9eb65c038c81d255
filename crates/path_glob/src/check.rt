//! Whether a text is a glob, and what its first fault is.
ghost use Rattle.std.specs.Prelude.{◌≡◌, ◌==◌, codes};
ghost use Rattle.std.specs.List.{list_any};
ghost use Rattle.metric_path.specs.Path.{is_node_byte};
ghost use Rattle.path_glob.specs.Faults.{after_in_braces, after_in_node, around_after, around_list, fault_at_end, glob_fault, is_simple};

use crate::fault::GlobFault;

// The most bytes of a glob.
const MOST_GLOB_BYTES: usize = 4096;

// What stands around a place of a glob's text, with the places of the brackets and braces that wait
// there for their ends.
#[derive(Clone, Copy)]
pub(crate) enum Around {
    // a node that has no piece yet
    NodeStart,
    // a node
    Node,
    // braces that opened at this place
    Braces(usize),
    // a list that has no member yet: where it opened, and where braces around it did
    ListStart(usize, Option<usize>),
    // a list
    List(usize, Option<usize>),
}

/// The first fault of a text as a glob, with `None` for a glob.
#[tactic(auto, unfolding(crate::specs::Faults::glob_fault))]
pub(crate) fn fault_of(text: &[u8]) -> Option<GlobFault>
    ensures { result ≡ glob_fault text.now }
{
    if text.len() > MOST_GLOB_BYTES {
        return Some(GlobFault::TooLong);
    }
    let mut around = Around::NodeStart;
    for (place, b) in text.iter().enumerate() {
        match around_after(around, place, *b) {
            Ok(after) => around = after,
            Err(fault) => return Some(fault),
        }
    }
    fault_at_end(around, text.len())
}

// What stands around the next place, after a byte.
#[tactic(auto, unfolding(crate::specs::Faults::around_after))]
fn around_after(around: Around, place: usize, b: u8) -> Result<Around, GlobFault>
    ensures { result ≡ around_after around place b }
{
    match around {
        Around::NodeStart => after_in_node(Err(GlobFault::EmptyNode(place)), place, b),
        Around::Node => after_in_node(Ok(Around::NodeStart), place, b),
        Around::Braces(opened) => after_in_braces(opened, place, b),
        Around::ListStart(opened, braces) => {
            if is_node_byte(b) && b != b'!' {
                return Ok(Around::List(opened, braces));
            }
            Err(GlobFault::BadByte(place))
        }
        Around::List(opened, braces) => {
            if b == b']' {
                return Ok(around_list(braces));
            }
            if is_node_byte(b) {
                return Ok(Around::List(opened, braces));
            }
            Err(GlobFault::BadByte(place))
        }
    }
}

// The same in a node, outside brackets and braces: `at_dot` is what a dot makes of it.
fn after_in_node(
    at_dot: Result<Around, GlobFault>,
    place: usize,
    b: u8,
) -> Result<Around, GlobFault>
    ensures { result ≡ after_in_node at_dot place b }
{
    match b {
        b'.' => at_dot,
        b'[' => Ok(Around::ListStart(place, None)),
        b'{' => Ok(Around::Braces(place)),
        _ if is_simple(b) => Ok(Around::Node),
        _ => Err(GlobFault::BadByte(place)),
    }
}

// The same in braces, outside brackets.
fn after_in_braces(opened: usize, place: usize, b: u8) -> Result<Around, GlobFault>
    ensures { result ≡ after_in_braces opened place b }
{
    match b {
        b'}' => Ok(Around::Node),
        b'[' => Ok(Around::ListStart(place, Some(opened))),
        _ if b == b',' || is_simple(b) => Ok(Around::Braces(opened)),
        _ => Err(GlobFault::BadByte(place)),
    }
}

// What stands around the place behind a list.
fn around_list(braces: Option<usize>) -> Around
    ensures { result ≡ around_list braces }
{
    match braces {
        Some(opened) => Around::Braces(opened),
        None => Around::Node,
    }
}

// The fault of a text that ends here.
fn fault_at_end(around: Around, place: usize) -> Option<GlobFault>
    ensures { result ≡ fault_at_end around place }
{
    match around {
        Around::NodeStart => Some(GlobFault::EmptyNode(place)),
        Around::Node => None,
        Around::Braces(opened) | Around::ListStart(opened, _) | Around::List(opened, _) => {
            Some(GlobFault::Unclosed(opened))
        }
    }
}

// Whether a byte is a piece by itself.
fn is_simple(b: u8) -> bool
    ensures { result ≡ is_simple b }
{
    b == b'*' || b == b'?' || is_node_byte(b)
}

// Whether a node of a path may hold this byte.
fn is_node_byte(b: u8) -> bool
    ensures { result ≡ is_node_byte b }
{
    b >= 33 && b <= 126 && !is_reserved(b)
}

// Whether files, tags, globs or targets use this byte.
fn is_reserved(b: u8) -> bool
    ensures { result ≡ list_any (λ x. x == b) (codes "./;*?[]{}(),\"'\\|") }
{
    b"./;*?[]{}(),\"'\\|".contains(&b)
}
