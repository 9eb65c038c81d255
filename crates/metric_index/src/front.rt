//! Where the paths that begin with the same bytes stand in byte order.
ghost use Rattle.std.specs.Prelude.{◌≡◌, IfOk, IsTrue};
ghost use Rattle.metric_index.specs.Found.{IsLeastPath, IsLiteral, least_text, needs_node};

use metric_path::{MetricPath, fault_of};
use path_glob::{Glob, bytes_stand_for_themselves};
use std::alloc::{AllocError, Global};

// The least byte that a node of a path may hold.
const LEAST_NODE_BYTE: u8 = b'!';

/// The least path that begins with these bytes, or `None` where no path does.
pub(crate) fn least_path(alloc: Global, front: &[u8]) -> Result<Option<MetricPath>, AllocError>
    ensures { IfOk result (IsLeastPath front.now) }
{
    let text = least_text(alloc, front)?;
    if fault_of(text.as_slice()).is_some() {
        return Ok(None);
    }
    Ok(Some(MetricPath::from_legal(alloc, text.as_slice())?))
}

// These bytes, and the least node behind them where they end in no node.
fn least_text(alloc: Global, front: &[u8]) -> Result<Vec<u8>, AllocError>
    ensures { IfOk result (λ text. text.items ≡ least_text front.now) }
{
    let mut text = front.to_vec(alloc)?;
    if needs_node(front) {
        text.push(LEAST_NODE_BYTE)?;
    }
    Ok(text)
}

// Whether no byte of a node stands at the end.
fn needs_node(front: &[u8]) -> bool
    ensures { result ≡ needs_node front.now }
{
    front.is_empty() || front.ends_with(b".")
}

/// Whether a glob has no wildcard, bracket or brace.
pub(crate) fn is_literal(glob: &Glob) -> bool
    ensures { IsTrue result → IsLiteral glob.now }
{
    // Why such a glob fits no path but its own text.
    bytes_stand_for_themselves();
    glob.literal_front().len() == glob.text().len()
}
