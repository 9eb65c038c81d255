//! What it takes to hold a pattern against a node.
ghost use Rattle.std.specs.Prelude.{◌≤◌};

use crate::cover::{MANY_PIECES, literal_front};
use crate::cut::next_braces;

// What it takes to have room for the states of a group by each byte.
const GROUP_WORK: u64 = 8192;

// What it takes to make a byte of a group ready.
const BYTE_WORK: u64 = 16;

// The same of a byte that is held against each of the 256 bytes.
const LIST_WORK: u64 = 128;

/// What it takes to hold a pattern against a node, in [`crate::work::Work`].
#[derive(Clone, Copy)]
pub(crate) struct HoldWork {
    // for a node
    node: u64,
    // for each two bytes of it
    wide: u64,
}

impl HoldWork {
    /// None.
    pub(crate) fn none() -> HoldWork {
        HoldWork { node: 0, wide: 0 }
    }

    /// That of the pieces of a node, held as text.
    pub(crate) fn of_node(pieces: &[u8]) -> HoldWork {
        let front = literal_front(pieces).len();
        let is_short = pieces.len().saturating_sub(front) < MANY_PIECES;
        HoldWork {
            node: work_of_bytes(pieces),
            wide: wide_bytes(&pieces[front..], is_short),
        }
    }

    /// That of rows of pieces among few or many others, held as text.
    pub(crate) fn of_text(text: &[u8], is_short: bool) -> HoldWork {
        HoldWork {
            node: work_of_bytes(text),
            wide: wide_bytes(text, is_short),
        }
    }

    /// That of an automaton whose states take so many words, where none of their sets is known.
    pub(crate) fn of_words(words: usize) -> HoldWork {
        HoldWork {
            node: words as u64,
            wide: words as u64,
        }
    }

    /// Both.
    pub(crate) fn and(self, other: HoldWork) -> HoldWork {
        HoldWork {
            node: self.node.saturating_add(other.node),
            wide: self.wide.saturating_add(other.wide),
        }
    }

    /// That of a node of so many bytes.
    pub(crate) fn for_bytes(self, len: usize) -> u64 {
        (self.wide.saturating_mul(len as u64) / 2).saturating_add(self.node)
    }
}

// A value of braces takes as long as a byte more.
fn work_of_bytes(pieces: &[u8]) -> u64 {
    let values = pieces.iter().filter(|b| **b == b',').count();
    (pieces.len() as u64).saturating_add(values as u64)
}

// How many bytes of pieces are held against each byte of a node: where there are few, all but wildcards, and
// else those of lists. A text is compared at once.
fn wide_bytes(pieces: &[u8], is_short: bool) -> u64 {
    let mut is_list = false;
    let mut count = 0_u64;
    for b in pieces {
        is_list = *b == b'[' || (is_list && *b != b']');
        if is_list || (is_short && *b != b'*' && *b != b'?') {
            count = count.saturating_add(1);
        }
    }
    count
}

/// What it takes to make the pieces of a node ready.
pub(crate) fn ready_work(pieces: &[u8]) -> u64 {
    let mut is_list = false;
    let mut work = long_groups(pieces).saturating_mul(GROUP_WORK);
    for b in pieces {
        is_list = *b == b'[' || (is_list && *b != b']');
        if is_list || *b == b'?' {
            work = work.saturating_add(LIST_WORK);
        }
        work = work.saturating_add(BYTE_WORK);
    }
    work
}

/// How many groups of a node's pattern are long.
pub(crate) fn long_groups(pieces: &[u8]) -> u64 {
    let mut rest = pieces;
    let mut count = 0_u64;
    while let Some(parts) = next_braces(rest) {
        count = count.saturating_add(is_long(parts.before) + is_long(parts.inner));
        rest = parts.after;
    }
    count.saturating_add(is_long(rest))
}

// One for a long text, and else none.
fn is_long(text: &[u8]) -> u64
    ensures { result ≤ 1 }
{
    u64::from(text.len() >= MANY_PIECES)
}
