//! The nodes of patterns.

use crate::bytes::Bytes;

/// What stands between the bytes that a node of a pattern names.
#[derive(Clone, Copy, Debug, PartialEq, Eq)]
pub(crate) enum Gap {
    /// Nothing.
    Closed,
    /// `*`: any bytes, or none.
    Any,
    /// `<name>`: some bytes, which the output takes over.
    Named,
}

/// A node of a pattern: the bytes before its gap, and those behind it.
#[derive(Drop)]
pub(crate) struct PatternNode {
    pub(crate) before: Bytes,
    pub(crate) gap: Gap,
    pub(crate) after: Bytes,
}

/// The text of a node of a pattern, in its parts. The name is that of a gap which has one, and else
/// no bytes.
#[derive(Clone, Copy)]
pub(crate) struct NodeText<'a> {
    pub(crate) before: &'a [u8],
    pub(crate) gap: Gap,
    pub(crate) name: &'a [u8],
    pub(crate) after: &'a [u8],
}
