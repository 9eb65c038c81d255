//! Texts in two parts.

/// A text that was cut at a byte: what stands before the byte, and what follows it.
#[derive(Clone, Copy)]
pub(crate) struct Cut<'a> {
    pub(crate) front: &'a [u8],
    pub(crate) rest: &'a [u8],
}
