//! What the numbers at the front of a body tell.

/// The bytes of the numbers.
pub(crate) const NUMBERS_BYTES: usize = 16;

/// The numbers at the front of a body.
#[derive(Clone, Copy, Debug, PartialEq, Eq)]
pub(crate) struct Numbers {
    // The bytes of the path.
    pub(crate) path_len: usize,
    // Whether the patch is fresh.
    pub(crate) is_fresh: bool,
    // How many cells there are.
    pub(crate) cell_count: u64,
}
