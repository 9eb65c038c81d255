//! What is kept for a path.

/// What is known of a metric, with the number of its layout.
#[derive(Clone, Copy, Debug)]
pub(crate) struct Entry {
    pub(crate) layout: u32,
    pub(crate) is_kept: bool,
    pub(crate) is_old: bool,
    pub(crate) drains: u64,
}
